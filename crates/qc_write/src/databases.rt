//! CREATE DATABASE and DROP DATABASE.

ghost use Rattle.std.specs.Prelude.{◌≡◌};
ghost use Rattle.qc_types.specs.Answers.{Gives};
ghost use Rattle.qc_sql.specs.Database.{tables_of};
ghost use Rattle.qc_sql.specs.Effects as meant;

use crate::outcome::Effect;
use qc_sql::errors::{database_exists, no_database_to_drop};
use qc_sql::tables::RowOp;
use qc_table::Database;
use qc_types::{Or, SqlError, Text};
use std::alloc::Global;

/// What CREATE DATABASE does: one operation, and one row affected. Refused with 1007 where the database is there. Costs the logarithm of how many
/// databases there are.
pub(crate) fn create_db_effect(
    alloc: Global,
    database: &Database,
    name: &Text,
) -> Result<Effect, Or<SqlError>>
    ensures { Gives (λ e. e) (λ e. e) result (meant.create_db_effect database.now name.now) }
{
    if database.has_db(name.bytes()) {
        return Err(Or::Other(database_exists(alloc, name.bytes())?));
    }
    let op = RowOp::CreateDb(name.copy(alloc)?);
    Ok(Effect::of_one(alloc, op, 1)?)
}

/// What DROP DATABASE does: one operation, and as many rows affected as the database has tables. Refused with 1008 where there is no such database.
/// Costs the logarithm of how many databases there are.
pub(crate) fn drop_db_effect(
    alloc: Global,
    database: &Database,
    name: &Text,
) -> Result<Effect, Or<SqlError>>
    ensures { Gives (λ e. e) (λ e. e) result (meant.drop_db_of name.now (tables_of name.now database.now)) }
{
    let Some(affected) = database.table_count(name.bytes()) else {
        return Err(Or::Other(no_database_to_drop(alloc, name.bytes())?));
    };
    let op = RowOp::DropDb(name.copy(alloc)?);
    Ok(Effect::of_one(alloc, op, affected)?)
}
