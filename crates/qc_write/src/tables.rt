//! DROP TABLE and TRUNCATE.

ghost use Rattle.qc_types.specs.Answers.{Gives};
ghost use Rattle.qc_sql.specs.Effects as meant;

use crate::outcome::Effect;
use crate::target::bind_target;
use qc_resolve::check_database;
use qc_sql::errors::unknown_table;
use qc_sql::names::full_name;
use qc_sql::statements::TableRef;
use qc_sql::tables::{Ops, RowOp};
use qc_table::{Database, copy_of_columns};
use qc_types::{Duplicate, Or, SqlError};
use std::alloc::Global;

/// What DROP TABLE does: one operation. Refused with 1046, 1049 and 1051, in this order. Costs the logarithm of how many databases and tables there are.
pub(crate) fn drop_effect(
    alloc: Global,
    database: &Database,
    db: &[u8],
    table: &TableRef,
) -> Result<Effect, Or<SqlError>>
    ensures { Gives (λ e. e) (λ e. e) result (meant.drop_effect database.now db.now table.now) }
{
    let name = full_name(alloc, db, table)?;
    check_database(alloc, database, &name)?;
    if database.table(&name).is_none() {
        return Err(Or::Other(unknown_table(alloc, &name)?));
    }
    Ok(Effect::of_one(alloc, RowOp::DropTable(name), 0)?)
}

/// What TRUNCATE does: the table is dropped, and made again with the same columns. Refused with 1046, 1049 and 1146, in this order. Costs what the
/// columns hold, and the logarithm of how many databases and tables there are.
pub(crate) fn truncate_effect(
    alloc: Global,
    database: &Database,
    db: &[u8],
    table: &TableRef,
) -> Result<Effect, Or<SqlError>>
    ensures { Gives (λ e. e) (λ e. e) result (meant.truncate_effect database.now db.now table.now) }
{
    let target = bind_target(alloc, database, db, table)?;
    let columns = copy_of_columns(alloc, target.version.columns())?;
    let mut ops = Ops::new(alloc);
    ops.push(RowOp::DropTable(target.name.duplicate(alloc)?))?;
    ops.push(RowOp::CreateTable(target.name, columns))?;
    Ok(Effect { ops, affected: 0 })
}
