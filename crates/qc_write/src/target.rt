//! The table that a statement changes.

ghost use Rattle.std.specs.Prelude.{◌≡◌, IfOk};
ghost use Rattle.qc_types.specs.Answers.{Gives};
ghost use Rattle.qc_sql.specs.Rules as rules;
ghost use Rattle.qc_table.specs.Tables.{IsSound};
ghost use Rattle.qc_write.specs.Targets.{bound_of, target_in};

use qc_resolve::check_database;
use qc_sql::errors::no_such_table;
use qc_sql::names::full_name;
use qc_sql::statements::TableRef;
use qc_table::{Database, TableVersion};
use qc_types::{Or, SqlError, TableName};
use std::alloc::Global;

/// A table that a statement changes: its whole name, and the table as it stands.
#[derive(Drop)]
pub(crate) struct Target<'a> {
    pub(crate) name: TableName,
    pub(crate) version: &'a TableVersion,
}

/// The table that a statement names, with this current database (empty: none). Refused where no database is named or current (1046), where the
/// database isn't there (1049), and where it has no such table (1146), in this order. Costs the logarithm of how many databases and tables there are.
pub(crate) fn bind_target<'a>(
    alloc: Global,
    database: &'a Database,
    db: &[u8],
    table: &TableRef,
) -> Result<Target<'a>, Or<SqlError>>
    ensures gives { Gives bound_of (λ e. e) result (target_in database.now db.now table.now) }
    ensures name { IfOk result (λ t. t.name ≡ rules.full_name db.now table.now) }
    ensures sound { IfOk result (λ t. IsSound t.version.now) }
{
    let name = full_name(alloc, db, table)?;
    check_database(alloc, database, &name)?;
    let Some(version) = database.table(&name) else {
        return Err(Or::Other(no_such_table(alloc, &name)?));
    };
    // says that the table is sound
    let _columns = version.columns();
    Ok(Target { name, version })
}
