//! Names of tables.

ghost use Rattle.std.specs.Prelude.{◌≡◌, IfOk};
ghost use Rattle.std.specs.List.{list_any};
ghost use Rattle.qc_sql.specs.Database.{same_table};
ghost use Rattle.qc_sql.specs.Rules.{full_name};

use crate::statements::TableRef;
use qc_types::{NoMemory, TableName, Text};
use std::alloc::Global;

/// Whether two names are of one table, byte for byte.
pub fn is_same_table(table: &TableName, other: &TableName) -> bool
    ensures { result ≡ same_table table.now other.now }
{
    table.db.bytes() == other.db.bytes() && table.name.bytes() == other.name.bytes()
}

/// Whether a table is one of these. Linear in their number.
pub fn has_table(tables: &[TableName], table: &TableName) -> bool
    ensures { result ≡ list_any (same_table table.now) tables.now }
{
    for other in tables {
        if is_same_table(table, other) {
            return true;
        }
    }
    false
}

/// The whole name of a table, of the current database where none is written. Fails where memory runs out.
pub fn full_name(alloc: Global, db: &[u8], table: &TableRef) -> Result<TableName, NoMemory>
    ensures { IfOk result (λ t. t ≡ full_name db.now table.now) }
{
    let db = match &table.db {
        Some(db) => db.copy(alloc)?,
        None => Text::of(alloc, db)?,
    };
    Ok(TableName {
        db,
        name: table.name.copy(alloc)?,
    })
}
