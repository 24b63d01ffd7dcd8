//! The tables of a SELECT that are the server's own.

ghost use Rattle.std.specs.Prelude.{◌≡◌, find, map, IfOk};
ghost use Rattle.std.specs.List.{list_any};
ghost use Rattle.qc_sql.specs.Rules.{full_name, is_system, same_word, system_databases};

use qc_lex::is_one_of;
use qc_sql::statements::{Source, TableRef};
use qc_types::{NoMemory, TableName, Text};
use std::alloc::Global;

/// The databases of the server's own.
static SYSTEM_DATABASES: [&str; 3] = ["mysql", "information_schema", "performance_schema"];

/// The first table of a system database, in the order of FROM, with `db` as the database of a name that has none. Linear in the names; memory is
/// taken for the name of that table alone, and its want is the only error.
pub fn first_system_table(
    alloc: Global,
    sources: &[Source],
    db: &[u8],
) -> Result<Option<TableName>, NoMemory>
    ensures { IfOk result (λ table. table ≡ find is_system (map (λ source. full_name db.now source.table) sources.now)) }
{
    for source in sources {
        let db = database_of(&source.table, db);
        if is_system(db) {
            let name = source.table.name.copy(alloc)?;
            let db = Text::of(alloc, db)?;
            return Ok(Some(TableName { db, name }));
        }
    }
    Ok(None)
}

/// The database of a table: the one that the text names, or else the current one.
fn database_of<'a>(table: &'a TableRef, db: &'a [u8]) -> &'a [u8]
    ensures { result.now ≡ (full_name db.now table.now).db }
{
    match &table.db {
        Some(named) => named.bytes(),
        None => db,
    }
}

/// Whether a database is the server's own, in any case.
fn is_system(db: &[u8]) -> bool
    ensures { result ≡ list_any (same_word db.now) system_databases }
{
    is_one_of(db, &SYSTEM_DATABASES)
}
