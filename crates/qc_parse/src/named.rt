//! The tables that a SELECT names.

ghost use Rattle.std.specs.Prelude.{◌≡◌, IfOk, OnOk};
ghost use Rattle.qc_sql.specs.Rules.{select_tables};
ghost use Rattle.qc_parse.specs.Once.{with_table};

use qc_sql::names::{full_name, has_table};
use qc_sql::statements::Select;
use qc_types::{NoMemory, TableName, Tables};
use std::alloc::Global;

/// The tables that a select names, in the order of FROM, each once, with `db` as the database of a name that has none.
/// A name is compared with those before it, of which a text has at most seven. The only error is want of memory.
pub fn tables(alloc: Global, select: &Select, db: &[u8]) -> Result<Tables, NoMemory>
    ensures { IfOk result (λ tables. tables ≡ select_tables db.now select.now) }
{
    let mut tables = Tables::new(alloc);
    for source in select.from.items() {
        let table = full_name(alloc, db, &source.table)?;
        add(&mut tables, table)?;
    }
    Ok(tables)
}

/// Puts a table at the end where it isn't there yet.
fn add(tables: &mut Tables, table: TableName) -> Result<(), NoMemory>
    ensures { OnOk result (tables.new ≡ with_table tables.old table) }
{
    if has_table(tables.items(), &table) {
        return Ok(());
    }
    tables.push(table)
}
