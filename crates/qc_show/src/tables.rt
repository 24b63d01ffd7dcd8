//! Names of tables.

use crate::fault::Fault;
use crate::plain::{Within, put_plain};
use qc_types::TableName;
use std::io::Write;

/// Puts the name of a table: its database and its own name, with a dot between them.
pub fn put_table<W: Write>(out: &mut W, within: Within, table: &TableName) -> Result<(), Fault> {
    put_plain(out, within, table.db.bytes())?;
    out.write_all(b".")?;
    put_plain(out, within, table.name.bytes())
}

/// Puts names of tables, with a comma and a space between two.
pub fn put_tables<W: Write>(
    out: &mut W,
    within: Within,
    tables: &[TableName],
) -> Result<(), Fault> {
    for (index, table) in tables.iter().enumerate() {
        if index != 0 {
            out.write_all(b", ")?;
        }
        put_table(out, within, table)?;
    }
    Ok(())
}
