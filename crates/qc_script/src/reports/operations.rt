//! Operations on the database, as the commits of a report have them.

ghost use Rattle.std.specs.Prelude.{◌≡◌, ◌++◌, map, OnOk};
ghost use Rattle.std.specs.List.{All};
ghost use Rattle.qc_model.specs.ReportText.{op_text, listed, table_text};
ghost use Rattle.qc_script.specs.ShortNames.{MakesShortColumns};

use crate::reports::fields::{put_hex, put_signed, put_table};
use crate::reports::payloads::{columns_bytes, row_bytes};
use qc_sql::tables::RowOp;
use qc_types::{NoMemory, TableName, Text};
use std::alloc::Global;

/// Puts the operations of a commit, with a comma between two.
#[tactic(auto, using(crate::proofs::Joined::joined))]
pub fn put_operations(alloc: Global, ops: &[RowOp], out: &mut Text) -> Result<(), NoMemory>
    requires { All MakesShortColumns ops.now }
    ensures { OnOk result (out.new ≡ out.old ++ listed (map op_text ops.now)) }
{
    if let Some((first, others)) = ops.split_first() {
        put_operation(alloc, first, out)?;
        for op in others {
            out.extend(b",")?;
            put_operation(alloc, op, out)?;
        }
    }
    Ok(())
}

fn put_operation(alloc: Global, op: &RowOp, out: &mut Text) -> Result<(), NoMemory>
    requires { MakesShortColumns op.now }
    ensures { OnOk result (out.new ≡ out.old ++ op_text op.now) }
{
    match op {
        RowOp::Put(table, row) => {
            put_target(alloc, b"put:", table, out)?;
            out.extend(b":")?;
            put_hex(alloc, row_bytes(alloc, row.items())?.bytes(), out)
        }
        RowOp::Del(table, key) => {
            put_target(alloc, b"del:", table, out)?;
            out.extend(b":")?;
            put_signed(alloc, *key, out)
        }
        RowOp::CreateTable(table, columns) => {
            put_target(alloc, b"create:", table, out)?;
            out.extend(b":")?;
            put_hex(alloc, columns_bytes(alloc, columns.items())?.bytes(), out)
        }
        RowOp::DropTable(table) => put_target(alloc, b"drop:", table, out),
        RowOp::CreateDb(name) => {
            out.extend(b"createdb:")?;
            put_hex(alloc, name.bytes(), out)
        }
        RowOp::DropDb(name) => {
            out.extend(b"dropdb:")?;
            put_hex(alloc, name.bytes(), out)
        }
    }
}

// The word of an operation, and its table.
fn put_target(alloc: Global, word: &[u8], table: &TableName, out: &mut Text) -> Result<(), NoMemory>
    ensures { OnOk result (out.new ≡ out.old ++ word.now ++ table_text table.now) }
{
    out.extend(word)?;
    put_table(alloc, table, out)
}
