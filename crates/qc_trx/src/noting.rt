//! What operations write, as they are added.

ghost use Rattle.std.specs.Prelude.{◌≡◌, ◌+◌, ◌<◌, ◌^◌, [], IfOk, option_copied, if◌then◌else◌};
ghost use Rattle.qc_trx.specs.Writes.{columns_left, key_by, makes_table, row_left, rows_left};
ghost use Rattle.qc_sql.specs.Database.{columns_of};

use crate::writes::OwnRow;
use qc_sql::names::is_same_table;
use qc_sql::tables::{Columns, RowOp, StoredRow};
use qc_table::{Database, key_of_row};
use qc_types::{Duplicate, NoMemory, TableName};
use std::alloc::Global;

/// The row that each of the operations writes, or none. They are carried out one after another on this database.
/// Linear in the operations, and for each row that is put in those before it up to the last one that makes a table.
pub(crate) fn rows_of(
    alloc: Global,
    seen: &Database,
    ops: &[RowOp],
) -> Result<Vec<Option<OwnRow>>, NoMemory>
    ensures { IfOk result (λ rows. rows.items ≡ rows_left [] ops.now seen.now) }
{
    let mut rows = Vec::new(alloc);
    // The prefix up to the last operation that makes a table: only these change a table's columns.
    let mut making = 0;
    for i in 0..ops.len() {
        let op = &ops[i];
        rows.push(row_of(alloc, seen, &ops[..making], op)?)?;
        making = making_after(making, i, op);
    }
    Ok(rows)
}

/// The length of the prefix that has to be known behind this operation, where it is this long before it.
fn making_after(making: usize, i: usize, op: &RowOp) -> usize
    requires { i < 2 ^ 63 }
    ensures { result ≡ (if makes_table op.now then i + 1 else making) }
{
    if makes_table(op) { i + 1 } else { making }
}

fn makes_table(op: &RowOp) -> bool
    ensures { result ≡ makes_table op.now }
{
    matches!(op, RowOp::CreateTable(_, _))
}

/// The row that an operation writes, where these have changed the database.
fn row_of(
    alloc: Global,
    seen: &Database,
    making: &[RowOp],
    op: &RowOp,
) -> Result<Option<OwnRow>, NoMemory>
    ensures { IfOk result (λ row. row ≡ row_left making.now op.now seen.now) }
{
    match op {
        RowOp::Put(table, row) => Ok(Some(OwnRow {
            key: key_in(columns_left(seen, making, table), row),
            table: table.duplicate(alloc)?,
        })),
        RowOp::Del(table, key) => Ok(Some(OwnRow {
            key: *key,
            table: table.duplicate(alloc)?,
        })),
        _ => Ok(None),
    }
}

/// The columns of a table, where these operations have changed the database and it is there.
fn columns_left<'a>(
    seen: &'a Database,
    making: &'a [RowOp],
    table: &TableName,
) -> Option<&'a Columns>
    ensures { option_copied result ≡ columns_left table.now making.now (columns_of table.now seen.now) }
{
    let mut columns = columns_of(seen, table);
    for op in making {
        if let RowOp::CreateTable(made, made_columns) = op
            && is_same_table(table, made)
        {
            columns = Some(made_columns);
        }
    }
    columns
}

/// The columns of a table that is there.
pub(crate) fn columns_of<'a>(database: &'a Database, table: &TableName) -> Option<&'a Columns>
    ensures { option_copied result ≡ columns_of table.now database.now }
{
    Some(database.table(table)?.columns())
}

/// The key of a row, by the columns of its table, and 0 where that isn't there.
pub(crate) fn key_in(columns: Option<&Columns>, row: &StoredRow) -> i64
    ensures { result ≡ key_by (option_copied columns.entry) row.now }
{
    match columns {
        None => 0,
        Some(columns) => key_of_row(columns, row),
    }
}
