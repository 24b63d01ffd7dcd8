//! Rows that go, by their keys.

ghost use Rattle.std.specs.Prelude.{◌≡◌, ◌<◌, length, map, true, IfOk};
ghost use Rattle.std.specs.List.{AllByRecursion};
ghost use Rattle.qc_model.specs.Licence.{columns_fit};
ghost use Rattle.qc_eval.specs.Entries.{entry_at};
ghost use Rattle.qc_write.specs.Removing.{IsKeyColumn, del_of};

use crate::target::Target;
use qc_sql::tables::{Column, Ops, RowOp};
use qc_table::TableVersion;
use qc_types::{Duplicate, NoMemory, Steps};
use std::alloc::Global;
use std::sync::ledger::Ledger;

/// A Del of each of these rows.
pub(crate) fn del_rows<L: Ledger>(
    alloc: Global,
    target: &Target<'_>,
    rows: &[u32],
    steps: &mut Steps<L>,
) -> Result<Ops, NoMemory>
    requires { AllByRecursion (λ i. i < length target.now.version.now.rows) rows.now }
    ensures { IfOk result (λ ops. ops ≡ map (λ i. del_of target.now.name (entry_at target.now.version.now.rows i)) rows.now) }
{
    let mut ops = Ops::new(alloc);
    let column = key_column(target.version.columns().items());
    for row in rows {
        let key = key_at(target.version, *row, column, steps);
        ops.push(RowOp::Del(target.name.duplicate(alloc)?, key))?;
    }
    Ok(ops)
}

/// The index of the primary column, from 0.
fn key_column(columns: &[Column]) -> u8
    requires { columns_fit columns.now ≡ true }
    ensures { IsKeyColumn columns.now result }
{
    for (index, column) in columns.iter().enumerate() {
        if column.primary {
            return index as u8;
        }
    }
    unreachable!()
}

/// The key of the row with this index, of a table whose primary column has that one.
fn key_at<L: Ledger>(version: &TableVersion, row: u32, column: u8, steps: &mut Steps<L>) -> i64
    requires row { row < length version.now.rows }
    requires key { IsKeyColumn version.now.columns column }
    ensures { result ≡ (entry_at version.now.rows row).0 }
{
    let _columns = version.columns();
    version.row(row, steps).int(column).unwrap_or(0)
}
