//! Rows as they are stored.

ghost use Rattle.std.specs.Prelude.{◌≡◌, ◌<◌, ◌≤◌, length, option_copied, Some, IfOk};
ghost use Rattle.std.specs.Ordering.{is_eq};
ghost use Rattle.qc_sql.specs.Effects as meant;
ghost use Rattle.qc_sql.specs.Rows.{value_cmp};
ghost use Rattle.qc_eval.specs.Entries.{entry_at};
ghost use Rattle.qc_table.specs.Views.{int_value, kind_at, text_value, value_at};

use qc_sql::tables::{Column, Kind, StoredRow};
use qc_table::{RowView, TableVersion};
use qc_types::{NoMemory, Steps, Text, Value};
use std::alloc::Global;
use std::sync::ledger::Ledger;

/// The values of the row with this index, in memory of their own. Counts one step. Linear in what they hold.
pub(crate) fn stored_row<L: Ledger>(
    alloc: Global,
    version: &TableVersion,
    row: u32,
    steps: &mut Steps<L>,
) -> Result<StoredRow, NoMemory>
    requires { row < length version.now.rows }
    ensures values { IfOk result (λ r. r ≡ (entry_at version.now.rows row).1) }
    ensures full { IfOk result (λ r. length r ≡ length version.now.columns) }
{
    let columns = version.columns();
    let view = version.row(row, steps);
    values_of(alloc, &view, columns.items())
}

fn values_of(alloc: Global, view: &RowView<'_>, columns: &[Column]) -> Result<StoredRow, NoMemory>
    requires same { view.now.columns ≡ columns.now }
    requires full { length view.now.values ≡ length columns.now }
    requires few { length columns.now ≤ 64 }
    ensures { IfOk result (λ r. r ≡ view.now.values) }
{
    let mut values = StoredRow::new(alloc);
    for (index, column) in columns.iter().enumerate() {
        values.push(value_of(alloc, view, index as u8, column.kind)?)?;
    }
    Ok(values)
}

/// The value in the column at this index, which is of this kind.
fn value_of(alloc: Global, view: &RowView<'_>, column: u8, kind: Kind) -> Result<Value, NoMemory>
    requires { kind_at view.now.columns column ≡ Some kind }
    ensures { IfOk result (λ v. v ≡ value_at view.now.values column) }
{
    match kind {
        Kind::Int => Ok(number_value(view.int(column))),
        Kind::Str(_) => bytes_value(alloc, view.text(column)),
    }
}

fn number_value(number: Option<i64>) -> Value
    ensures { result ≡ int_value number }
{
    match number {
        Some(number) => Value::Int(number),
        None => Value::Null,
    }
}

fn bytes_value(alloc: Global, bytes: Option<&[u8]>) -> Result<Value, NoMemory>
    ensures { IfOk result (λ v. v ≡ text_value (option_copied bytes.entry)) }
{
    match bytes {
        Some(bytes) => Ok(Value::Str(Text::of(alloc, bytes)?)),
        None => Ok(Value::Null),
    }
}

/// Whether two rows of as many values hold the same.
pub(crate) fn same_values(old: &[Value], new: &[Value]) -> bool
    requires { length new.now ≡ length old.now }
    ensures { result ≡ meant.same_values old.now new.now }
{
    for (index, value) in old.iter().enumerate() {
        if !is_same(value, &new[index]) {
            return false;
        }
    }
    true
}

fn is_same(a: &Value, b: &Value) -> bool
    ensures { result ≡ is_eq (value_cmp a.now b.now) }
{
    match (a, b) {
        (Value::Null, Value::Null) => true,
        (Value::Int(a), Value::Int(b)) => a.cmp(b).is_eq(),
        (Value::Str(a), Value::Str(b)) => a.bytes().cmp(b.bytes()).is_eq(),
        _ => false,
    }
}
