//! Keys of rows, and copies of columns.

ghost use Rattle.std.specs.Prelude.{◌≡◌, ◌<◌, length, IfOk};
ghost use Rattle.qc_sql.specs.Database.{key_of, key_value};
ghost use Rattle.qc_table.specs.Views.{value_at};

use qc_sql::tables::{Column, Columns, StoredRow};
use qc_types::{NoMemory, Value};
use std::alloc::Global;

/// The number that a value is, and 0 where it is none.
fn number(value: &Value) -> i64
    ensures { result ≡ key_value value.now }
{
    match value {
        Value::Int(n) => *n,
        Value::Null | Value::Str(_) => 0,
    }
}

/// The number of a row in its table's primary column. Linear in the number of columns.
pub fn key_of_row(columns: &Columns, row: &StoredRow) -> i64
    ensures { result ≡ key_of columns.now row.now }
{
    let values = row.items();
    for (i, column) in columns.items().iter().enumerate() {
        if column.primary {
            return values.get(i).map_or(0, number);
        }
    }
    0
}

/// The value of a row in a column.
pub(crate) fn value_of_row(row: &StoredRow, column: usize) -> &Value
    requires { column < length row.now }
    ensures { result.now ≡ value_at row.now column }
{
    &row.items()[column]
}

fn copy_of_column(alloc: Global, column: &Column) -> Result<Column, NoMemory>
    ensures { IfOk result (λ c. c ≡ column.now) }
{
    Ok(Column {
        name: column.name.copy(alloc)?,
        kind: column.kind,
        not_null: column.not_null,
        primary: column.primary,
    })
}

/// The same columns, in memory of their own. Linear in what they hold.
pub fn copy_of_columns(alloc: Global, columns: &Columns) -> Result<Columns, NoMemory>
    ensures { IfOk result (λ c. c ≡ columns.now) }
{
    let mut copies = Columns::new(alloc);
    for column in columns.items() {
        copies.push(copy_of_column(alloc, column)?)?;
    }
    Ok(copies)
}
