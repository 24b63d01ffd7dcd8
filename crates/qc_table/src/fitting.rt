//! Whether an operation fits a database.

ghost use Rattle.std.specs.Prelude.{◌≡◌, ◌==◌, bytes_eq, count_by, option_copied};
ghost use Rattle.std.specs.List.{list_any};
ghost use Rattle.qc_types.specs.declared.names.Value.TheVariants as value;
ghost use Rattle.qc_model.specs.Licence as licence;

use crate::database::Database;
use crate::table_version::TableVersion;
use qc_sql::tables::{Column, Kind, RowOp};
use qc_types::{Steps, Value};
use std::sync::ledger::Ledger;

const MOST_COLUMNS: usize = 64;

impl Database {
    /// Whether an operation may be carried out: what it changes is there, what it makes isn't there yet, and its row or its columns fit. Costs the logarithm
    /// of what is there, and what the row or the columns hold; of columns, also the square of their number. Counts a step where it looks for a row.
    pub fn fits<L: Ledger>(&self, op: &RowOp, steps: &mut Steps<L>) -> bool
        ensures { result ≡ licence.op_fits op.now self.now }
    {
        match op {
            RowOp::Put(table, row) => takes_row(self.table(table), row.items()),
            RowOp::Del(table, key) => has_row(self.table(table), *key, steps),
            RowOp::CreateTable(table, columns) => {
                self.has_db(table.db.bytes())
                    && self.table(table).is_none()
                    && columns_fit(columns.items())
            }
            RowOp::DropTable(table) => self.table(table).is_some(),
            RowOp::CreateDb(name) => !self.has_db(name.bytes()),
            RowOp::DropDb(name) => self.has_db(name.bytes()),
        }
    }
}

fn has_row<L: Ledger>(table: Option<&TableVersion>, key: i64, steps: &mut Steps<L>) -> bool
    ensures { result ≡ licence.has_row (option_copied table.entry) key }
{
    match table {
        None => false,
        Some(table) => table.find(key, steps).is_some(),
    }
}

fn takes_row(table: Option<&TableVersion>, row: &[Value]) -> bool
    ensures { result ≡ licence.takes_row (option_copied table.entry) row.now }
{
    match table {
        None => false,
        Some(table) => row_fits(table.columns().items(), row),
    }
}

fn row_fits(columns: &[Column], row: &[Value]) -> bool
    ensures { result ≡ licence.row_fits columns.now row.now }
{
    let [column, columns @ ..] = columns else {
        return row.is_empty();
    };
    let [value, row @ ..] = row else {
        return false;
    };
    value_fits(column, value) && row_fits(columns, row)
}

fn value_fits(column: &Column, value: &Value) -> bool
    ensures { result ≡ licence.value_fits column.now value.now }
{
    match value {
        Value::Null => !(column.not_null || column.primary),
        Value::Int(_) => column.kind == Kind::Int,
        Value::Str(text) => is_of_text(column.kind, text.bytes()),
    }
}

fn is_of_text(kind: Kind, text: &[u8]) -> bool
    ensures { result ≡ licence.kind_fits kind (value.Str text.now) }
{
    match kind {
        Kind::Int => false,
        Kind::Str(most) => text.len() <= usize::from(most),
    }
}

fn columns_fit(columns: &[Column]) -> bool
    ensures { result ≡ licence.columns_fit columns.now }
{
    columns.len() <= MOST_COLUMNS
        && differ_in_name(columns)
        && has_one_key(columns)
        && has_number_key(columns)
}

fn differ_in_name(columns: &[Column]) -> bool
    ensures { result ≡ licence.differ_in_name columns.now }
{
    match columns {
        [] => true,
        [column, others @ ..] => {
            !has_name(others, column.name.bytes()) && differ_in_name(others)
        }
    }
}

fn has_name(columns: &[Column], name: &[u8]) -> bool
    ensures { result ≡ list_any (λ other. bytes_eq other.name name.now) columns.now }
{
    columns.iter().any(|column| column.name.bytes() == name)
}

fn has_one_key(columns: &[Column]) -> bool
    ensures { result ≡ (count_by (λ c. c.primary) columns.now == 1) }
{
    columns.iter().filter(|column| column.primary).count() == 1
}

fn has_number_key(columns: &[Column]) -> bool
    ensures { result ≡ list_any licence.is_number_key columns.now }
{
    columns.iter().any(|column| is_number_key(column))
}

fn is_number_key(column: &Column) -> bool
    ensures { result ≡ licence.is_number_key column.now }
{
    column.primary && column.kind == Kind::Int
}
