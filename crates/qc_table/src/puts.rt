//! Rows that operations put into one table.

ghost use Rattle.std.specs.Prelude.{◌≡◌, ◌<◌, length, sum_by, IfOk, IfSome};
ghost use Rattle.std.specs.List.{list_all};
ghost use Rattle.qc_table.specs.Columns.{text_length};
ghost use Rattle.qc_table.specs.Puts.{is_put_into, put_at, values_at, ArePuts, AreWide};
ghost use Rattle.qc_table.specs.Views.{value_at};

use crate::keys::value_of_row;
use qc_sql::tables::{RowOp, StoredRow};
use qc_types::{NoMemory, TableName, Value};
use std::marker::Model;

/// Operations each of which puts a row into the same table. Contracts see the table and the rows, the first of them first.
#[derive(Drop)]
pub(crate) struct Puts<'a> {
    table: &'a TableName,
    ops: &'a [RowOp],
}

impl<'a> Model for Puts<'a> {
    ghost use Rattle.std.specs.Prelude.{◌≡◌, map, true};
    ghost use Rattle.std.specs.List.{list_all};
    ghost use Rattle.qc_table.specs.Puts.{is_put_into, row_put, PutRows};

    ghost Value = { PutRows };

    ghost view = { λ p. record { table = p.table.now; rows = map row_put p.ops.now } };

    ghost invariant = { λ p. list_all (is_put_into p.table.now) p.ops.now ≡ true };
}

impl<'a> Puts<'a> {
    /// The operations, where there is one and all put a row into the same table. Linear in their number.
    pub(crate) fn of(ops: &'a [RowOp]) -> Option<Puts<'a>>
        ensures { IfSome result (λ p. ArePuts p ops.now) }
    {
        let table = first_table(ops)?;
        if !all_put_into(table, ops) {
            return None;
        }
        Some(Puts { table, ops })
    }

    /// The table.
    pub(crate) fn table(&self) -> &'a TableName
        ensures { result.now ≡ self.now.table }
    {
        self.table
    }

    /// How many rows there are.
    pub(crate) fn len(&self) -> usize
        ensures { result ≡ length self.now.rows }
    {
        self.ops.len()
    }

    /// The row at an index.
    pub(crate) fn row(&self, index: usize) -> &'a StoredRow
        requires { index < length self.now.rows }
        ensures { result.now ≡ put_at self.now.rows index }
    {
        let ops = self.ops;
        match &ops[index] {
            RowOp::Put(_, row) => row,
            _ => unreachable!(),
        }
    }

    /// The value of the row at an index in a column.
    pub(crate) fn value(&self, index: usize, column: usize) -> &'a Value
        requires row { index < length self.now.rows }
        requires column { column < length (put_at self.now.rows index) }
        ensures { result.now ≡ value_at (put_at self.now.rows index) column }
    {
        value_of_row(self.row(index), column)
    }

    /// How many bytes the texts of the rows in a column have together. Fails where no memory holds so many. Linear in the number of rows.
    pub(crate) fn byte_count(&self, column: usize) -> Result<usize, NoMemory>
        requires { AreWide column self.now.rows }
        ensures { IfOk result (λ n. n ≡ sum_by text_length (values_at column self.now.rows)) }
    {
        let mut count: usize = 0;
        for index in 0..self.len() {
            let Some(more) = count.checked_add(byte_count(self.value(index, column))) else {
                return Err(NoMemory);
            };
            count = more;
        }
        Ok(count)
    }
}

/// The table that the first operation puts a row into.
fn first_table(ops: &[RowOp]) -> Option<&TableName>
    ensures { IfSome result (λ _. 0 < length ops.now) }
{
    match ops {
        [RowOp::Put(table, _), ..] => Some(table),
        _ => None,
    }
}

/// Whether each operation puts a row into a table.
fn all_put_into(table: &TableName, ops: &[RowOp]) -> bool
    ensures { result ≡ list_all (is_put_into table.now) ops.now }
{
    ops.iter().all(|op| puts_into(table, op))
}

/// Whether an operation puts a row into a table.
fn puts_into(table: &TableName, op: &RowOp) -> bool
    ensures { result ≡ is_put_into table.now op.now }
{
    match op {
        RowOp::Put(other, _) => {
            table.db.bytes() == other.db.bytes() && table.name.bytes() == other.name.bytes()
        }
        _ => false,
    }
}

/// How many bytes a value has, where it is a text.
fn byte_count(value: &Value) -> usize
    ensures { result ≡ text_length value.now }
{
    match value {
        Value::Str(text) => text.bytes().len(),
        Value::Null | Value::Int(_) => 0,
    }
}
