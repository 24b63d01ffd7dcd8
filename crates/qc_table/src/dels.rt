//! Rows that operations take out of one table.

ghost use Rattle.std.specs.Prelude.{◌≡◌, ◌<◌, length, IfSome};
ghost use Rattle.std.specs.List.{list_all};
ghost use Rattle.qc_table.specs.Dels.{is_taken_from, key_at, AreDels};

use qc_sql::tables::RowOp;
use qc_types::TableName;
use std::marker::Model;

/// Operations each of which takes a row out of the same table. Contracts see the table and the keys of the rows, the first of them first.
#[derive(Drop)]
pub(crate) struct Dels<'a> {
    table: &'a TableName,
    ops: &'a [RowOp],
}

impl<'a> Model for Dels<'a> {
    ghost use Rattle.std.specs.Prelude.{◌≡◌, map, true};
    ghost use Rattle.std.specs.List.{list_all};
    ghost use Rattle.qc_table.specs.Dels.{is_taken_from, key_taken, DelRows};

    ghost Value = { DelRows };

    ghost view = { λ p. record { table = p.table.now; keys = map key_taken p.ops.now } };

    ghost invariant = { λ p. list_all (is_taken_from p.table.now) p.ops.now ≡ true };
}

impl<'a> Dels<'a> {
    /// The operations, where there is one and all take a row out of the same table. Linear in their number.
    pub(crate) fn of(ops: &'a [RowOp]) -> Option<Dels<'a>>
        ensures { IfSome result (λ p. AreDels p ops.now) }
    {
        let table = first_table(ops)?;
        if !all_taken_from(table, ops) {
            return None;
        }
        Some(Dels { table, ops })
    }

    /// The table.
    pub(crate) fn table(&self) -> &'a TableName
        ensures { result.now ≡ self.now.table }
    {
        self.table
    }

    /// How many rows there are.
    pub(crate) fn len(&self) -> usize
        ensures { result ≡ length self.now.keys }
    {
        self.ops.len()
    }

    /// The key at an index.
    pub(crate) fn key(&self, index: usize) -> i64
        requires { index < length self.now.keys }
        ensures { result ≡ key_at self.now.keys index }
    {
        let ops = self.ops;
        match &ops[index] {
            RowOp::Del(_, key) => *key,
            _ => unreachable!(),
        }
    }
}

/// The table that the first operation takes a row out of.
fn first_table(ops: &[RowOp]) -> Option<&TableName>
    ensures { IfSome result (λ _. 0 < length ops.now) }
{
    match ops {
        [RowOp::Del(table, _), ..] => Some(table),
        _ => None,
    }
}

/// Whether each operation takes a row out of a table.
fn all_taken_from(table: &TableName, ops: &[RowOp]) -> bool
    ensures { result ≡ list_all (is_taken_from table.now) ops.now }
{
    ops.iter().all(|op| takes_from(table, op))
}

/// Whether an operation takes a row out of a table.
fn takes_from(table: &TableName, op: &RowOp) -> bool
    ensures { result ≡ is_taken_from table.now op.now }
{
    match op {
        RowOp::Del(other, _) => {
            table.db.bytes() == other.db.bytes() && table.name.bytes() == other.name.bytes()
        }
        _ => false,
    }
}
