//! Whether a commit has changed what a transaction writes.

ghost use Rattle.std.specs.Prelude.{◌≡◌, [], Some, IfOk, option_map, option_copied};
ghost use Rattle.std.specs.List.{list_any};
ghost use Rattle.qc_sql.specs.Database as database;
ghost use Rattle.qc_model.specs.Journal.{operations};
ghost use Rattle.qc_model.specs.Conflicts as conflicts;
ghost use Rattle.qc_model.specs.Conflicts.{first_met, written_by};
ghost use Rattle.qc_trx.specs.Writes as writes;
ghost use Rattle.qc_trx.specs.Writes.{by_commit, first_own, is_met, row_there, rows_written, told, written_on};
ghost use Rattle.qc_trx.specs.Endings.{meant, IsOriginIn};

use crate::noting::{columns_of, key_in};
use crate::writes::{OwnRow, Writes};
use qc_journal::Journal;
use qc_model::events::Event;
use qc_sql::names::is_same_table;
use qc_sql::tables::RowOp;
use qc_table::Database;
use qc_types::{Duplicate, NoMemory, TableName};
use std::alloc::Global;

/// A commit of another session, behind the snapshot of a transaction, that changed what the transaction changes too.
#[derive(Debug, Drop)]
pub struct Conflict {
    /// The table of the first own operation that the commit meets.
    pub table: TableName,
    /// The key of the row that this operation writes. `None` where the commit made or dropped the table, or dropped its database.
    pub key: Option<i64>,
    /// The commit's number in the journal. It is the first of its kind.
    pub by: u64,
}

/// The first commit above the place of a snapshot that meets one of these rows, and the first row that it meets. The database is that at the
/// snapshot. Costs the logarithm of how many rows there are for each operation of a commit above the place, and nothing for the events below.
pub(crate) fn first_conflict(
    alloc: Global,
    place: u64,
    origin: &Database,
    writes: &Writes,
    journal: &Journal,
) -> Result<Option<Conflict>, NoMemory>
    requires { IsOriginIn journal.now.events place (Some origin.now) }
    ensures { IfOk result (λ c. option_map meant c ≡ conflicts.conflict_above place (rows_written writes.now) 1 [] journal.now.events) }
{
    for passed in place..journal.len() {
        let event = journal.event(passed + 1);
        if let Some(conflict) = conflict_with(alloc, origin, writes, event, passed + 1)? {
            return Ok(Some(conflict));
        }
    }
    Ok(None)
}

/// The conflict with an event, where it is a commit that meets one of the rows.
fn conflict_with(
    alloc: Global,
    origin: &Database,
    writes: &Writes,
    event: &Event,
    number: u64,
) -> Result<Option<Conflict>, NoMemory>
    ensures { IfOk result (λ c. option_map meant c ≡ by_commit number (first_met (rows_written writes.now) (written_on (operations event.now) origin.now))) }
{
    match event {
        Event::Commit { who: _, ops } => {
            conflict_with_commit(alloc, origin, writes, ops.items(), number)
        }
        _ => Ok(None),
    }
}

fn conflict_with_commit(
    alloc: Global,
    origin: &Database,
    writes: &Writes,
    ops: &[RowOp],
    number: u64,
) -> Result<Option<Conflict>, NoMemory>
    ensures { IfOk result (λ c. option_map meant c ≡ by_commit number (first_met (rows_written writes.now) (written_on ops.now origin.now))) }
{
    match first_met_row(alloc, origin, writes, ops)? {
        None => Ok(None),
        Some(row) => Ok(Some(conflict_at(alloc, row, ops, number)?)),
    }
}

/// The conflict with a commit of these operations that meets the row.
fn conflict_at(
    alloc: Global,
    row: &OwnRow,
    ops: &[RowOp],
    number: u64,
) -> Result<Conflict, NoMemory>
    ensures { IfOk result (λ c. (d : database.Database) → Some (meant c) ≡ by_commit number (Some (told (written_on ops.now d) row.now))) }
{
    Ok(Conflict {
        table: row.table.duplicate(alloc)?,
        key: key_told(row, ops),
        by: number,
    })
}

/// The key of a row, unless these operations change the form of its table.
fn key_told(row: &OwnRow, ops: &[RowOp]) -> Option<i64>
    ensures { (d : database.Database) → result ≡ (told (written_on ops.now d) row.now).1 }
{
    if change_form(&row.table, ops) {
        None
    } else {
        Some(row.key)
    }
}

/// The first of the rows that one of the operations meets, with the keys that rows have by the columns of this database.
fn first_met_row<'a>(
    alloc: Global,
    origin: &Database,
    writes: &'a Writes,
    ops: &[RowOp],
) -> Result<Option<&'a OwnRow>, NoMemory>
    ensures { IfOk result (λ row. option_copied row ≡ row_there (is_met (written_on ops.now origin.now)) writes.now) }
{
    match first_met(alloc, origin, writes, ops)? {
        None => Ok(None),
        Some(number) => Ok(writes.row(number)),
    }
}

/// The number of that row.
fn first_met(
    alloc: Global,
    origin: &Database,
    writes: &Writes,
    ops: &[RowOp],
) -> Result<Option<usize>, NoMemory>
    ensures { IfOk result (λ first. first ≡ first_own (is_met (written_on ops.now origin.now)) writes.now) }
{
    let mut first = None;
    for op in ops {
        first = least(first, first_met_by(alloc, origin, writes, op)?);
    }
    Ok(first)
}

/// The lesser of two numbers that may be there.
fn least(one: Option<usize>, other: Option<usize>) -> Option<usize>
    ensures { result ≡ writes.least one other }
{
    match (one, other) {
        (None, other) => other,
        (Some(one), None) => Some(one),
        (Some(one), Some(other)) => { if other < one { Some(other) } else { Some(one) } }
    }
}

/// The number of the first row that an operation meets.
fn first_met_by(
    alloc: Global,
    origin: &Database,
    writes: &Writes,
    op: &RowOp,
) -> Result<Option<usize>, NoMemory>
    ensures { IfOk result (λ first. first ≡ first_own (is_met (written_by op.now origin.now)) writes.now) }
{
    match op {
        RowOp::Put(table, row) => {
            let key = key_in(columns_of(origin, table), row);
            Ok(writes.first_of_row(alloc, table, key)?)
        }
        RowOp::Del(table, key) => Ok(writes.first_of_row(alloc, table, *key)?),
        RowOp::CreateTable(table, _) => Ok(writes.first_of_table(alloc, table)?),
        RowOp::DropTable(table) => Ok(writes.first_of_table(alloc, table)?),
        RowOp::CreateDb(_) => Ok(None),
        RowOp::DropDb(name) => Ok(writes.first_of_database(alloc, name.bytes())?),
    }
}

/// Whether one of the operations makes or drops the table, or drops its database.
fn change_form(table: &TableName, ops: &[RowOp]) -> bool
    ensures { (d : database.Database) → result ≡ list_any (conflicts.changes_form table.now) (written_on ops.now d) }
{
    for op in ops {
        if changes_form(table, op) {
            return true;
        }
    }
    false
}

fn changes_form(table: &TableName, op: &RowOp) -> bool
    ensures { (d : database.Database) → result ≡ list_any (conflicts.changes_form table.now) (written_by op.now d) }
{
    match op {
        RowOp::Put(_, _) => false,
        RowOp::Del(_, _) => false,
        RowOp::CreateTable(other, _) => is_same_table(table, other),
        RowOp::DropTable(other) => is_same_table(table, other),
        RowOp::CreateDb(_) => false,
        RowOp::DropDb(name) => table.db.bytes() == name.bytes(),
    }
}
