//! Which event took an entry out before its fill ended.

ghost use Rattle.std.specs.Prelude.{◌≡◌, ◌<◌, ◌≤◌, ℕ, true, length, IsSomeAnd};
ghost use Rattle.std.specs.Option.{option_copied};
ghost use Rattle.qc_model.specs.Journal.{event_at};
ghost use Rattle.qc_laws.specs.history.Runs.{IsStarted};
ghost use Rattle.qc_core.specs.OvertakenFill as meant;
ghost use Rattle.qc_core.specs.OvertakenFill.{IsStartedAt, IsFirstOvertaking, IsOvertaken, WasOvertaken};

use qc_journal::{Journal, any_touches};
use qc_model::events::{Event, How};
use qc_sql::tables::RowOp;
use qc_types::TableName;

/// The number of the first commit on one of an entry's tables, or reset, after its start. Costs the events since the start.
pub(crate) fn overtaken(journal: &Journal, serial: u64) -> u64
    requires { WasOvertaken journal.now.events serial }
    ensures { IsOvertaken journal.now.events serial result }
{
    let start = start_of(journal, serial);
    let Some(tables) = started_tables(journal.event(start)) else {
        unreachable!()
    };
    first_overtaking(journal, tables, start)
}

/// The tables of an entry that an event starts, if it starts one.
fn started_tables(event: &Event) -> Option<&[TableName]>
    ensures { option_copied result ≡ meant.started_tables event.now }
{
    match event {
        Event::Run {
            how: How::Start { tables, .. },
            ..
        } => Some(tables.items()),
        _ => None,
    }
}

/// The number of the start of an entry.
fn start_of(journal: &Journal, serial: u64) -> u64
    requires { IsStarted journal.now.events serial }
    ensures { IsStartedAt journal.now.events serial result }
{
    let count = journal.len();
    for back in 0..count {
        if is_start_of(journal.event(count - back), serial) {
            return count - back;
        }
    }
    unreachable!()
}

/// Whether an event is the start of an entry.
fn is_start_of(event: &Event, serial: u64) -> bool
    ensures { result ≡ meant.is_start_of serial event.now }
{
    match event {
        Event::Run {
            how: How::Start { serial: found, .. },
            ..
        } => *found == serial,
        _ => false,
    }
}

/// The number of the first event after a place that overtakes an entry on these tables.
fn first_overtaking(journal: &Journal, tables: &[TableName], after: u64) -> u64
    requires { (by : ℕ) × (after < by) × IsSomeAnd (event_at journal.now.events by) (λ e. meant.overtakes tables.now e ≡ true) }
    ensures { IsFirstOvertaking journal.now.events tables.now after result }
{
    let count = journal.len();
    for number in after..count {
        if overtakes(journal.event(number + 1), tables) {
            return number + 1;
        }
    }
    unreachable!()
}

/// Whether an event is a commit on one of these tables, or a reset.
fn overtakes(event: &Event, tables: &[TableName]) -> bool
    ensures { result ≡ meant.overtakes tables.now event.now }
{
    match event {
        Event::Reset { .. } => true,
        Event::Commit { ops, .. } => any_touched(tables, ops.items()),
        _ => false,
    }
}

/// Whether one of these tables is touched by one of these operations.
fn any_touched(tables: &[TableName], ops: &[RowOp]) -> bool
    ensures { result ≡ meant.any_touched tables.now ops.now }
{
    for table in tables {
        if any_touches(table, ops) {
            return true;
        }
    }
    false
}
