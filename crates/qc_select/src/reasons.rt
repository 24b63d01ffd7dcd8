//! Why a SELECT runs outside of the cache.

ghost use Rattle.std.specs.Prelude.{◌≡◌, Some, IfOk, find, option_map};
ghost use Rattle.std.specs.Option.{option_copied};
ghost use Rattle.qc_sql.specs.Words.{◌or_else◌};
ghost use Rattle.qc_model.specs.Choice as choice;
ghost use Rattle.qc_select.specs.Selects.{rule_by};

use qc_core::Server;
use qc_journal::Journal;
use qc_model::events::Reason;
use qc_rules::{Asked, Verdict, verdict};
use qc_sql::statements::Select;
use qc_trx::SessionState;
use qc_types::{Duplicate, NoMemory, Options, TableName};
use std::alloc::Global;

/// Whether the cache is asked.
pub(crate) fn is_asked(asked: Asked) -> bool
    ensures { result ≡ choice.is_asked asked }
{
    match asked {
        Asked::Yes => true,
        Asked::Off => false,
        Asked::No => false,
    }
}

/// Why the options, the session's cache type and the text itself keep a SELECT out of the cache.
fn rule_reason(
    alloc: Global,
    options: Options,
    asked: Asked,
    select: &Select,
    state: &SessionState,
) -> Result<Option<Reason>, NoMemory>
    ensures { IfOk result (λ reason. reason ≡ rule_by options state.now.state asked select.now) }
{
    if options.size == 0 || state.kind() == 0 {
        return Ok(Some(Reason::Off));
    }
    if !is_asked(asked) {
        return Ok(Some(Reason::NotAsked));
    }
    match verdict(alloc, select, state.db())? {
        Verdict::Not(why) => Ok(Some(Reason::Rule(why))),
        Verdict::Cacheable => Ok(None),
    }
}

/// The first table that the session's transaction has written.
fn first_written<'a>(tables: &'a [TableName], state: &SessionState) -> Option<&'a TableName>
    ensures { option_copied result ≡ find (choice.wrote state.now.state) tables.now }
{
    for table in tables {
        if state.wrote(table) {
            return Some(table);
        }
    }
    None
}

/// Whether a table has changed since the session's snapshot, where it has one.
fn is_stale(table: &TableName, journal: &Journal, state: &SessionState) -> bool
    ensures { result ≡ choice.is_stale state.now.state journal.now.events table.now }
{
    match state.snapshot() {
        None => false,
        Some(place) => place < journal.last_change(table),
    }
}

/// The first table that has changed since the session's snapshot.
fn first_stale<'a>(
    tables: &'a [TableName],
    journal: &Journal,
    state: &SessionState,
) -> Option<&'a TableName>
    ensures { option_copied result ≡ find (choice.is_stale state.now.state journal.now.events) tables.now }
{
    for table in tables {
        if is_stale(table, journal, state) {
            return Some(table);
        }
    }
    None
}

/// What is said of a table that has changed since the session's snapshot.
fn not_visible(
    alloc: Global,
    table: &TableName,
    journal: &Journal,
    state: &SessionState,
) -> Result<Option<Reason>, NoMemory>
    ensures { IfOk result (λ reason. reason ≡ choice.stale_reason state.now.state journal.now.events (Some table.now)) }
{
    match state.snapshot() {
        None => Ok(None),
        Some(snapshot) => Ok(Some(Reason::NotVisible {
            table: table.duplicate(alloc)?,
            changed: journal.last_change(table),
            snapshot,
        })),
    }
}

/// Why the session may not see one of these tables as it is now.
fn unseen_reason(
    alloc: Global,
    tables: &[TableName],
    journal: &Journal,
    state: &SessionState,
) -> Result<Option<Reason>, NoMemory>
    ensures { IfOk result (λ reason. reason ≡ choice.unseen_reason state.now.state journal.now.events tables.now) }
{
    if let Some(table) = first_written(tables, state) {
        return Ok(Some(Reason::Written(table.duplicate(alloc)?)));
    }
    match first_stale(tables, journal, state) {
        Some(table) => not_visible(alloc, table, journal, state),
        None => Ok(None),
    }
}

/// The first reason that keeps a SELECT out of the cache which isn't refused, but for a rival and for want of room.
pub(crate) fn own_reason(
    alloc: Global,
    server: &Server,
    select: &Select,
    tables: &[TableName],
    asked: Asked,
    state: &SessionState,
) -> Result<Option<Reason>, NoMemory>
    ensures { IfOk result (λ reason. reason ≡ (rule_by server.now.options state.now.state asked select.now or_else choice.unseen_reason state.now.state server.now.journal.events tables.now)) }
{
    if let Some(reason) = rule_reason(alloc, server.options(), asked, select, state)? {
        return Ok(Some(reason));
    }
    unseen_reason(alloc, tables, server.journal(), state)
}
