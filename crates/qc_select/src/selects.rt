//! A SELECT is decided.

ghost use Rattle.std.specs.Prelude.{◌≡◌, ℕ, ◌+◌, ◌-◌, ◌*◌, ◌^◌, ◌<◌, ◌≤◌, true, List, [], length, option_map, Some, None, Ok, Err, OnErr, IfOk, IfSome, IfNone};
ghost use Rattle.qc_sql.specs.Rules.{select_tables};
ghost use Rattle.qc_model.specs.declared.events.Event.TheVariants as event;
ghost use Rattle.qc_model.specs.declared.events.How.TheVariants as how;
ghost use Rattle.qc_model.specs.declared.events.Reason.TheVariants as reason;
ghost use Rattle.qc_model.specs.Choice as choice;
ghost use Rattle.qc_model.specs.Journal.{event_count};
ghost use Rattle.qc_chain.specs.Words.{words_of};
ghost use Rattle.qc_turn.specs.declared.task.Task.TheVariants as task;
ghost use Rattle.qc_turn.specs.declared.view.FoundWord.{FoundWord};
ghost use Rattle.qc_turn.specs.Tasks.{listed_for, own};
ghost use Rattle.qc_turn.specs.Seats.{MayRelease, SameHolder, holder, with_ranges};
ghost use Rattle.qc_core.specs.EndedStreams.{Finds};
ghost use Rattle.qc_core.specs.Whole.{tasks_of, with_event};
ghost use Rattle.qc_core.specs.Calls.{IsNext, HasSpare, HasMoreRoom, Rests};
ghost use Rattle.qc_core.specs.Connection.{is_connected};
ghost use Rattle.qc_core.specs.HitStream.{IsChainOf, hit_server};
ghost use Rattle.qc_core.specs.PlainRun.{MayRunPlain};
ghost use Rattle.qc_core.specs.KeySpelling.{IsSame};
ghost use Rattle.qc_core.specs.EntryStart.{MayBegin};
ghost use Rattle.qc_core.specs.TaskEnd.{rested};
ghost use Rattle.qc_select.specs.declared.selected.Selected.TheVariants as selected;
ghost use Rattle.qc_select.specs.Selects.{IsOfText, MayAsk, answering_asked, outside_by, given, planned, Decided, Decides, Begins};

use crate::plans::prepare;
use crate::reasons::{is_asked, own_reason};
use crate::selected::Selected;
use qc_core::{Begun, Hit, Server, Started, look, plain, reserve, rival, start};
use qc_eval::Plan;
use qc_journal::copy_of_reason;
use qc_model::events::{Reason, Who};
use qc_parse::tables;
use qc_rules::Asked;
use qc_sql::statements::Select;
use qc_trx::SessionState;
use qc_turn::Held;
use qc_types::{NoMemory, SqlError, TableName, Tables, Text};
use std::alloc::Global;

/// Decides a SELECT under the lock, as in MySQL's "How the Query Cache Operates". It is a hit exactly where the cache is asked and has a complete entry of the
/// key that the session may see. Else it runs plain with the first reason that applies: it is refused, the cache is off, it isn't asked, the text keeps the
/// SELECT out, a table was written by the session's own transaction, a table changed since its snapshot, or another session fills an entry of the key. Else an
/// entry is begun, or it runs plain for want of room. The plan, or the refusal, is that of the database which the session sees at the place of the event, and
/// is made once, before any event. Before all that the seat's own stream, which has ended, is struck off where it is listed still. Where memory lacks, that was
/// done, there may be more room in the journal, and nothing else changed; nothing is listed for the seat then. Costs what `look`, `rival`, the plan and `start`
/// cost; no stored row is read.
pub fn run_select(
    held: &mut Held<'_, Server>,
    alloc: Global,
    who: Who,
    key: Text,
    select: &Select,
    asked: Asked,
    state: &SessionState,
) -> Result<Selected, NoMemory>
    requires stands { MayRelease held.old }
    requires session { who.session ≡ (holder held.old).number - 1 }
    requires number { who.number ≡ event_count held.old.value.journal.events who.session + 1 }
    requires connected { is_connected (holder held.old).number held.old.value ≡ true }
    requires rests { Rests held.old }
    requires ranges { held.old.value.options.size ≤ 512 * held.old.ranges.room }
    requires text { (text : List ℕ) × IsOfText state.now.state key select.now asked text × (length text < 2 ^ 32) }
    requires state { MayAsk held.old.value.journal.events state.now }
    ensures stands { MayRelease held.new }
    ensures memory { OnErr result (SameHolder held.old held.new × HasMoreRoom (rested (holder held.old).number held.old.value) held.new.value × (held.new.ranges ≡ held.old.ranges)) }
    ensures rests { OnErr result (listed_for (holder held.old).number (tasks_of held.new.value) ≡ []) }
    ensures decided { IfOk result (λ x. (found : List FoundWord) × Finds held.old (with_ranges held.new held.old.ranges) found
        × Decided (holder held.old).number who key select.now asked state.now.state held.old.value held.new.value held.old.ranges held.new.ranges found x) }
    ensures decides { (text : List ℕ) → IsOfText state.now.state key select.now asked text → IfOk result (λ x. Decides who text key select.now state.now.state held.old.value held.new.value x) }
{
    reserve(held)?;
    if let Some(hit) = look_where_asked(held, who, key.bytes(), asked, state) {
        return Ok(Selected::Hit(hit));
    }
    run_unanswered(held, alloc, who, key, select, asked, state)
}

/// The hit, where the cache is asked.
fn look_where_asked(
    held: &mut Held<'_, Server>,
    who: Who,
    key: &[u8],
    asked: Asked,
    state: &SessionState,
) -> Option<Hit>
    requires stands { MayRelease held.old }
    requires next { IsNext held.old who }
    requires room { HasSpare held.old.value }
    requires ranges { held.old.value.options.size ≤ 512 * held.old.ranges.room }
    ensures stands { MayRelease held.new × SameHolder held.old held.new }
    ensures found { option_map (λ hit. hit.serial) result ≡ option_map (λ entry. entry.serial) (answering_asked held.old.value.options asked state.now.state held.old.value.journal.events key.now) }
    ensures none { IfNone result ((held.new.value ≡ held.old.value) × (held.new.ranges ≡ held.old.ranges)) }
    ensures server { IfSome result (λ hit. held.new.value ≡ hit_server who hit.serial (holder held.old).number held.old.value) }
    ensures hit { IfSome result (λ hit. (hit.place ≡ length held.new.value.journal.events) × (hit.bytes ≡ held.new.ranges.bytes)) }
    ensures ranges { IfSome result (λ hit. IsChainOf hit.serial held.new.value held.new.ranges) }
    ensures within { IfSome result (λ hit. hit.bytes ≤ 8 * words_of held.new.ranges.blocks) }
    ensures listed { IfSome result (λ hit. listed_for (holder held.old).number (tasks_of held.new.value) ≡ own (holder held.old).number (task.Stream hit.serial) held.new.ranges.blocks) }
    ensures same_room { IfSome result (λ hit. held.new.ranges.room ≡ held.old.ranges.room) }
{
    if held.value().options().size == 0 || !is_asked(asked) {
        return None;
    }
    look(held, who, key, state)
}

/// A SELECT that no entry answers.
fn run_unanswered(
    held: &mut Held<'_, Server>,
    alloc: Global,
    who: Who,
    key: Text,
    select: &Select,
    asked: Asked,
    state: &SessionState,
) -> Result<Selected, NoMemory>
    requires stands { MayRelease held.old }
    requires next { IsNext held.old who }
    requires room { HasSpare held.old.value }
    requires ranges { held.old.value.options.size ≤ 512 * held.old.ranges.room }
    requires text { (text : List ℕ) × IsOfText state.now.state key select.now asked text × (length text < 2 ^ 32) }
    requires state { MayAsk held.old.value.journal.events state.now }
    requires none { answering_asked held.old.value.options asked state.now.state held.old.value.journal.events key ≡ None }
    ensures stands { MayRelease held.new }
    ensures memory { OnErr result (SameHolder held.old held.new × HasMoreRoom held.old.value held.new.value × (held.new.ranges ≡ held.old.ranges)) }
    ensures decided { IfOk result (λ x. (found : List FoundWord) × Finds held.old (with_ranges held.new held.old.ranges) found
        × Decided (holder held.old).number who key select.now asked state.now.state held.old.value held.new.value held.old.ranges held.new.ranges found x) }
{
    match prepare(alloc, select, held.value().database(), state)? {
        Err(error) => Ok(refuse(held, who, error)),
        Ok(plan) => offer(held, alloc, who, key, select, asked, state, plan),
    }
}

/// A SELECT that is refused.
fn refuse(held: &mut Held<'_, Server>, who: Who, error: SqlError) -> Selected
    requires stands { MayRelease held.old }
    requires next { IsNext held.old who }
    requires room { HasSpare held.old.value }
    ensures stands { MayRelease held.new × SameHolder held.old held.new }
    ensures selected { result ≡ selected.Plain (reason.Error error.code) (length held.new.value.journal.events) (Err error) }
    ensures pushed { held.new.value ≡ with_event (event.Run who (how.Plain (reason.Error error.code))) held.old.value }
    ensures ranges { held.new.ranges ≡ held.old.ranges }
{
    let place = plain(held, who, Reason::Error(error.code));
    Selected::Plain {
        reason: Reason::Error(error.code),
        place,
        plan: Err(error),
    }
}

/// A SELECT that isn't refused, and that no entry answers.
fn offer(
    held: &mut Held<'_, Server>,
    alloc: Global,
    who: Who,
    key: Text,
    select: &Select,
    asked: Asked,
    state: &SessionState,
    plan: Plan,
) -> Result<Selected, NoMemory>
    requires stands { MayRelease held.old }
    requires next { IsNext held.old who }
    requires room { HasSpare held.old.value }
    requires ranges { held.old.value.options.size ≤ 512 * held.old.ranges.room }
    requires text { (text : List ℕ) × IsOfText state.now.state key select.now asked text × (length text < 2 ^ 32) }
    requires state { MayAsk held.old.value.journal.events state.now }
    requires none { answering_asked held.old.value.options asked state.now.state held.old.value.journal.events key ≡ None }
    requires plan { Ok plan ≡ planned (given state.now.state held.old.value.journal.events select.now) }
    ensures stands { MayRelease held.new }
    ensures memory { OnErr result (SameHolder held.old held.new × HasMoreRoom held.old.value held.new.value × (held.new.ranges ≡ held.old.ranges)) }
    ensures decided { IfOk result (λ x. (found : List FoundWord) × Finds held.old (with_ranges held.new held.old.ranges) found
        × Decided (holder held.old).number who key select.now asked state.now.state held.old.value held.new.value held.old.ranges held.new.ranges found x) }
{
    let tables = tables(alloc, select, state.db())?;
    let reason = outside_reason(
        held,
        alloc,
        key.bytes(),
        select,
        tables.items(),
        asked,
        state,
    )?;
    match reason {
        Some(reason) => run_plain(held, alloc, who, reason, plan),
        None => begin(held, alloc, who, key, tables, plan),
    }
}

/// The first reason that keeps a SELECT out of the cache which isn't refused, but for want of room. Nothing changes.
fn outside_reason(
    held: &mut Held<'_, Server>,
    alloc: Global,
    key: &[u8],
    select: &Select,
    tables: &[TableName],
    asked: Asked,
    state: &SessionState,
) -> Result<Option<Reason>, NoMemory>
    requires stands { MayRelease held.old }
    ensures stands { MayRelease held.new × SameHolder held.old held.new }
    ensures same { (held.new.value ≡ held.old.value) × (held.new.ranges ≡ held.old.ranges) }
    ensures reason { IfOk result (λ reason. reason ≡ outside_by held.old.value.options state.now.state asked select.now held.old.value.journal.events tables.now key.now) }
{
    let reason = own_reason(alloc, held.value(), select, tables, asked, state)?;
    match reason {
        Some(reason) => Ok(Some(reason)),
        None => Ok(rival_reason(held, key)),
    }
}

/// Another session fills an entry of the key. Nothing changes.
fn rival_reason(held: &mut Held<'_, Server>, key: &[u8]) -> Option<Reason>
    requires stands { MayRelease held.old }
    ensures same { IsSame held.old held.new }
    ensures reason { result ≡ option_map (λ entry. reason.Rival entry.serial) (choice.rival held.old.value.journal.events key.now) }
{
    match rival(held, key) {
        None => None,
        Some(serial) => Some(Reason::Rival(serial)),
    }
}

/// It runs plain, for a reason but want of room.
fn run_plain(
    held: &mut Held<'_, Server>,
    alloc: Global,
    who: Who,
    why: Reason,
    plan: Plan,
) -> Result<Selected, NoMemory>
    requires stands { MayRelease held.old }
    requires next { IsNext held.old who }
    requires room { HasSpare held.old.value }
    requires may { MayRunPlain held.old.value who why }
    ensures stands { MayRelease held.new × SameHolder held.old held.new }
    ensures memory { OnErr result (held.new.value ≡ held.old.value) }
    ensures selected { IfOk result (λ x. x ≡ selected.Plain why (length held.new.value.journal.events) (Ok plan)) }
    ensures pushed { IfOk result (λ x. held.new.value ≡ with_event (event.Run who (how.Plain why)) held.old.value) }
    ensures ranges { held.new.ranges ≡ held.old.ranges }
{
    let told = copy_of_reason(alloc, &why)?;
    let place = plain(held, who, why);
    Ok(Selected::Plain {
        reason: told,
        place,
        plan: Ok(plan),
    })
}

/// Its entry is begun, or it runs plain for want of room.
fn begin(
    held: &mut Held<'_, Server>,
    alloc: Global,
    who: Who,
    key: Text,
    tables: Tables,
    plan: Plan,
) -> Result<Selected, NoMemory>
    requires stands { MayRelease held.old }
    requires next { IsNext held.old who }
    requires may { MayBegin key tables held.old.value }
    requires ranges { held.old.value.options.size ≤ 512 * held.old.ranges.room }
    ensures stands { MayRelease held.new }
    ensures memory { OnErr result (SameHolder held.old held.new × HasMoreRoom held.old.value held.new.value × (held.new.ranges ≡ held.old.ranges)) }
    ensures begun { IfOk result (λ x. (found : List FoundWord) × Finds held.old (with_ranges held.new held.old.ranges) found
        × Begins (holder held.old).number who key tables plan held.old.value held.new.value held.old.ranges held.new.ranges found x) }
{
    match start(held, alloc, who, key, tables)? {
        Begun::Started(Started { serial, place }) => Ok(Selected::Start {
            serial,
            place,
            plan,
        }),
        Begun::NoRoom {
            need,
            largest,
            place,
        } => Ok(Selected::Plain {
            reason: Reason::NoRoom { need, largest },
            place,
            plan: Ok(plan),
        }),
    }
}
