//! A command ends the open transaction.

ghost use Rattle.std.specs.Prelude.{◌≡◌, length, None, IfOk, OnOk, OnErr, option_map};
ghost use Rattle.qc_model.specs.declared.events.Event.TheVariants as event;
ghost use Rattle.qc_model.specs.declared.events.How.TheVariants as how;
ghost use Rattle.qc_model.specs.Licence.{IsCommitOn};
ghost use Rattle.qc_model.specs.Machine.{conflict_in};
ghost use Rattle.qc_model.specs.Session.{snapshot_of};
ghost use Rattle.qc_trx.specs.Endings.{meant};
ghost use Rattle.qc_trx.specs.SnapshotStates.{after_end};
ghost use Rattle.qc_statements.specs.Sound.{IsFitState, IsPast};
ghost use Rattle.qc_serve.specs.Ends.{EndsAs};
ghost use Rattle.qc_serve.specs.Seats.{IsReady, IsSameSeat, Pushes, PushesNone, PushesOne};

use crate::events::{push_commit, push_run};
use crate::request::Request;
use qc_core::Server;
use qc_model::events::{How, Who};
use qc_statements::check_conflicts;
use qc_trx::{Conflict, SessionState};
use qc_turn::{Held, Task};
use qc_types::{NoMemory, Or, TableName};
use std::alloc::Global;

/// How the open transaction of a session ended.
#[derive(Drop)]
pub(crate) enum Ended {
    /// A later commit met one of its operations: it was rolled back.
    Conflict,
    /// This table would have had too many rows: it was rolled back.
    Full(TableName),
    /// Its operations were committed, where it had some.
    Commits,
}

/// Ends the open transaction of the state, by the event of the command that ends it. It is answered that event's number, and how the transaction ended.
#[derive(Drop)]
pub(crate) struct EndTransaction<'a> {
    pub(crate) alloc: Global,
    pub(crate) state: &'a mut SessionState,
}

impl Request for EndTransaction<'_> {
    ghost use Rattle.std.specs.Prelude.{refl};
    ghost use Rattle.qc_serve.specs.Holding.{HasOne, next_in};

    type Answer = (u64, Ended);

    ghost asks = { λ q s. IsFitState s.seen q.state.now × IsPast s.seen (snapshot_of q.state.now.state) };

    ghost gives = { λ q s r now. HasOne s r.0 now (λ journal e. EndsAs (next_in s) q.state.now.state journal e r.1) };

    ghost becomes = { λ old r new. (new.state.ghost_name ≡ old.state.ghost_name) × (new.state.now ≡ after_end old.state.now) };

    ghost fails = { λ old new. (new.state.ghost_name ≡ old.state.ghost_name) × (new.state.now.state.session ≡ old.state.now.state.session) };

    fn decide(
        &mut self,
        held: &mut Held<'_, Server>,
        who: Who,
    ) -> Result<((u64, Ended), Task), NoMemory> {
        match judge_now(held, self.alloc, who, self.state)? {
            None => {
                let ended = commit_own(held, self.alloc, who, self.state)?;
                Ok((ended, Task::Rest))
            }
            Some(conflict) => {
                self.state.clear();
                let place = push_conflict(held, who, conflict);
                Ok(((place, Ended::Conflict), Task::Rest))
            }
        }
    }

    ghost same = { λ q. (refl, refl) };
}

/// The conflict, where a later commit met one of the transaction's operations. Nothing changes.
fn judge_now(
    held: &mut Held<'_, Server>,
    alloc: Global,
    who: Who,
    state: &SessionState,
) -> Result<Option<Conflict>, NoMemory>
    requires ready { IsReady who held.old }
    requires fit { IsFitState held.old.value.journal.events state.now }
    ensures ready { IsReady who held.new × IsSameSeat held.old held.new × (held.new.value ≡ held.old.value) }
    ensures met { IfOk result (λ c. option_map meant c ≡ conflict_in state.now.state held.old.value.journal.events) }
{
    match check_conflicts(alloc, state, held.value().journal()) {
        Ok(_) => Ok(None),
        Err(Or::Other(conflict)) => Ok(Some(conflict)),
        Err(Or::Memory) => Err(NoMemory),
    }
}

/// The event of a transaction that is rolled back for a conflict.
pub(crate) fn push_conflict(held: &mut Held<'_, Server>, who: Who, conflict: Conflict) -> u64
    requires ready { IsReady who held.old }
    requires commit { IsCommitOn held.old.value.journal.events conflict.by conflict.table }
    ensures number { result ≡ length held.new.value.journal.events }
    ensures pushes { Pushes who (event.Run who (how.Conflict conflict.table conflict.key conflict.by)) held.old held.new }
{
    let Conflict { table, key, by } = conflict;
    push_run(held, who, How::Conflict { table, key, by })
}

/// Commits the operations of a transaction with which no later commit is in conflict, or rolls it back where a table would be too full.
fn commit_own(
    held: &mut Held<'_, Server>,
    alloc: Global,
    who: Who,
    state: &mut SessionState,
) -> Result<(u64, Ended), NoMemory>
    requires ready { IsReady who held.old }
    requires fit { IsFitState held.old.value.journal.events state.old }
    requires alone { conflict_in state.old.state held.old.value.journal.events ≡ None }
    ensures state { OnOk result (state.new ≡ after_end state.old) }
    ensures session { state.new.state.session ≡ state.old.state.session }
    ensures place { IfOk result (λ r. r.0 ≡ length held.new.value.journal.events) }
    ensures pushes { IfOk result (λ r. PushesOne who held.old held.new (λ journal e. EndsAs who state.old.state journal e r.1)) }
    ensures none { OnErr result (PushesNone held.old held.new) }
{
    let ops = state.end();
    if ops.items().is_empty() {
        return Ok((push_run(held, who, How::Other), Ended::Commits));
    }
    match push_commit(held, alloc, who, ops) {
        Ok(place) => Ok((place, Ended::Commits)),
        Err(Or::Other(full)) => Ok((push_run(held, who, How::Other), Ended::Full(full.table))),
        Err(Or::Memory) => Err(NoMemory),
    }
}
