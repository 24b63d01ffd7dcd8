//! Statements that change rows, outside of a transaction: they commit by themselves.

ghost use Rattle.std.specs.Prelude.{◌≡◌, length, true, None, Ok, IfOk, OnErr};
ghost use Rattle.qc_sql.specs.Effects as meant;
ghost use Rattle.qc_laws.specs.sizes.Names.{is_short_statement};
ghost use Rattle.qc_model.specs.Session.{base};
ghost use Rattle.qc_types.specs.Answers.{Gives};
ghost use Rattle.qc_statements.specs.Sound.{IsFitState};
ghost use Rattle.qc_statements.specs.Statements.{changes_rows};
ghost use Rattle.qc_serve.specs.Ends.{RowsAs};
ghost use Rattle.qc_serve.specs.Seats.{IsReady, IsSameSeat, PushesNone, PushesOne};

use crate::events::{push_commit, push_run};
use crate::request::Request;
use qc_core::Server;
use qc_model::events::{How, Who};
use qc_sql::statements::Statement;
use qc_statements::effect_on_view;
use qc_trx::SessionState;
use qc_turn::{Held, Task};
use qc_types::{NoMemory, Or, SqlError, Steps};
use qc_write::Effect;
use std::alloc::Global;
use std::sync::ledger::Ledger;

/// What a statement on rows did.
#[derive(Drop)]
pub(crate) enum RowsEnd {
    /// It was refused, and changed nothing.
    Refused(SqlError),
    /// It changed so many rows, as the reply counts them.
    Changes(u64),
}

/// Carries an INSERT, UPDATE or DELETE out, of a session without a transaction. It is answered the number of its event, and what the statement did.
#[derive(Drop)]
pub(crate) struct ChangeRows<'a, L: Ledger> {
    pub(crate) alloc: Global,
    pub(crate) statement: &'a Statement,
    pub(crate) state: &'a SessionState,
    pub(crate) steps: &'a mut Steps<L>,
}

impl<L: Ledger> Request for ChangeRows<'_, L> {
    ghost use Rattle.qc_serve.specs.Holding.{HasOne, next_in};
    ghost use Rattle.qc_serve.specs.Ends.{MayChangeRows};

    type Answer = (u64, RowsEnd);

    ghost asks = { λ q s. MayChangeRows q.statement.now q.state.now s.seen };

    ghost gives = { λ q s r now. HasOne s r.0 now (λ journal e. RowsAs (next_in s) q.state.now.state q.statement.now journal e r.1) };

    fn decide(
        &mut self,
        held: &mut Held<'_, Server>,
        who: Who,
    ) -> Result<((u64, RowsEnd), Task), NoMemory> {
        let changed = commit_rows(
            held,
            self.alloc,
            who,
            self.statement,
            self.state,
            self.steps,
        )?;
        Ok((changed, Task::Rest))
    }

    ghost same = { λ q. tt };
}

/// What the statement does on the database that the journal makes, as a commit where it changes something.
fn commit_rows<L: Ledger>(
    held: &mut Held<'_, Server>,
    alloc: Global,
    who: Who,
    statement: &Statement,
    state: &SessionState,
    steps: &mut Steps<L>,
) -> Result<(u64, RowsEnd), NoMemory>
    requires ready { IsReady who held.old }
    requires rows { changes_rows statement.now ≡ true }
    requires short { is_short_statement statement.now ≡ true }
    requires fit { IsFitState held.old.value.journal.events state.now }
    requires closed { state.now.state.transaction ≡ None }
    ensures place { IfOk result (λ r. r.0 ≡ length held.new.value.journal.events) }
    ensures pushes { IfOk result (λ r. PushesOne who held.old held.new (λ journal e. RowsAs who state.now.state statement.now journal e r.1)) }
    ensures none { OnErr result (PushesNone held.old held.new) }
{
    match effect_now(held, alloc, who, statement, state, steps) {
        Ok(effect) => commit_effect(held, alloc, who, statement, state, effect),
        Err(Or::Other(error)) => { Ok((push_run(held, who, How::Other), RowsEnd::Refused(error))) }
        Err(Or::Memory) => Err(NoMemory),
    }
}

/// What the statement does on that database. Nothing changes.
fn effect_now<L: Ledger>(
    held: &mut Held<'_, Server>,
    alloc: Global,
    who: Who,
    statement: &Statement,
    state: &SessionState,
    steps: &mut Steps<L>,
) -> Result<Effect, Or<SqlError>>
    requires ready { IsReady who held.old }
    requires rows { changes_rows statement.now ≡ true }
    requires fit { IsFitState held.old.value.journal.events state.now }
    ensures ready { IsReady who held.new × IsSameSeat held.old held.new × (held.new.value ≡ held.old.value) }
    ensures gives { Gives (λ e. e) (λ e. e) result (meant.effect statement.now (base state.now.state held.old.value.journal.events) state.now.state.db state.now.state.session) }
{
    effect_on_view(alloc, statement, state, held.value().database(), steps)
}

/// Commits what it does, where that is something.
fn commit_effect(
    held: &mut Held<'_, Server>,
    alloc: Global,
    who: Who,
    statement: &Statement,
    state: &SessionState,
    effect: Effect,
) -> Result<(u64, RowsEnd), NoMemory>
    requires ready { IsReady who held.old }
    requires rows { changes_rows statement.now ≡ true }
    requires short { is_short_statement statement.now ≡ true }
    requires fit { IsFitState held.old.value.journal.events state.now }
    requires closed { state.now.state.transaction ≡ None }
    requires effect { meant.effect statement.now (base state.now.state held.old.value.journal.events) state.now.state.db state.now.state.session ≡ Ok effect }
    ensures place { IfOk result (λ r. r.0 ≡ length held.new.value.journal.events) }
    ensures pushes { IfOk result (λ r. PushesOne who held.old held.new (λ journal e. RowsAs who state.now.state statement.now journal e r.1)) }
    ensures none { OnErr result (PushesNone held.old held.new) }
{
    let Effect { ops, affected } = effect;
    if ops.items().is_empty() {
        return Ok((push_run(held, who, How::Other), RowsEnd::Changes(affected)));
    }
    match push_commit(held, alloc, who, ops) {
        Ok(place) => Ok((place, RowsEnd::Changes(affected))),
        Err(Or::Memory) => Err(NoMemory),
        Err(Or::Other(_)) => unreachable!(),
    }
}
