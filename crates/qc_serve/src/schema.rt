//! Statements that make, empty or drop tables and databases.

ghost use Rattle.std.specs.Prelude.{◌≡◌, ◌<◌, ◌++◌, length, true, Ok, IfOk, OnOk, OnErr};
ghost use Rattle.qc_laws.specs.fits.Sound.{changes_tables};
ghost use Rattle.qc_laws.specs.sizes.Names.{is_short_statement};
ghost use Rattle.qc_model.specs.Machine.{changed_form, form_given};
ghost use Rattle.qc_model.specs.Session.{own_operations};
ghost use Rattle.qc_trx.specs.SnapshotStates.{after_end};
ghost use Rattle.qc_statements.specs.Forms.{IsGood, given_by};
ghost use Rattle.qc_statements.specs.Sound.{IsFitState, MayFollow};
ghost use Rattle.qc_serve.specs.Ends.{FormsAs, forms_state};
ghost use Rattle.qc_serve.specs.Seats.{IsReady, IsSameSeat, PushesNone, PushesOne};

use crate::events::{push_commit, push_run};
use crate::request::Request;
use crate::transaction_end::push_conflict;
use qc_core::Server;
use qc_model::events::{How, Who};
use qc_sql::statements::Statement;
use qc_statements::{SchemaChange, schema_change};
use qc_trx::SessionState;
use qc_turn::{Held, Task};
use qc_types::{NoMemory, Or, SqlError, Steps, TableName};
use qc_write::Effect;
use std::alloc::Global;
use std::sync::ledger::Ledger;

/// What such a statement did, which commits the open transaction with itself.
#[derive(Drop)]
pub(crate) enum FormsEnd {
    /// A later commit met one of the transaction's operations: it was rolled back.
    Conflict,
    /// This table would have had too many rows: the transaction was rolled back.
    Full(TableName),
    /// The statement was refused, and the transaction stays open.
    Refused(SqlError),
    /// It was committed, and its reply counts so many rows.
    Changes(u64),
}

/// Carries a TRUNCATE, CREATE or DROP out. It is answered the number of its event, and what the statement did.
#[derive(Drop)]
pub(crate) struct ChangeSchema<'a, L: Ledger> {
    pub(crate) alloc: Global,
    pub(crate) statement: &'a Statement,
    pub(crate) state: &'a mut SessionState,
    pub(crate) steps: &'a mut Steps<L>,
}

impl<L: Ledger> Request for ChangeSchema<'_, L> {
    ghost use Rattle.std.specs.Prelude.{refl};
    ghost use Rattle.qc_serve.specs.Ends.{MayChangeSchema};
    ghost use Rattle.qc_serve.specs.Holding.{HasOne, next_in};

    type Answer = (u64, FormsEnd);

    ghost asks = { λ q s. MayChangeSchema q.statement.now q.state.now s.seen };

    ghost gives = { λ q s r now. HasOne s r.0 now (λ journal e. FormsAs (next_in s) q.state.now.state q.statement.now journal e r.1) };

    ghost becomes = { λ old r new. (new.state.ghost_name ≡ old.state.ghost_name) × (new.state.now ≡ forms_state r.1 old.state.now) };

    ghost fails = { λ old new. (new.state.ghost_name ≡ old.state.ghost_name) × (new.state.now.state.session ≡ old.state.now.state.session) };

    fn decide(
        &mut self,
        held: &mut Held<'_, Server>,
        who: Who,
    ) -> Result<((u64, FormsEnd), Task), NoMemory> {
        let changed = commit_forms(
            held,
            self.alloc,
            who,
            self.statement,
            self.state,
            self.steps,
        )?;
        Ok((changed, Task::Rest))
    }

    ghost same = { λ q. (refl, refl) };
}

/// Carries it out by a seat that is ready for its next event.
fn commit_forms<L: Ledger>(
    held: &mut Held<'_, Server>,
    alloc: Global,
    who: Who,
    statement: &Statement,
    state: &mut SessionState,
    steps: &mut Steps<L>,
) -> Result<(u64, FormsEnd), NoMemory>
    requires ready { IsReady who held.old }
    requires forms { changes_tables statement.now ≡ true }
    requires short { is_short_statement statement.now ≡ true }
    requires fit { IsFitState held.old.value.journal.events state.old }
    ensures state { IfOk result (λ r. state.new ≡ forms_state r.1 state.old) }
    ensures session { state.new.state.session ≡ state.old.state.session }
    ensures place { IfOk result (λ r. r.0 ≡ length held.new.value.journal.events) }
    ensures pushes { IfOk result (λ r. PushesOne who held.old held.new (λ journal e. FormsAs who state.old.state statement.now journal e r.1)) }
    ensures none { OnErr result (PushesNone held.old held.new) }
{
    match forms_now(held, alloc, who, statement, state, steps) {
        Ok(SchemaChange::Conflict(conflict)) => {
            state.clear();
            Ok((push_conflict(held, who, conflict), FormsEnd::Conflict))
        }
        Ok(SchemaChange::Full(table)) => {
            state.clear();
            Ok((push_run(held, who, How::Other), FormsEnd::Full(table)))
        }
        Ok(SchemaChange::Refused(error)) => {
            Ok((push_run(held, who, How::Other), FormsEnd::Refused(error)))
        }
        Ok(SchemaChange::Commits(effect)) => {
            commit_behind(held, alloc, who, statement, state, effect)
        }
        Err(e) => Err(e),
    }
}

/// What the statement does at the end of the journal. Nothing changes.
fn forms_now<L: Ledger>(
    held: &mut Held<'_, Server>,
    alloc: Global,
    who: Who,
    statement: &Statement,
    state: &SessionState,
    steps: &mut Steps<L>,
) -> Result<SchemaChange, NoMemory>
    requires ready { IsReady who held.old }
    requires forms { changes_tables statement.now ≡ true }
    requires short { is_short_statement statement.now ≡ true }
    requires fit { IsFitState held.old.value.journal.events state.now }
    ensures ready { IsReady who held.new × IsSameSeat held.old held.new × (held.new.value ≡ held.old.value) }
    ensures gives { IfOk result (λ c. given_by who state.now.state c ≡ changed_form who state.now.state held.old.value.journal.events statement.now) }
    ensures good { IfOk result (IsGood held.old.value.journal.events held.old.value.database (own_operations state.now.state)) }
{
    let server = held.value();
    schema_change(
        alloc,
        statement,
        state,
        server.database(),
        server.journal(),
        steps,
    )
}

/// Commits what it does, behind the transaction's own operations.
fn commit_behind(
    held: &mut Held<'_, Server>,
    alloc: Global,
    who: Who,
    statement: &Statement,
    state: &mut SessionState,
    effect: Effect,
) -> Result<(u64, FormsEnd), NoMemory>
    requires ready { IsReady who held.old }
    requires gives { form_given who state.old.state (own_operations state.old.state) (Ok effect) ≡ changed_form who state.old.state held.old.value.journal.events statement.now }
    requires some { 0 < length effect.operations }
    requires good { MayFollow (own_operations state.old.state ++ effect.operations) held.old.value.database }
    ensures state { OnOk result (state.new ≡ after_end state.old) }
    ensures session { state.new.state.session ≡ state.old.state.session }
    ensures place { IfOk result (λ r. r.0 ≡ length held.new.value.journal.events) }
    ensures pushes { IfOk result (λ r. PushesOne who held.old held.new (λ journal e. FormsAs who state.old.state statement.now journal e r.1)) }
    ensures changes { IfOk result (λ r. (n : _) × (r.1 ≡ FormsEnd.Changes n)) }
    ensures none { OnErr result (PushesNone held.old held.new) }
{
    let Effect {
        ops: forms,
        affected,
    } = effect;
    let mut ops = state.end();
    ops.append(forms)?;
    match push_commit(held, alloc, who, ops) {
        Ok(place) => Ok((place, FormsEnd::Changes(affected))),
        Err(Or::Memory) => Err(NoMemory),
        Err(Or::Other(_)) => unreachable!(),
    }
}
