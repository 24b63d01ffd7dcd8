//! Statements that change data.

ghost use Rattle.std.specs.Prelude.{◌≡◌, [], true, None, IfOk, OnOk, OnErr};
ghost use Rattle.qc_sql.specs.Database.{apply};
ghost use Rattle.qc_sql.specs.Packets.{packets};
ghost use Rattle.qc_laws.specs.fits.Sound.{changes_tables};
ghost use Rattle.qc_laws.specs.sizes.Names.{is_short_statement};
ghost use Rattle.qc_model.specs.Machine as machine;
ghost use Rattle.qc_model.specs.Machine.{changed_form, full_table};
ghost use Rattle.qc_trx.specs.SnapshotStates.{MayAdd, added, seen_on};
ghost use Rattle.qc_statements.specs.Statements.{changes_rows};
ghost use Rattle.qc_serve.specs.Ends as ends;
ghost use Rattle.qc_serve.specs.Ends.{FormsFit, RowsFit};

use crate::desk::Desk;
use crate::holding::hold;
use crate::rows::{ChangeRows, RowsEnd};
use crate::schema::{ChangeSchema, FormsEnd};
use crate::session::Session;
use qc_core::Server;
use qc_model::reports::Word;
use qc_sql::errors::{table_full, write_conflict};
use qc_sql::statements::Statement;
use qc_statements::{add, arrive, effect_on_view, error_reply, ok_reply};
use qc_turn::Turn;
use qc_types::{NoMemory, Or, Steps, Text};
use qc_write::Effect;
use std::alloc::Global;
use std::sync::Wait;
use std::sync::ledger::Ledger;

impl Session {
    ghost use Rattle.qc_serve.specs.Going.{GivesOut, IsGivenBy, MayAnswer, Stops, next_who, number_of, rows_given, runs_in_transaction};

    /// INSERT, UPDATE and DELETE: operations of the transaction, or a commit of their own.
    pub(crate) fn change_rows<R: Wait, L: Ledger>(
        &mut self,
        rt: &R,
        alloc: Global,
        turn: &Turn<Server>,
        statement: &Statement,
        steps: &mut Steps<L>,
    ) -> Result<Text, NoMemory>
        requires rest { MayAnswer turn.now self.old }
        requires rows { changes_rows statement.now ≡ true }
        requires short { is_short_statement statement.now ≡ true }
        ensures gives { IfOk result (λ reply. GivesOut turn.now self.old self.new reply (rows_given (next_who self.old) self.old.state.state statement.now)) }
        ensures stops { OnErr result (Stops turn.now self.old self.new (IsGivenBy (rows_given (next_who self.old) self.old.state.state statement.now))) }
    {
        let flags = self.state.flags();
        if flags.in_trans || !flags.autocommit {
            self.change_own_rows(rt, alloc, turn, statement, steps)
        } else {
            self.change_rows_alone(rt, alloc, turn, statement, steps)
        }
    }

    /// A statement on rows in a transaction, which it opens where autocommit is off: its event says nothing of what it does, so all that is done outside of
    /// the turn.
    fn change_own_rows<R: Wait, L: Ledger>(
        &mut self,
        rt: &R,
        alloc: Global,
        turn: &Turn<Server>,
        statement: &Statement,
        steps: &mut Steps<L>,
    ) -> Result<Text, NoMemory>
        requires rest { MayAnswer turn.now self.old }
        requires rows { changes_rows statement.now ≡ true }
        requires short { is_short_statement statement.now ≡ true }
        requires open { runs_in_transaction self.old.state.state ≡ true }
        ensures gives { IfOk result (λ reply. GivesOut turn.now self.old self.new reply (rows_given (next_who self.old) self.old.state.state statement.now)) }
        ensures stops { OnErr result (Stops turn.now self.old self.new (IsGivenBy (rows_given (next_who self.old) self.old.state.state statement.now))) }
    {
        let database = self.log_sharing(rt, alloc, turn)?;
        arrive(&mut self.state, &database, self.place)?;
        match effect_on_view(alloc, statement, &self.state, &database, steps) {
            Ok(effect) => self.keep(alloc, effect),
            Err(Or::Other(error)) => error_reply(alloc, &error),
            Err(Or::Memory) => Err(NoMemory),
        }
    }

    /// Adds what a statement does to the transaction's own operations.
    fn keep(&mut self, alloc: Global, effect: Effect) -> Result<Text, NoMemory>
        requires may { MayAdd effect.operations self.old.state }
        requires room { full_table (apply effect.operations (seen_on [] self.old.state)) ≡ None }
        ensures same { self.new ≡ record self.old { state = self.new.state } }
        ensures session { number_of self.new ≡ number_of self.old }
        ensures added { OnOk result (self.new.state ≡ added effect.operations self.old.state) }
        ensures reply { IfOk result (λ bytes. bytes ≡ packets (machine.ok_reply self.new.state.state effect.affected)) }
    {
        let Effect { ops, affected } = effect;
        add(alloc, &mut self.state, ops)?;
        ok_reply(alloc, affected, self.state.status())
    }

    /// A statement on rows outside of a transaction.
    fn change_rows_alone<R: Wait, L: Ledger>(
        &mut self,
        rt: &R,
        alloc: Global,
        turn: &Turn<Server>,
        statement: &Statement,
        steps: &mut Steps<L>,
    ) -> Result<Text, NoMemory>
        requires rest { MayAnswer turn.now self.old }
        requires rows { changes_rows statement.now ≡ true }
        requires short { is_short_statement statement.now ≡ true }
        requires closed { self.old.state.state.transaction ≡ None }
        requires autocommit { self.old.state.state.autocommit ≡ true }
        ensures gives { IfOk result (λ reply. GivesOut turn.now self.old self.new reply (rows_given (next_who self.old) self.old.state.state statement.now)) }
        ensures stops { OnErr result (Stops turn.now self.old self.new (IsGivenBy (rows_given (next_who self.old) self.old.state.state statement.now))) }
    {
        let session = self.state.session();
        let (place, end) = hold(
            Desk { rt, alloc, turn },
            &mut self.seat,
            session,
            &mut ChangeRows {
                alloc,
                statement,
                state: &self.state,
                steps,
            },
        )?;
        self.put_line(place, Word::Other);
        self.rows_reply(alloc, &end)
    }

    /// The reply of a statement on rows.
    fn rows_reply(&self, alloc: Global, end: &RowsEnd) -> Result<Text, NoMemory>
        requires { RowsFit end.now }
        ensures { IfOk result (λ bytes. bytes ≡ packets (ends.rows_reply self.now.state.state end.now)) }
    {
        match end {
            RowsEnd::Refused(error) => error_reply(alloc, error),
            RowsEnd::Changes(affected) => ok_reply(alloc, *affected, self.state.status()),
        }
    }

    /// TRUNCATE, CREATE and DROP: a commit of the open transaction with the statement.
    pub(crate) fn change_forms<R: Wait, L: Ledger>(
        &mut self,
        rt: &R,
        alloc: Global,
        turn: &Turn<Server>,
        statement: &Statement,
        steps: &mut Steps<L>,
    ) -> Result<Text, NoMemory>
        requires rest { MayAnswer turn.now self.old }
        requires forms { changes_tables statement.now ≡ true }
        requires short { is_short_statement statement.now ≡ true }
        ensures gives { IfOk result (λ reply. GivesOut turn.now self.old self.new reply (λ journal. changed_form (next_who self.old) self.old.state.state journal statement.now)) }
        ensures stops { OnErr result (Stops turn.now self.old self.new (IsGivenBy (λ journal. changed_form (next_who self.old) self.old.state.state journal statement.now))) }
    {
        let session = self.state.session();
        let (place, end) = hold(
            Desk { rt, alloc, turn },
            &mut self.seat,
            session,
            &mut ChangeSchema {
                alloc,
                statement,
                state: &mut self.state,
                steps,
            },
        )?;
        self.put_line(place, Word::Other);
        self.forms_reply(alloc, &end)
    }

    /// The reply of a statement that has made, emptied or dropped something.
    fn forms_reply(&self, alloc: Global, end: &FormsEnd) -> Result<Text, NoMemory>
        requires { FormsFit end.now }
        ensures { IfOk result (λ bytes. bytes ≡ packets (ends.forms_reply self.now.state.state end.now)) }
    {
        match end {
            FormsEnd::Conflict => error_reply(alloc, &write_conflict(alloc)?),
            FormsEnd::Full(table) => error_reply(alloc, &table_full(alloc, table)?),
            FormsEnd::Refused(error) => error_reply(alloc, error),
            FormsEnd::Changes(affected) => ok_reply(alloc, *affected, self.state.status()),
        }
    }
}
