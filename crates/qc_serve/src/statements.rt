//! What each statement does.

ghost use Rattle.std.specs.Prelude.{◌≡◌, true, false, IfOk, OnErr};
ghost use Rattle.qc_sql.specs.Errors as errors;
ghost use Rattle.qc_laws.specs.sizes.Names.{is_short_statement};
ghost use Rattle.qc_model.specs.declared.events.Event.TheVariants as event;
ghost use Rattle.qc_serve.specs.Stage.{is_select};

use crate::desk::Desk;
use crate::holding::hold;
use crate::notes::Note;
use crate::session::Session;
use crate::status::ShowStatus;
use crate::status_reply::status_reply;
use qc_core::Server;
use qc_model::reports::Word;
use qc_sql::errors::unknown_command;
use qc_sql::statements::Statement;
use qc_statements::ok_reply;
use qc_turn::Turn;
use qc_types::{NoMemory, Steps, Text};
use std::alloc::Global;
use std::sync::Wait;
use std::sync::ledger::Ledger;

impl Session {
    ghost use Rattle.qc_types.specs.declared.totals.Totals.{Totals};
    ghost use Rattle.qc_model.specs.Machine as machine;
    ghost use Rattle.qc_serve.specs.Going.{DoesStatement, GivesOut, IsGivenBy, MayAnswer, Stops, StopsStatement, StopsWithout, TellsOut, event_given, next_who, status_given};

    /// A command that there is none of.
    pub(crate) fn refuse_command(
        &mut self,
        alloc: Global,
        turn: &Turn<Server>,
    ) -> Result<Text, NoMemory>
        requires { MayAnswer turn.now self.old }
        ensures tells { IfOk result (λ reply. TellsOut turn.now self.old self.new reply (machine.refused errors.unknown_command) self.old.state.state) }
        ensures same { OnErr result (self.new ≡ self.old) }
    {
        let error = unknown_command(alloc)?;
        self.tell_error(alloc, turn, &error)
    }

    /// A statement that is no SELECT.
    pub(crate) fn execute_statement<R: Wait, L: Ledger>(
        &mut self,
        rt: &R,
        alloc: Global,
        turn: &Turn<Server>,
        statement: &Statement,
        steps: &mut Steps<L>,
    ) -> Result<Text, NoMemory>
        requires rest { MayAnswer turn.now self.old }
        requires short { is_short_statement statement.now ≡ true }
        requires other { is_select statement.now ≡ false }
        ensures does { IfOk result (DoesStatement turn.now statement.now self.old self.new) }
        ensures stops { OnErr result (StopsStatement turn.now statement.now self.old self.new) }
    {
        match statement {
            Statement::Select(_) => unreachable!(),
            Statement::UseDb(name) => self.use_db(rt, alloc, turn, name),
            Statement::Begin => self.begin(rt, alloc, turn),
            Statement::Commit => self.commit(rt, alloc, turn),
            Statement::Rollback => self.rollback(rt, alloc, turn),
            Statement::Set(setting) => self.set(rt, alloc, turn, setting),
            Statement::ShowStatus => self.show_status(rt, alloc, turn),
            Statement::FlushCache => self.log_ok(rt, alloc, turn, Note::Flush),
            Statement::FlushTables => self.log_ok(rt, alloc, turn, Note::Reset),
            Statement::ResetCache => self.log_ok(rt, alloc, turn, Note::Reset),
            Statement::Insert(_) | Statement::Update(_) | Statement::Delete(_) => {
                self.change_rows(rt, alloc, turn, statement, steps)
            }
            _ => self.change_forms(rt, alloc, turn, statement, steps),
        }
    }

    /// SHOW STATUS.
    fn show_status<R: Wait>(
        &mut self,
        rt: &R,
        alloc: Global,
        turn: &Turn<Server>,
    ) -> Result<Text, NoMemory>
        requires { MayAnswer turn.now self.old }
        ensures gives { IfOk result (λ reply. (t : Totals) × GivesOut turn.now self.old self.new reply (status_given (next_who self.old) self.old.state.state t)) }
        ensures stops { OnErr result (Stops turn.now self.old self.new (λ journal e. (t : Totals) × IsGivenBy (status_given (next_who self.old) self.old.state.state t) journal e)) }
    {
        let session = self.state.session();
        let desk = Desk { rt, alloc, turn };
        let told = hold(desk, &mut self.seat, session, &mut ShowStatus)?;
        self.put_line(told.place, Word::Other);
        status_reply(alloc, &self.state, &told.counters, &told.totals)
    }
}
