//! What SET sets.

ghost use Rattle.std.specs.Prelude.{◌≡◌, true, false, None, Ok, IfOk, OnErr};
ghost use Rattle.qc_sql.specs.declared.statements.Statement.TheVariants as statement;
ghost use Rattle.qc_laws.specs.sizes.Names.{is_short_setting};
ghost use Rattle.qc_model.specs.Machine as machine;
ghost use Rattle.qc_model.specs.Machine.{ended_with};
ghost use Rattle.qc_model.specs.Session.{with_transaction};
ghost use Rattle.qc_model.specs.Settings.{is_autocommit, set_to};

use crate::notes::Note;
use crate::session::Session;
use crate::transaction_end::Ended;
use qc_core::Server;
use qc_sql::statements::Setting;
use qc_statements::{is_autocommit, ok_reply, put, switches_on};
use qc_turn::Turn;
use qc_types::{NoMemory, Or, Text};
use std::alloc::Global;
use std::sync::Wait;

impl Session {
    ghost use Rattle.qc_model.specs.Session.{State};
    ghost use Rattle.qc_serve.specs.Going.{DoesStatement, GivesOut, IsGivenBy, MayAnswer, SetsOther, Stops, StopsStatement, StopsWithout, next_who};

    /// SET: that of autocommit has an event, and ends the open transaction where it goes from off to on.
    pub(crate) fn set<R: Wait>(
        &mut self,
        rt: &R,
        alloc: Global,
        turn: &Turn<Server>,
        setting: &Setting,
    ) -> Result<Text, NoMemory>
        requires rest { MayAnswer turn.now self.old }
        requires short { is_short_setting setting.now ≡ true }
        ensures does { IfOk result (DoesStatement turn.now (statement.Set setting.now) self.old self.new) }
        ensures stops { OnErr result (StopsStatement turn.now (statement.Set setting.now) self.old self.new) }
    {
        if is_autocommit(setting) {
            self.set_autocommit(rt, alloc, turn, setting)
        } else {
            self.set_other(alloc, turn, setting)
        }
    }

    fn set_autocommit<R: Wait>(
        &mut self,
        rt: &R,
        alloc: Global,
        turn: &Turn<Server>,
        setting: &Setting,
    ) -> Result<Text, NoMemory>
        requires rest { MayAnswer turn.now self.old }
        requires short { is_short_setting setting.now ≡ true }
        requires autocommit { is_autocommit setting.now ≡ true }
        ensures gives { IfOk result (λ reply. GivesOut turn.now self.old self.new reply (λ journal. machine.set_autocommit (next_who self.old) self.old.state.state journal (set_to self.old.state.state setting.now))) }
        ensures stops { OnErr result (Stops turn.now self.old self.new (IsGivenBy (λ journal. machine.set_autocommit (next_who self.old) self.old.state.state journal (set_to self.old.state.state setting.now)))) }
    {
        if !self.state.flags().autocommit && switches_on(setting) {
            return self.turn_on(rt, alloc, turn, setting);
        }
        match self.state.set(alloc, setting) {
            Ok(()) => self.log_ok(rt, alloc, turn, Note::Other),
            Err(Or::Other(error)) => self.log_error(rt, alloc, turn, &error),
            Err(Or::Memory) => Err(NoMemory),
        }
    }

    /// Autocommit goes from off to on.
    fn turn_on<R: Wait>(
        &mut self,
        rt: &R,
        alloc: Global,
        turn: &Turn<Server>,
        setting: &Setting,
    ) -> Result<Text, NoMemory>
        requires rest { MayAnswer turn.now self.old }
        requires sets { (s : State) → set_to s setting.now ≡ Ok (record s { autocommit = true }) }
        ensures gives { IfOk result (λ reply. GivesOut turn.now self.old self.new reply (λ journal. ended_with (next_who self.old) self.old.state.state journal (with_transaction (record self.old.state.state { autocommit = true }) None))) }
        ensures stops { OnErr result (Stops turn.now self.old self.new (IsGivenBy (λ journal. ended_with (next_who self.old) self.old.state.state journal (with_transaction (record self.old.state.state { autocommit = true }) None)))) }
    {
        match self.end_transaction(rt, alloc, turn)? {
            Ended::Commits => {
                put(alloc, &mut self.state, setting)?;
                ok_reply(alloc, 0, self.state.status())
            }
            ended => self.ended_reply(alloc, &ended),
        }
    }

    /// SET of a variable that has no event.
    fn set_other(
        &mut self,
        alloc: Global,
        turn: &Turn<Server>,
        setting: &Setting,
    ) -> Result<Text, NoMemory>
        requires rest { MayAnswer turn.now self.old }
        requires short { is_short_setting setting.now ≡ true }
        requires other { is_autocommit setting.now ≡ false }
        ensures sets { IfOk result (SetsOther turn.now setting.now self.old self.new) }
        ensures stops { OnErr result (StopsWithout turn.now self.old self.new) }
    {
        match self.state.set(alloc, setting) {
            Ok(()) => self.tell_ok(alloc, turn),
            Err(Or::Other(error)) => self.tell_error(alloc, turn, &error),
            Err(Or::Memory) => Err(NoMemory),
        }
    }
}
