//! Transactions.

ghost use Rattle.std.specs.Prelude.{◌≡◌, None, IfOk, OnErr};
ghost use Rattle.qc_model.specs.Machine as machine;
ghost use Rattle.qc_model.specs.Machine.{begun, ended_with, other};
ghost use Rattle.qc_model.specs.Session.{with_transaction};
ghost use Rattle.qc_sql.specs.Packets.{packets};
ghost use Rattle.qc_serve.specs.Ends as ends;
ghost use Rattle.qc_serve.specs.Ends.{EndsAs, HasFittingError};

use crate::desk::Desk;
use crate::holding::hold;
use crate::notes::Note;
use crate::session::Session;
use crate::transaction_end::{EndTransaction, Ended};
use qc_core::Server;
use qc_model::reports::Word;
use qc_sql::errors::{table_full, write_conflict};
use qc_statements::{error_reply, ok_reply};
use qc_turn::Turn;
use qc_types::{NoMemory, Text};
use std::alloc::Global;
use std::sync::Wait;

impl Session {
    ghost use Rattle.qc_trx.specs.SnapshotStates.{after_end};
    ghost use Rattle.qc_serve.specs.Going.{GivesOut, IsGivenBy, Logs, MayAnswer, Stops, StopsWithout, next_who};

    /// ROLLBACK: the open transaction is forgotten.
    pub(crate) fn rollback<R: Wait>(
        &mut self,
        rt: &R,
        alloc: Global,
        turn: &Turn<Server>,
    ) -> Result<Text, NoMemory>
        requires { MayAnswer turn.now self.old }
        ensures gives { IfOk result (λ reply. GivesOut turn.now self.old self.new reply (λ journal. other (next_who self.old) (with_transaction self.old.state.state None) (machine.ok_reply (with_transaction self.old.state.state None) 0))) }
        ensures stops { OnErr result (StopsWithout turn.now self.old self.new) }
    {
        self.state.clear();
        self.log_ok(rt, alloc, turn, Note::Other)
    }

    /// COMMIT.
    pub(crate) fn commit<R: Wait>(
        &mut self,
        rt: &R,
        alloc: Global,
        turn: &Turn<Server>,
    ) -> Result<Text, NoMemory>
        requires { MayAnswer turn.now self.old }
        ensures gives { IfOk result (λ reply. GivesOut turn.now self.old self.new reply (λ journal. ended_with (next_who self.old) self.old.state.state journal (with_transaction self.old.state.state None))) }
        ensures stops { OnErr result (Stops turn.now self.old self.new (IsGivenBy (λ journal. ended_with (next_who self.old) self.old.state.state journal (with_transaction self.old.state.state None)))) }
    {
        let ended = self.end_transaction(rt, alloc, turn)?;
        self.ended_reply(alloc, &ended)
    }

    /// BEGIN, and START TRANSACTION: commits the open transaction, and opens another.
    pub(crate) fn begin<R: Wait>(
        &mut self,
        rt: &R,
        alloc: Global,
        turn: &Turn<Server>,
    ) -> Result<Text, NoMemory>
        requires { MayAnswer turn.now self.old }
        ensures gives { IfOk result (λ reply. GivesOut turn.now self.old self.new reply (λ journal. ended_with (next_who self.old) self.old.state.state journal (begun self.old.state.state))) }
        ensures stops { OnErr result (Stops turn.now self.old self.new (IsGivenBy (λ journal. ended_with (next_who self.old) self.old.state.state journal (begun self.old.state.state)))) }
    {
        match self.end_transaction(rt, alloc, turn)? {
            Ended::Commits => {
                self.state.begin();
                ok_reply(alloc, 0, self.state.status())
            }
            ended => self.ended_reply(alloc, &ended),
        }
    }

    /// Ends the open transaction, by an event with its line.
    pub(crate) fn end_transaction<R: Wait>(
        &mut self,
        rt: &R,
        alloc: Global,
        turn: &Turn<Server>,
    ) -> Result<Ended, NoMemory>
        requires { MayAnswer turn.now self.old }
        ensures logs { IfOk result (λ ended. Logs turn.now self.old self.new (λ journal e. EndsAs (next_who self.old) self.old.state.state journal e ended)) }
        ensures state { IfOk result (λ ended. self.new.state ≡ after_end self.old.state) }
        ensures stops { OnErr result (StopsWithout turn.now self.old self.new) }
    {
        let session = self.state.session();
        let (place, ended) = hold(
            Desk { rt, alloc, turn },
            &mut self.seat,
            session,
            &mut EndTransaction {
                alloc,
                state: &mut self.state,
            },
        )?;
        self.put_line(place, Word::Other);
        Ok(ended)
    }

    /// The reply of a command that has ended a transaction.
    pub(crate) fn ended_reply(&self, alloc: Global, ended: &Ended) -> Result<Text, NoMemory>
        requires { HasFittingError ended.now }
        ensures { IfOk result (λ bytes. bytes ≡ packets (ends.ended_reply self.now.state.state ended.now)) }
    {
        match ended {
            Ended::Conflict => error_reply(alloc, &write_conflict(alloc)?),
            Ended::Full(table) => error_reply(alloc, &table_full(alloc, table)?),
            Ended::Commits => ok_reply(alloc, 0, self.state.status()),
        }
    }
}
