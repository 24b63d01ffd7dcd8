//! Events with their lines, and replies.

ghost use Rattle.std.specs.Prelude.{◌≡◌, ◌+◌, ◌<◌, ◌∷◌, [], ◌++◌, IfOk, OnOk, OnErr};
ghost use Rattle.qc_laws.specs.sizes.Replies.{FitsError};
ghost use Rattle.qc_model.specs.declared.reports.Word.TheVariants as word;
ghost use Rattle.qc_model.specs.Machine as machine;
ghost use Rattle.qc_model.specs.Machine.{other};
ghost use Rattle.qc_serve.specs.Logs.{logged};

use crate::desk::Desk;
use crate::holding::hold;
use crate::log::Logged;
use crate::notes::Note;
use crate::session::Session;
use qc_core::Server;
use qc_model::reports::Word;
use qc_statements::{error_reply, ok_reply};
use qc_turn::Turn;
use qc_types::{NoMemory, SqlError, Text};
use std::alloc::Global;
use std::sync::Wait;

impl Session {
    ghost use Rattle.qc_serve.specs.Going.{GivesOut, IsAtRest, Logs, MayAnswer, StopsWithout, TellsOut, event_given, next_who};
    ghost use Rattle.qc_serve.specs.Notes.{noted};

    /// A line of the log.
    pub(crate) fn put_line(&mut self, place: u64, how: Word)
        requires { 0 < self.old.log.room }
        ensures lines { self.new.log.lines ≡ self.old.log.lines ++ logged place how ∷ [] }
        ensures same { self.new ≡ record self.old { place = place; log = self.new.log } }
    {
        self.place = place;
        self.log.push(Logged { place, how });
    }

    /// The event of a command that changes no data, with its line.
    pub(crate) fn log_note<R: Wait>(
        &mut self,
        rt: &R,
        alloc: Global,
        turn: &Turn<Server>,
        note: Note,
    ) -> Result<(), NoMemory>
        requires { MayAnswer turn.now self.old }
        ensures logs { OnOk result (Logs turn.now self.old self.new (λ journal e. e ≡ noted note (next_who self.old))) }
        ensures state { self.new.state ≡ self.old.state }
        ensures stops { OnErr result (StopsWithout turn.now self.old self.new) }
    {
        let session = self.state.session();
        let desk = Desk { rt, alloc, turn };
        let mut note = note;
        let place = hold(desk, &mut self.seat, session, &mut note)?;
        self.put_line(place, Word::Other);
        Ok(())
    }

    /// OK, of a command that changes no data.
    pub(crate) fn log_ok<R: Wait>(
        &mut self,
        rt: &R,
        alloc: Global,
        turn: &Turn<Server>,
        note: Note,
    ) -> Result<Text, NoMemory>
        requires { MayAnswer turn.now self.old }
        ensures gives { IfOk result (λ reply. GivesOut turn.now self.old self.new reply (λ journal. event_given (noted note (next_who self.old)) self.old.state.state)) }
        ensures stops { OnErr result (StopsWithout turn.now self.old self.new) }
    {
        let reply = ok_reply(alloc, 0, self.state.status())?;
        self.log_note(rt, alloc, turn, note)?;
        Ok(reply)
    }

    /// An error, of a command that then changes nothing.
    pub(crate) fn log_error<R: Wait>(
        &mut self,
        rt: &R,
        alloc: Global,
        turn: &Turn<Server>,
        error: &SqlError,
    ) -> Result<Text, NoMemory>
        requires rest { MayAnswer turn.now self.old }
        requires fits { FitsError error.now }
        ensures gives { IfOk result (λ reply. GivesOut turn.now self.old self.new reply (λ journal. other (next_who self.old) self.old.state.state (machine.refused error.now))) }
        ensures stops { OnErr result (StopsWithout turn.now self.old self.new) }
    {
        let reply = error_reply(alloc, error)?;
        self.log_note(rt, alloc, turn, Note::Other)?;
        Ok(reply)
    }

    /// OK, of a command without an event.
    pub(crate) fn tell_ok(&mut self, alloc: Global, turn: &Turn<Server>) -> Result<Text, NoMemory>
        requires { MayAnswer turn.now self.old }
        ensures tells { IfOk result (λ reply. TellsOut turn.now self.old self.new reply (machine.ok_reply self.old.state.state 0) self.old.state.state) }
        ensures same { OnErr result (self.new ≡ self.old) }
    {
        let reply = ok_reply(alloc, 0, self.state.status())?;
        self.put_line(self.place, Word::Local);
        Ok(reply)
    }

    /// An error, of a command without an event.
    pub(crate) fn tell_error(
        &mut self,
        alloc: Global,
        turn: &Turn<Server>,
        error: &SqlError,
    ) -> Result<Text, NoMemory>
        requires rest { MayAnswer turn.now self.old }
        requires fits { FitsError error.now }
        ensures tells { IfOk result (λ reply. TellsOut turn.now self.old self.new reply (machine.refused error.now) self.old.state.state) }
        ensures same { OnErr result (self.new ≡ self.old) }
    {
        let reply = error_reply(alloc, error)?;
        self.put_line(self.place, Word::Local);
        Ok(reply)
    }
}
