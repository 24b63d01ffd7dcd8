//! The current database.

ghost use Rattle.std.specs.Prelude.{IfOk, OnErr};
ghost use Rattle.qc_model.specs.Machine.{used};

use crate::desk::Desk;
use crate::holding::hold;
use crate::notes::SharingNote;
use crate::session::Session;
use qc_core::Server;
use qc_model::reports::Word;
use qc_statements::{error_reply, ok_reply, use_db};
use qc_table::Database;
use qc_turn::Turn;
use qc_types::{NoMemory, Or, Text};
use std::alloc::Global;
use std::sync::Wait;

impl Session {
    ghost use Rattle.std.specs.Prelude.{◌≡◌};
    ghost use Rattle.qc_model.specs.declared.events.Event.TheVariants as event;
    ghost use Rattle.qc_model.specs.declared.events.How.TheVariants as how;
    ghost use Rattle.qc_serve.specs.Ends.{Makes};
    ghost use Rattle.qc_serve.specs.Going.{GivesOut, IsGivenBy, Logs, MayAnswer, Stops, StopsWithout, next_who};

    /// USE, and COM_INIT_DB: another current database, where the session sees it at the event.
    pub(crate) fn use_db<R: Wait>(
        &mut self,
        rt: &R,
        alloc: Global,
        turn: &Turn<Server>,
        name: &Text,
    ) -> Result<Text, NoMemory>
        requires { MayAnswer turn.now self.old }
        ensures gives { IfOk result (λ reply. GivesOut turn.now self.old self.new reply (λ journal. used (next_who self.old) self.old.state.state journal name.now)) }
        ensures stops { OnErr result (Stops turn.now self.old self.new (IsGivenBy (λ journal. used (next_who self.old) self.old.state.state journal name.now))) }
    {
        let database = self.log_sharing(rt, alloc, turn)?;
        match use_db(alloc, name, &mut self.state, &database) {
            Ok(()) => ok_reply(alloc, 0, self.state.status()),
            Err(Or::Other(error)) => error_reply(alloc, &error),
            Err(Or::Memory) => Err(NoMemory),
        }
    }

    /// The event of a command that changes no data, with its line, and the database that the journal makes before it.
    pub(crate) fn log_sharing<R: Wait>(
        &mut self,
        rt: &R,
        alloc: Global,
        turn: &Turn<Server>,
    ) -> Result<Database, NoMemory>
        requires { MayAnswer turn.now self.old }
        ensures logs { IfOk result (λ database. Logs turn.now self.old self.new (λ journal e. (e ≡ event.Run (next_who self.old) how.Other) × Makes journal database)) }
        ensures state { self.new.state ≡ self.old.state }
        ensures stops { OnErr result (StopsWithout turn.now self.old self.new) }
    {
        let session = self.state.session();
        let desk = Desk { rt, alloc, turn };
        let (place, database) = hold(desk, &mut self.seat, session, &mut SharingNote)?;
        self.put_line(place, Word::Other);
        Ok(database)
    }
}
