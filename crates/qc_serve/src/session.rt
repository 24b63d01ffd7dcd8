//! A session over the shared server.

use crate::ending::End;
use crate::log::Log;
use qc_core::Server;
use qc_trx::SessionState;
use qc_turn::Seat;
use qc_types::Options;

/// A session: its state, its seat at the server, and what it has answered so far. It has no `Drop`, since its seat has none.
pub struct Session {
    pub(crate) options: Options,
    pub(crate) state: SessionState,
    pub(crate) seat: Seat<Server>,
    /// The place of its last line, or 0.
    pub(crate) place: u64,
    pub(crate) log: Log,
    /// Why it has ended, where it has.
    pub(crate) end: Option<End>,
}

impl Session {
    ghost use Rattle.std.specs.Prelude.{◌≡◌};

    /// Its state.
    pub fn state(&self) -> &SessionState
        ensures { result.now ≡ self.now.state }
    {
        &self.state
    }

    /// Its seat.
    pub fn seat(&self) -> &Seat<Server>
        ensures { result.now ≡ self.now.seat }
    {
        &self.seat
    }

    /// The commands that it has answered.
    pub fn log(&self) -> &Log
        ensures { result.now ≡ self.now.log }
    {
        &self.log
    }

    /// Why it has ended, or None where it hasn't.
    pub fn end(&self) -> Option<End>
        ensures { result ≡ self.now.end }
    {
        self.end
    }
}
