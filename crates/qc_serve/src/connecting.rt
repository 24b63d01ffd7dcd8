//! A seat connects, and its session begins; a session that has ended gives its seat back.

ghost use Rattle.std.specs.Prelude.{◌≡◌, ◌≢◌, None, IfOk, IfErr};
ghost use Rattle.qc_serve.specs.Connecting.{GivesBack, HandsBack, HasBegun, MayConnect};
ghost use Rattle.qc_serve.specs.Going.{number_of};

use crate::leaving::enter_now;
use crate::log::Log;
use crate::session::Session;
use qc_core::Server;
use qc_sql::errors::too_many_connections;
use qc_trx::SessionState;
use qc_turn::{Seat, Turn};
use qc_types::{Options, OwnedList, SqlError};
use std::alloc::Global;
use std::sync::Wait;

/// The largest number of a seat that may connect.
const LAST_SEAT: u32 = 65;

/// The bytes of the least block.
const LEAST_BLOCK: u32 = 512;

/// Why a seat was not connected. It is handed back, at rest and not connected.
pub enum NotConnected {
    /// Memory ran out.
    Memory(Seat<Server>),
    /// Too many sessions are connected, with the error that says so.
    Refused(Seat<Server>, SqlError),
}

/// What a session leaves that has ended: its number, and the commands that it answered. No call makes one but the end of a session.
#[derive(Drop)]
pub struct Receipt {
    session: u8,
    log: Log,
}

/// What sessions left, in order.
pub type Receipts = OwnedList<Receipt>;

impl Receipt {
    /// The number of the session.
    pub fn session(&self) -> u8
        ensures { result ≡ self.now.session }
    {
        self.session
    }

    /// The commands that it answered.
    pub fn log(&self) -> &Log
        ensures { result.now ≡ self.now.log }
    {
        &self.log
    }
}

/// Connects a seat that rests and isn't connected, and begins its session, under the options of the server. Refused exactly where the seat's number is above
/// 65. The ranges of the seat get room for as many blocks as the region may have. It takes the turn, for which it may wait; under it, constant time.
pub fn connect<R: Wait>(
    rt: &R,
    alloc: Global,
    turn: &Turn<Server>,
    seat: Seat<Server>,
    options: &Options,
) -> Result<Session, NotConnected>
    requires { MayConnect turn.now options.now seat }
    ensures begins { IfOk result (HasBegun turn.now options.now seat) }
    ensures back { IfErr result (HandsBack turn.now options.now seat) }
{
    if seat.number() > LAST_SEAT {
        return Err(refused(alloc, seat));
    }
    let mut seat = seat;
    let room = options.size.div_ceil(LEAST_BLOCK);
    if seat.with_room(alloc, room).is_err() {
        return Err(NotConnected::Memory(seat));
    }
    let session = enter_now(rt, turn, &mut seat);
    Ok(Session {
        options: *options,
        state: SessionState::new(alloc, session, options.kind),
        seat,
        place: 0,
        log: Log::new(alloc),
        end: None,
    })
}

/// Hands a seat back that may not connect.
fn refused(alloc: Global, seat: Seat<Server>) -> NotConnected
    ensures { GivesBack seat result }
{
    match too_many_connections(alloc) {
        Ok(error) => NotConnected::Refused(seat, error),
        Err(_) => NotConnected::Memory(seat),
    }
}

impl Session {
    /// The seat and the receipt of a session that has ended. Constant time.
    pub fn into_seat(self) -> (Seat<Server>, Receipt)
        requires { self.end ≢ None }
        ensures seat { result.0 ≡ self.seat }
        ensures receipt { (result.1.session ≡ number_of self) × (result.1.log ≡ self.log) }
    {
        let Session {
            options: _,
            state,
            seat,
            place: _,
            log,
            end: _,
        } = self;
        let session = state.session();
        (seat, Receipt { session, log })
    }
}
