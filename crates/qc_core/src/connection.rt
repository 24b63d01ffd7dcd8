//! Seats connect and leave.

ghost use Rattle.std.specs.Prelude.{◌≡◌, ◌+◌, ◌<◌, ◌==◌, true, false, [], nat_le, is_ok, IfOk, OnErr, IfSome, IfNone, slice_get, Some};
ghost use Rattle.std.specs.List.{list_any};
ghost use Rattle.qc_laws.specs.history.Runs.{are_distinct};
ghost use Rattle.qc_turn.specs.Seats.{MayRelease, SameHolder, holder};
ghost use Rattle.qc_turn.specs.Words.{word_seats};
ghost use Rattle.qc_turn.specs.Tasks.{listed_for};
ghost use Rattle.qc_core.specs.Whole.{tasks_of};
ghost use Rattle.qc_core.specs.Calls.{Rests};
ghost use Rattle.qc_core.specs.Connection.{is_connected, connects, disconnects};
ghost use Rattle.qc_core.specs.TaskEnd.{rested};

use crate::server::Server;
use crate::server_state::ServerState;
use crate::task_end::reap_own_stream;
use qc_turn::Held;

/// The largest number of a seat that may connect.
pub(crate) const LAST_SEAT: u32 = 65;

/// Too many sessions are connected.
#[derive(Clone, Copy, Debug, PartialEq, Eq)]
pub struct Full;

impl ServerState {
    /// The seat isn't connected any more.
    fn disconnect(&mut self, seat: u32)
        requires connected { is_connected seat self.old ≡ true }
        requires once { are_distinct self.old.connected.items ≡ true }
        ensures { self.new ≡ disconnects seat self.old }
    {
        let Some(index) = position(self.connected.items(), seat) else {
            unreachable!()
        };
        let _ = self.connected.remove(index);
    }
}

impl Server {
    /// Whether the seat with this number is connected. At most 65 are.
    pub fn is_connected(&self, seat: u32) -> bool
        ensures { result ≡ is_connected seat self.now }
    {
        position(self.parts.connected.items(), seat).is_some()
    }

    /// The seat is connected from now on.
    fn connect(&mut self, seat: u32)
        requires { 0 < self.old.connected.room }
        ensures { self.new ≡ connects seat self.old }
    {
        self.parts.connected.push(seat);
    }

    /// The same of what is in the box.
    fn disconnect(&mut self, seat: u32)
        requires connected { is_connected seat self.old ≡ true }
        requires once { are_distinct self.old.connected.items ≡ true }
        ensures { self.new ≡ disconnects seat self.old }
    {
        self.parts.disconnect(seat);
    }
}

/// Where a number stands first, if it does.
fn position(numbers: &[u32], number: u32) -> Option<usize>
    ensures some { IfSome result (λ i. slice_get numbers.now i ≡ Some number) }
    ensures none { IfNone result (list_any (λ m. m == number) numbers.now ≡ false) }
{
    let mut index = 0;
    for item in numbers {
        if *item == number {
            return Some(index);
        }
        index += 1;
    }
    None
}

/// Connects the seat that holds the turn, and gives the number of its session, which is the seat's number less 1. Full exactly where the number of the
/// seat is above 65; then nothing changes. Constant time.
pub fn enter(held: &mut Held<'_, Server>) -> Result<u8, Full>
    requires stands { MayRelease held.old }
    requires free { is_connected (holder held.old).number held.old.value ≡ false }
    ensures stands { MayRelease held.new × SameHolder held.old held.new }
    ensures full { is_ok result ≡ nat_le (holder held.old).number word_seats }
    ensures ok { IfOk result (λ session. (session + 1 ≡ (holder held.old).number) × (held.new.value ≡ connects (holder held.old).number held.old.value)) }
    ensures err { OnErr result (held.new.value ≡ held.old.value) }
    ensures ranges { held.new.ranges ≡ held.old.ranges }
{
    let seat = held.number();
    if seat > LAST_SEAT {
        return Err(Full);
    }
    held.value().connect(seat);
    Ok((seat - 1) as u8)
}

/// Ends the connection of the seat that holds the turn, whose session this is. Before that the seat's own stream, which has ended, is struck off where it
/// is listed still. Costs the blocks of that stream.
pub fn leave(held: &mut Held<'_, Server>, session: u8)
    requires stands { MayRelease held.old }
    requires session { session + 1 ≡ (holder held.old).number }
    requires connected { is_connected (holder held.old).number held.old.value ≡ true }
    requires rests { Rests held.old }
    ensures stands { MayRelease held.new × SameHolder held.old held.new }
    ensures left { held.new.value ≡ disconnects (holder held.old).number (rested (holder held.old).number held.old.value) }
    ensures rests { listed_for (holder held.old).number (tasks_of held.new.value) ≡ [] }
    ensures ranges { held.new.ranges ≡ held.old.ranges }
{
    reap_own_stream(held);
    end_connection(held, session);
}

/// The seat that holds the turn isn't connected any more.
fn end_connection(held: &mut Held<'_, Server>, session: u8)
    requires stands { MayRelease held.old }
    requires session { session + 1 ≡ (holder held.old).number }
    requires connected { is_connected (holder held.old).number held.old.value ≡ true }
    ensures stands { MayRelease held.new × SameHolder held.old held.new }
    ensures left { held.new.value ≡ disconnects (holder held.old).number held.old.value }
    ensures ranges { held.new.ranges ≡ held.old.ranges }
{
    held.value().disconnect(u32::from(session) + 1);
}
