//! A seat connects, and leaves.

ghost use Rattle.std.specs.Prelude.{◌≡◌, ◌+◌, ◌≤◌, true, false};
ghost use Rattle.qc_turn.specs.Seats.{IsSeatOf, holder, view};
ghost use Rattle.qc_turn.specs.Words.{StartsWith, word_seats};
ghost use Rattle.qc_core.specs.Connection.{is_connected};
ghost use Rattle.qc_serve.specs.Leaving.{HasLeft, HasLetGo, IsApart, IsStranger, MayLetGo};
ghost use Rattle.qc_serve.specs.Seats.{GoesOn, IsIdle, IsSameSeat, SeatRests};

use qc_core::{Server, enter, leave};
use qc_turn::{Held, Seat, Task, Turn};
use std::sync::Wait;

/// Connects a seat that rests and isn't connected, of a number of at most 65, and gives the number of its session.
pub(crate) fn enter_now<R: Wait>(rt: &R, turn: &Turn<Server>, seat: &mut Seat<Server>) -> u8
    requires apart { IsApart turn.now seat.old }
    requires few { (view seat.old).number ≤ word_seats }
    ensures rests { SeatRests turn.now result seat.new }
    ensures seen { StartsWith (view seat.new).seen (view seat.old).seen }
    ensures number { (view seat.new).number ≡ (view seat.old).number }
    ensures same { ((view seat.new).fixed ≡ (view seat.old).fixed) × ((view seat.new).events ≡ (view seat.old).events) × (seat.new.ranges ≡ seat.old.ranges) × ((view seat.new).registry ≡ (view seat.old).registry) }
{
    let mut held = turn.take(rt, seat);
    let session = enter_held(&mut held);
    let_go(held);
    session
}

/// The same under the turn.
fn enter_held(held: &mut Held<'_, Server>) -> u8
    requires stranger { IsStranger held.old }
    requires few { (holder held.old).number ≤ word_seats }
    ensures go { MayLetGo held.new × IsSameSeat held.old held.new }
    ensures session { result + 1 ≡ (holder held.old).number }
    ensures connected { is_connected (holder held.new).number held.new.value ≡ true }
    ensures events { held.new.value.journal.events ≡ held.old.value.journal.events }
{
    match enter(held) {
        Ok(session) => session,
        Err(_) => unreachable!(),
    }
}

/// Ends the connection of a seat that rests.
pub(crate) fn leave_now<R: Wait>(rt: &R, turn: &Turn<Server>, seat: &mut Seat<Server>, session: u8)
    requires { SeatRests turn.now session seat.old }
    ensures left { HasLeft turn.now session seat.new }
    ensures seen { GoesOn session (view seat.old).seen (view seat.new).seen }
    ensures same { ((view seat.new).fixed ≡ (view seat.old).fixed) × ((view seat.new).registry ≡ (view seat.old).registry) }
{
    let mut held = turn.take(rt, seat);
    leave_held(&mut held, session);
    let_go(held);
}

/// The same under the turn.
fn leave_held(held: &mut Held<'_, Server>, session: u8)
    requires { IsIdle session held.old }
    ensures go { MayLetGo held.new × IsSameSeat held.old held.new }
    ensures connected { is_connected (holder held.new).number held.new.value ≡ false }
    ensures events { held.new.value.journal.events ≡ held.old.value.journal.events }
{
    leave(held, session);
}

/// Gives the turn back, and rests.
fn let_go(held: Held<'_, Server>)
    requires { MayLetGo held }
    ensures seated { IsSeatOf held.entry.turn.now held.exit.1.0.now }
    ensures rested { HasLetGo (holder held.entry) (view held.exit.1.0.now) held.entry.value }
    ensures ranges { held.exit.1.0.now.ranges ≡ held.entry.ranges }
{
    held.release(Task::Rest);
}
