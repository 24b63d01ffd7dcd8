//! The seats of sessions that have ended are met.

ghost use Rattle.std.specs.Prelude.{◌≡◌, ◌+◌, ◌≤◌, true, [], length, reverse, vec_capacity};
ghost use Rattle.qc_turn.specs.Seats.{view};
ghost use Rattle.qc_app.specs.SessionEnds.{AreOutcomes, HasMet, MayBeMet};
ghost use Rattle.qc_app.specs.SessionStarts.{IsFirst};

use crate::outcomes::Outcome;
use crate::sessions::Slot;
use qc_core::Server;
use qc_turn::{Seat, Turn};

/// Meets the seats of the sessions, the last one first, and gives what they leave in this order. False where one of them lacked memory.
pub(crate) fn join_sessions(
    turn: &Turn<Server>,
    first: &mut Seat<Server>,
    slots: Vec<Slot>,
    outcomes: &mut Vec<Outcome>,
) -> bool
    requires first { IsFirst turn.now first.old × (length slots.items ≤ length (view first.old).registry) }
    requires met { MayBeMet turn.now slots.items }
    requires room { (outcomes.old.items ≡ []) × (length slots.items ≤ vec_capacity outcomes.old) }
    ensures met { HasMet turn.now first.old first.new slots.items }
    ensures outcomes { result ≡ true → AreOutcomes slots.items (reverse outcomes.new.items) }
    ensures room { (length outcomes.new.items ≤ length slots.items) × (vec_capacity outcomes.new ≡ vec_capacity outcomes.old) }
{
    let mut slots = slots;
    let mut served = true;
    while let Some(slot) = slots.pop() {
        let (seat, outcome) = slot.into_parts();
        first.meet(turn, seat);
        match outcome {
            Some(outcome) => outcomes.push_reserved(outcome),
            None => served = false,
        }
    }
    slots.destroy_empty();
    served
}
