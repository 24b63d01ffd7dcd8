//! The setup part of a script is run alone, on the first seat.

ghost use Rattle.std.specs.Prelude.{◌≡◌, IfOk};
ghost use Rattle.qc_turn.specs.Seats.{view};
ghost use Rattle.qc_app.specs.SessionStarts.{HasSplit};
ghost use Rattle.qc_app.specs.SetupPart.{HasPrepared, IsFresh, IsPrepared};

use crate::outcomes::Outcome;
use crate::session_starts::seat_of;
use crate::sessions::Slot;
use qc_core::Server;
use qc_serve::{Gate, connect};
use qc_turn::{Seat, Turn};
use qc_types::{NoMemory, Options, Text};
use std::alloc::Global;
use std::sync::Wait;

/// Runs the setup part, where the script has one, on the seat of a new turn. The seat is given back, with what the setup's session leaves.
pub(crate) fn prepare<R: Wait, G: Gate>(
    rt: &R,
    alloc: Global,
    turn: &Turn<Server>,
    first: Seat<Server>,
    options: &Options,
    setup: Option<Text>,
    gate: &G,
) -> (Seat<Server>, Result<Option<Outcome>, NoMemory>)
    requires fresh { IsFresh turn.now options.now first }
    ensures first { HasSplit turn.now options.now result.0 0 }
    ensures prepared { IfOk result.1 (HasPrepared turn.now options.now setup (view result.0)) }
{
    let Some(input) = setup else {
        return (first, Ok(None));
    };
    let (first, outcome) = run_setup(rt, alloc, turn, first, options, input, gate);
    match outcome {
        Some(outcome) => (first, Ok(Some(outcome))),
        None => (first, Err(NoMemory)),
    }
}

/// Runs a session on the seat of a new turn. No outcome: memory was wanting.
fn run_setup<R: Wait, G: Gate>(
    rt: &R,
    alloc: Global,
    turn: &Turn<Server>,
    first: Seat<Server>,
    options: &Options,
    input: Text,
    gate: &G,
) -> (Seat<Server>, Option<Outcome>)
    requires fresh { IsFresh turn.now options.now first }
    ensures first { HasSplit turn.now options.now result.0 0 }
    ensures prepared { (outcome : Outcome) → result.1 ≡ Some outcome → IsPrepared turn.now options.now input (view result.0) outcome }
{
    match connect(rt, alloc, turn, first, options) {
        Ok(session) => {
            let mut slot = Slot::new(alloc, session, input);
            slot.serve(rt, alloc, turn, true, gate);
            slot.into_parts()
        }
        Err(refusal) => (seat_of(refusal), None),
    }
}
