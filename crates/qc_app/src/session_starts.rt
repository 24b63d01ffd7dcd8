//! Each session of a script gets a seat.

ghost use Rattle.std.specs.Prelude.{◌≡◌, ◌+◌, ◌<◌, ◌≤◌, [], length, drop, IfOk, OnOk, OnErr, vec_capacity};
ghost use Rattle.qc_turn.specs.Seats.{view};
ghost use Rattle.qc_turn.specs.Views.{AllMet};
ghost use Rattle.qc_app.specs.SessionStarts.{AreOpen, HasSplit, IsFirst, IsOpen, handed_back};

use crate::sessions::Slot;
use qc_core::Server;
use qc_serve::{NotConnected, connect};
use qc_turn::{Seat, Turn};
use qc_types::{NoMemory, Options, Text};
use std::alloc::Global;
use std::sync::Wait;

/// Splits a seat off for each input, and begins a session there, with the numbers 1, 2, 3 and so on. Where memory lacks, the sessions in front have begun.
pub(crate) fn open_sessions<R: Wait>(
    rt: &R,
    alloc: Global,
    turn: &Turn<Server>,
    first: &mut Seat<Server>,
    options: &Options,
    inputs: Vec<Text>,
    slots: &mut Vec<Slot>,
) -> Result<(), NoMemory>
    requires first { HasSplit turn.now options.now first.old 0 }
    requires few { length inputs.items ≤ 64 }
    requires room { (slots.old.items ≡ []) × (length inputs.items ≤ vec_capacity slots.old) }
    ensures first { IsFirst turn.now first.new × ((view first.new).events ≡ (view first.old).events) × ((view first.new).fixed ≡ (view first.old).fixed) }
    ensures open { AreOpen turn.now options.now (view first.old).seen inputs.items slots.new.items }
    ensures met { (length slots.new.items ≤ length (view first.new).registry) × AllMet (drop (length slots.new.items) (view first.new).registry) }
    ensures all { OnOk result ((length slots.new.items ≡ length inputs.items) × (length (view first.new).registry ≡ length inputs.items) × ((view first.new).seen ≡ (view first.old).seen)) }
{
    for input in inputs {
        let slot = open(rt, alloc, turn, first, options, input)?;
        slots.push_reserved(slot);
    }
    Ok(())
}

/// Splits a seat off, and begins a session there.
fn open<R: Wait>(
    rt: &R,
    alloc: Global,
    turn: &Turn<Server>,
    first: &mut Seat<Server>,
    options: &Options,
    input: Text,
) -> Result<Slot, NoMemory>
    requires { HasSplit turn.now options.now first.old (length (view first.old).registry) × (length (view first.old).registry < 64) }
    ensures same { ((view first.new).events ≡ (view first.old).events) × ((view first.new).fixed ≡ (view first.old).fixed) × IsFirst turn.now first.new }
    ensures opens { IfOk result (IsOpen turn.now options.now (view first.old).seen (length (view first.old).registry + 1, input)) }
    ensures split { OnOk result (HasSplit turn.now options.now first.new (length (view first.old).registry + 1) × ((view first.new).seen ≡ (view first.old).seen)) }
    ensures met { OnErr result ((length (view first.old).registry ≤ length (view first.new).registry) × AllMet (drop (length (view first.old).registry) (view first.new).registry)) }
{
    let seat = first.split(alloc, turn)?;
    match connect(rt, alloc, turn, seat, options) {
        Ok(session) => Ok(Slot::new(alloc, session, input)),
        Err(refusal) => {
            first.meet(turn, seat_of(refusal));
            Err(NoMemory)
        }
    }
}

/// The seat that was handed back. None is refused, since its number is at most 65.
pub(crate) fn seat_of(refusal: NotConnected) -> Seat<Server>
    ensures { result ≡ handed_back refusal }
{
    match refusal {
        NotConnected::Memory(seat) => seat,
        NotConnected::Refused(seat, _) => seat,
    }
}
