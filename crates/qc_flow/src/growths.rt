//! A fill gets the blocks that it needs.

ghost use Rattle.std.specs.Prelude.{◌≡◌, ◌*◌, ◌≤◌, [], true, length, nat_le, OnOk};
ghost use Rattle.std.specs.Result.{IfErr};
ghost use Rattle.qc_chain.specs.Words.{words_of};
ghost use Rattle.qc_model.specs.Agrees.{is_ended};
ghost use Rattle.qc_turn.specs.declared.task.Task.TheVariants as task;
ghost use Rattle.qc_turn.specs.Seats.{view, words, holder, IsSeatOf, MayRelease};
ghost use Rattle.qc_turn.specs.Tasks.{listed_for};
ghost use Rattle.qc_core.specs.Calls.{ListsFill};
ghost use Rattle.qc_core.specs.Whole.{tasks_of};
ghost use Rattle.qc_flow.specs.Seats.{GoesOn};
ghost use Rattle.qc_flow.specs.Fills.{size_of};
ghost use Rattle.qc_flow.specs.Growths.{HoldFewer, GrowFor, Wants, Widens, Continues, FillsFor, GrowsShort, WasShort, IsFull, EndsShort, step_of};

use crate::fills::FillStep;
use qc_core::{Server, Short, gone, grow};
use qc_model::events::GoneWhy;
use qc_turn::{Held, Seat, Task, Turn};
use std::sync::Wait;

/// Sees that the blocks of the entry that the seat fills hold so many bytes. Where they do already, it doesn't take the turn.
pub(crate) fn make_room<R: Wait>(
    rt: &R,
    turn: &Turn<Server>,
    seat: &mut Seat<Server>,
    serial: u64,
    total: u64,
) -> FillStep
    requires seated { IsSeatOf turn.now seat.old × ((view seat.old).task ≡ task.Fill serial) }
    requires wants { Wants serial total (view seat.old) }
    requires room { size_of (view seat.old) ≤ 512 * seat.old.ranges.room }
    ensures seated { IsSeatOf turn.now seat.new × (seat.new.ranges.room ≡ seat.old.ranges.room) }
    ensures goes_on { GoesOn (view seat.old) (view seat.new) }
    ensures step { Widens serial total (view seat.old) (view seat.new) result }
    ensures calm { total ≤ 8 * words_of (view seat.old).blocks → view seat.new ≡ view seat.old }
{
    if total <= 8 * u64::from(seat.words()) {
        return FillStep::More;
    }
    widen(rt, turn, seat, serial, total)
}

/// The same under the turn.
fn widen<R: Wait>(
    rt: &R,
    turn: &Turn<Server>,
    seat: &mut Seat<Server>,
    serial: u64,
    total: u64,
) -> FillStep
    requires seated { IsSeatOf turn.now seat.old × ((view seat.old).task ≡ task.Fill serial) }
    requires wants { Wants serial total (view seat.old) }
    requires room { size_of (view seat.old) ≤ 512 * seat.old.ranges.room }
    requires fewer { HoldFewer (view seat.old).blocks total }
    ensures seated { IsSeatOf turn.now seat.new × (seat.new.ranges.room ≡ seat.old.ranges.room) }
    ensures goes_on { GoesOn (view seat.old) (view seat.new) }
    ensures step { Widens serial total (view seat.old) (view seat.new) result }
{
    let mut held = turn.take(rt, seat);
    if let Err(short) = grow_to(&mut held, serial, total) {
        let step = end_short(&mut held, serial, short);
        held.release(Task::Rest);
        return step;
    }
    held.release(Task::Fill(serial));
    FillStep::More
}

/// The chain of the entry grows until its blocks hold so many bytes.
fn grow_to(held: &mut Held<'_, Server>, serial: u64, total: u64) -> Result<(), Short>
    requires stands { MayRelease held.old }
    requires fills { FillsFor serial total held.old }
    ensures stands { MayRelease held.new × Continues held.old held.new }
    ensures words { words held.new ≡ words held.old }
    ensures blocks { GrowFor total held.old.ranges.blocks held.new.ranges.blocks }
    ensures fills { FillsFor serial total held.new }
    ensures ok { OnOk result (total ≤ 8 * words_of held.new.ranges.blocks) }
    ensures err { IfErr result (λ short. WasShort serial held.new.value short × HoldFewer held.new.ranges.blocks total) }
    ensures grown { IfErr result (GrowsShort (holder held.old).number serial held.old.value held.old.ranges held.new.value held.new.ranges) }
{
    while !holds(held, total) {
        grow(held, serial)?;
    }
    Ok(())
}

/// Whether the blocks in hand hold so many bytes.
fn holds(held: &mut Held<'_, Server>, total: u64) -> bool
    ensures holds { result ≡ nat_le total (8 * words_of held.old.ranges.blocks) }
    ensures same { held.new ≡ held.old }
{
    total <= 8 * u64::from(held.ranges().words())
}

/// Ends the fill of an entry whose chain doesn't grow.
fn end_short(held: &mut Held<'_, Server>, serial: u64, short: Short) -> FillStep
    requires stands { MayRelease held.old }
    requires fills { ListsFill serial held.old }
    requires short { WasShort serial held.old.value short }
    requires full { IsFull (holder held.old).number serial held.old.value short }
    ensures stands { MayRelease held.new × Continues held.old held.new }
    ensures rests { listed_for (holder held.old).number (tasks_of held.new.value) ≡ [] }
    ensures ended { is_ended serial [] held.new.value.journal.events ≡ true }
    ensures step { result ≡ step_of short }
    ensures events { EndsShort serial held.old.value.journal.events held.new.value.journal.events short }
{
    match short {
        Short::Overtaken(by) => {
            let _ended = gone(held, serial, GoneWhy::Ended);
            FillStep::Overtaken(by)
        }
        Short::NoRoom { need, largest } => {
            let _ended = gone(held, serial, GoneWhy::NoRoom { need, largest });
            FillStep::NoRoom { need, largest }
        }
    }
}
