//! Seats that add to one log.

ghost use Rattle.std.specs.Prelude.{◌≡◌, ℕ, ◌-◌, ◌^◌, ◌<◌, [], ◌∷◌, ◌++◌, OnOk, OnErr, IfOk, IfSome};
ghost use Rattle.qc_turn.specs.Seats.{IsSeatOf, view};
ghost use Rattle.qc_turn.specs.Views.{of_seat};
ghost use Rattle.qc_turn.specs.declared.task.Task.TheVariants.{Rest};
ghost use Rattle.qc_memory_tests.specs.Seats.{HasMet};

use crate::lock::log::{LOG_WORDS, Log, push};
use crate::told::{must, same};
use qc_turn::{Busy, Kept, Seat, Task, Turn};
use qc_types::NoMemory;
use std::alloc::{AllocError, Global};
use std::sync::Wait;

/// Adds an entry under one holding.
fn add<R: Wait>(
    rt: &R,
    turn: &Turn<Log>,
    seat: &mut Seat<Log>,
    number: u64,
) -> Result<(), AllocError>
    requires { IsSeatOf turn.now seat.old × ((view seat.old).task ≡ Rest) }
    ensures seated { IsSeatOf turn.now seat.new }
    ensures number { (view seat.new).number ≡ (view seat.old).number }
    ensures rests { (view seat.new).task ≡ Rest }
    ensures ok { OnOk result ((view seat.new).events ≡ (view seat.old).events ++ record { session = (view seat.old).number - 1; number = number } ∷ []) }
    ensures err { OnErr result ((view seat.new).events ≡ (view seat.old).events) }
    ensures own { (view seat.new).events ≡ of_seat ⟦<Log as Kept>⟧ (view seat.new).number (view seat.new).seen }
{
    let mut held = turn.take(rt, seat);
    let done = if held.value().len() < 1 << 32 {
        push(&mut held, number)
    } else {
        Err(AllocError)
    };
    held.release(Task::Rest);
    done
}

/// Adds this many entries, or fewer where memory lacks.
pub fn add_all<R: Wait>(rt: &R, turn: &Turn<Log>, seat: &mut Seat<Log>, count: u64)
    requires { IsSeatOf turn.now seat.old × ((view seat.old).task ≡ Rest) }
    ensures { IsSeatOf turn.now seat.new × ((view seat.new).number ≡ (view seat.old).number) × ((view seat.new).task ≡ Rest) }
{
    for number in 0..count {
        let _ = add(rt, turn, seat, number);
    }
}

/// Asks for the turn once, and gives it back where it was free. The number of the seat that was found to hold it, or none.
fn holder_found(turn: &Turn<Log>, seat: &mut Seat<Log>) -> Option<u32>
    requires { IsSeatOf turn.now seat.old × ((view seat.old).task ≡ Rest) }
    ensures { IsSeatOf turn.now seat.new × ((view seat.new).number ≡ (view seat.old).number) × ((view seat.new).task ≡ Rest) × ((view seat.new).events ≡ (view seat.old).events) }
{
    match turn.try_take(seat) {
        Ok(held) => {
            held.release(Task::Rest);
            None
        }
        Err(busy) => {
            let Busy { holder, seat: _ } = busy;
            Some(holder)
        }
    }
}

/// A second seat asks for the turn while the first one has it, and again when it is free. The seats that it found to hold it.
fn holders_found<R: Wait>(rt: &R, alloc: Global) -> Result<(Option<u32>, Option<u32>), NoMemory> {
    let (turn, mut first) = Turn::new(alloc, Log::new(alloc), LOG_WORDS)?;
    let Ok(mut second) = first.split(alloc, &turn) else {
        let _log = turn.close(first);
        return Err(NoMemory);
    };
    let held = turn.take(rt, &mut first);
    let taken = holder_found(&turn, &mut second);
    held.release(Task::Rest);
    let free = holder_found(&turn, &mut second);
    first.meet(&turn, second);
    let _log = turn.close(first);
    Ok((taken, free))
}

/// Closes the turn. The first seat, which has met a second one that had added three entries, has seen these and no others, and the log has no others.
fn close_three(turn: Turn<Log>, first: Seat<Log>) -> Log
    requires seated { IsSeatOf turn first × ((view first).number ≡ 1) }
    requires met { HasMet ⟦<Log as Kept>⟧ (record { session = 1; number = 1 } ∷ record { session = 1; number = 2 } ∷ record { session = 1; number = 3 } ∷ []) (view first) }
    ensures seen { (view first).seen ≡ record { session = 1; number = 1 } ∷ record { session = 1; number = 2 } ∷ record { session = 1; number = 3 } ∷ [] }
    ensures log { result.entries.items ≡ record { session = 1; number = 1 } ∷ record { session = 1; number = 2 } ∷ record { session = 1; number = 3 } ∷ [] }
{
    turn.close(first)
}

/// A second seat adds three entries, and the first one meets it. The log has these entries and no others.
fn three<R: Wait>(rt: &R, alloc: Global) -> Result<Option<Log>, NoMemory>
    ensures { IfOk result (λ some. IfSome some (λ log. log.entries.items ≡ record { session = 1; number = 1 } ∷ record { session = 1; number = 2 } ∷ record { session = 1; number = 3 } ∷ [])) }
{
    let (turn, mut first) = Turn::new(alloc, Log::new(alloc), LOG_WORDS)?;
    let Ok(mut second) = first.split(alloc, &turn) else {
        let _log = turn.close(first);
        return Err(NoMemory);
    };
    let one = add(rt, &turn, &mut second, 1).is_ok();
    let two = add(rt, &turn, &mut second, 2).is_ok();
    let three = add(rt, &turn, &mut second, 3).is_ok();
    first.meet(&turn, second);
    if one && two && three {
        Ok(Some(close_three(turn, first)))
    } else {
        let _log = turn.close(first);
        Ok(None)
    }
}

#[test]
fn a_second_seat_adds_three(rt: HostRuntime) {
    match three(&rt, rt.alloc()) {
        Ok(Some(log)) => same(&rt, (log.len(), log.sum()), (3, 6)),
        _ => panic!(&rt; "no memory"),
    }
}

/// The first seat has the number 1.
#[test]
fn the_seat_that_holds_is_told(rt: HostRuntime) {
    let found = must(&rt, holders_found(&rt, rt.alloc()));
    same(&rt, found, (Some(1), None));
}
