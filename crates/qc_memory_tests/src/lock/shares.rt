//! Threads that add to one log, each with a seat of its own.

ghost use Rattle.std.specs.Prelude.{◌≡◌, ◌+◌, ◌<◌};
ghost use Rattle.std.specs.Thread.{IsSync};
ghost use Rattle.qc_turn.specs.Seats.{IsSeatOf, view};
ghost use Rattle.qc_turn.specs.Words.{last_seat};
ghost use Rattle.qc_turn.specs.declared.task.Task.TheVariants.{Rest};
ghost use Rattle.qc_memory_tests.specs.Seats.{IsFirst, MeetsAll};

use crate::lock::add::add_all;
use crate::lock::log::{LOG_WORDS, Log};
use crate::told::{must, same};
use qc_turn::{Seat, Turn};
use qc_types::NoMemory;
use std::alloc::Global;
use std::sync::Wait;
use std::thread::{Threads, join_mut};

/// So many threads, at most 64, add this many entries each.
fn add_shared<R: Threads + Wait + Sync>(
    rt: &R,
    alloc: Global,
    threads: u32,
    count: u64,
) -> Result<Log, NoMemory>
    requires { threads < 65 }
{
    let (turn, mut first) = Turn::new(alloc, Log::new(alloc), LOG_WORDS)?;
    let done = add_beside(rt, alloc, &turn, &mut first, threads, count);
    let log = turn.close(first);
    if done { Ok(log) } else { Err(NoMemory) }
}

/// The threads add side by side, and the first seat meets theirs. False where memory for a seat lacks.
#[cycle(beside)]
fn add_beside<R: Threads + Wait + Sync>(
    rt: &R,
    alloc: Global,
    turn: &Turn<Log>,
    first: &mut Seat<Log>,
    threads: u32,
    count: u64,
) -> bool
    requires first { IsFirst turn.now first.old }
    requires few { first.old.made + threads < last_seat }
    ensures first { IsFirst turn.now first.new }
    ensures met { MeetsAll (view first.old).registry (view first.new).registry }
{
    if threads == 0 {
        return true;
    }
    let Ok(mut seat) = first.split(alloc, turn) else {
        return false;
    };
    let done = add_both(rt, alloc, turn, first, &mut seat, threads - 1, count);
    first.meet(turn, seat);
    done
}

/// A seat adds, beside so many others.
#[cycle(beside)]
fn add_both<R: Threads + Wait + Sync>(
    rt: &R,
    alloc: Global,
    turn: &Turn<Log>,
    first: &mut Seat<Log>,
    seat: &mut Seat<Log>,
    threads: u32,
    count: u64,
) -> bool
    requires first { IsFirst turn.now first.old }
    requires few { first.old.made + threads < last_seat }
    requires seat { IsSeatOf turn.now seat.old × ((view seat.old).task ≡ Rest) }
    ensures first { IsFirst turn.now first.new }
    ensures met { MeetsAll (view first.old).registry (view first.new).registry }
    ensures seat { IsSeatOf turn.now seat.new × ((view seat.new).number ≡ (view seat.old).number) × ((view seat.new).task ≡ Rest) }
{
    let mut done = false;
    let mut own = ||
        requires { IsSync R.row × IsSeatOf turn.now seat.now × ((view seat.now).task ≡ Rest) }
        ensures { IsSeatOf turn.entry.now seat.exit.now × ((view seat.exit.now).number ≡ (view seat.entry.now).number) × ((view seat.exit.now).task ≡ Rest) }
    { add_all(rt, turn, seat, count) };
    let mut others = ||
        requires { IsSync R.row × IsFirst turn.now first.now × (first.now.made + threads < last_seat) }
        ensures { IsFirst turn.entry.now first.exit.now × MeetsAll (view first.entry.now).registry (view first.exit.now).registry }
    { done = add_beside(rt, alloc, turn, first, threads, count) };
    join_mut(rt, &mut own, &mut others);
    done
}

/// Threads, the entries that each adds, and how many entries there are then, with the sum of their numbers.
const SHARES: &[(u32, u64, usize, u64)] = &[
    (2, 4000, 8000, 15_996_000),
    (8, 2000, 16_000, 15_992_000),
    (63, 200, 12_600, 1_253_700),
];

#[test]
fn threads_add_to_one_log(rt: HostRuntime) {
    for (threads, count, entries, sum) in SHARES {
        assert!(rt; *threads < 65);
        let log = must(&rt, add_shared(&rt, rt.alloc(), *threads, *count));
        same(&rt, (log.len(), log.sum()), (*entries, *sum));
    }
}
