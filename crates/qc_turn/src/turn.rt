//! The lock itself: how it is made, taken and closed.

ghost use Rattle.std.specs.Prelude.{◌≡◌, ◌≢◌, ℕ, ◌+◌, ◌<◌, ◌≤◌, List, [], ◌∷◌, Some, None, length, MatchResult, IfOk, IfErr, true};
ghost use Rattle.qc_turn.specs.declared.view.Holding.TheVariants.{Holds};
ghost use Rattle.qc_turn.specs.Words.{most_words, extra_words, word_seats, last_seat};

use crate::held::Held;
use crate::kept::Kept;
use crate::lines::{region_index, task_index};
use crate::rule::{Rule, Start};
use crate::seat::Seat;
use crate::steps::{
    LoadsWord, ReadsTaskWord, ReleasesTurn, SetsTaskWord, StoresWord, TakesTurn, TriesTurn,
};
use crate::task::Task;
use crate::view::View;
use atomic_table::{Refused, Table};
use qc_chain::Ranges;
use qc_types::NoMemory;
use std::alloc::Global;
use std::mem::replace;
use std::snapshot::Snapshot;
use std::sync::Wait;
use std::time::Duration;
use std::{hint, thread};

/// The words of a table beside its region: the turn word, and a task word for each of the first 65 seats, each of them with a line of the processor's cache
/// to itself.
const EXTRA_WORDS: u32 = 536;

/// The turn word.
const TURN_WORD: usize = 0;

/// The slot that has the value.
const VALUE_SLOT: usize = 0;

/// At which try a thread that waits begins to let others run.
const FIRST_YIELD: u32 = 20;

/// At which try a thread that waits begins to sleep.
const FIRST_SLEEP: u32 = 30;

/// From this try on each sleep is as long as the one before, 1,024 microseconds.
const LAST_TRY: u32 = 40;

/// A lock over a value, with the words of a region beside it. It has no `Drop`: it ends in `close`.
pub struct Turn<V: Kept> {
    pub(crate) table: Table<Option<V>, View<V, V::Event>, Start<V>, Rule<V>, Global>,
    pub(crate) words: u32,
    alloc: Global,
    ghost small: { words ≤ most_words },
    ghost sized: { (table.shared.table_id.words ≡ words + extra_words) × (table.shared.table_id.slots ≡ 1) × (table.shared.key.size ≡ words) },
}

/// Another seat holds the turn. It hands back the seat that asked.
pub struct Busy<'a, V: Kept> {
    /// The number of the seat that was found to hold the turn.
    pub holder: u32,
    /// The seat that asked.
    pub seat: &'a mut Seat<V>,
}

impl<V: Kept> Turn<V> {
    ghost use Rattle.qc_turn.specs.Tasks.{listed_for, IsListed, is_stream};
    ghost use Rattle.qc_turn.specs.Views.{with_holding, with_turn, with_refusal, words_of, base_of, HoldsTurn, written, after_release, with_word_set, with_found, found_word, idle_of, AllMet, first_seat};
    ghost use Rattle.qc_turn.specs.Steps.{takes_turn, tries_turn, Taken, TookTurn, LoadedWord};
    ghost use Rattle.qc_turn.specs.Releases.{Follows, IsFresh, ClosesWith, SpellsReleased, HeldFreeOfOthers};
    ghost use Rattle.qc_turn.specs.Seats.{view, turn_id, no_ranges, IsSeatOf, words, holder, IsHeld};
    ghost use Rattle.atomic_table.specs.Table.{step};
    ghost use mathlib.Core.Option.{none};

    /// A turn over this many words, at most 8,388,608, which are 0 at first, and the first seat. The value has an empty journal, no seat connected and no
    /// task. Takes all memory of the turn; where that lacks, the value is dropped.
    pub fn new(alloc: Global, value: V, words: u32) -> Result<(Turn<V>, Seat<V>), NoMemory>
    where
        V: Drop,
        requires words { words ≤ most_words }
        requires fresh { IsFresh V.Kept words value }
        ensures { IfOk result (λ made. IsSeatOf made.0 made.1 × (view made.1 ≡ first_seat words (V.fixed value)) × (made.1.made ≡ 1) × (made.0.words ≡ words) × (made.1.ranges ≡ no_ranges)) }
    {
        let row = Vec::from_elem(alloc, 0, (words + EXTRA_WORDS) as usize)?;
        let mut slots = Vec::with_capacity(alloc, 1)?;
        let start = Start {
            value: Snapshot::of(&value),
            size: words,
        };
        slots.push_reserved(Some(value));
        match Table::new(alloc, row.as_slice(), slots, &start) {
            Ok((table, pass)) => {
                let turn = Turn {
                    table,
                    words,
                    alloc,
                };
                let seat = Seat {
                    pass,
                    number: 1,
                    made: 1,
                    task: Task::Rest,
                    ranges: Ranges::empty(alloc),
                    word_set: false,
                };
                Ok((turn, seat))
            }
            Err(Refused { slots: _ }) => Err(NoMemory),
        }
    }

    /// Takes the turn, and asks until it has it. A thread that waits tries again at once for some times, then lets others run, and then sleeps between
    /// its tries, each time longer and at most about a millisecond. Nothing says that it ever gets the turn.
    pub fn take<'a, R: Wait>(&'a self, rt: &R, seat: &'a mut Seat<V>) -> Held<'a, V>
        requires { IsSeatOf self.now seat.old }
        ensures same_seat { result.seat.ghost_name ≡ seat.entry.ghost_name }
        ensures held { IsHeld result × (result.turn.now ≡ self.now) }
        ensures taken { Taken V.Kept (view seat.old) result.value (words result) }
        ensures ranges { result.ranges ≡ seat.old.ranges }
        ensures holds { holder result ≡ with_turn (view seat.old) result.value (words result) }
    {
        let value = self.wait(rt, seat);
        let ranges = self.take_ranges(seat);
        Held {
            turn: self,
            seat,
            value,
            ranges,
        }
    }

    /// Asks for the turn once. The error has the number of the seat that was found to hold it, which is another than this one, and hands the seat back,
    /// which has kept that number and is else as it was.
    pub fn try_take<'a>(&'a self, seat: &'a mut Seat<V>) -> Result<Held<'a, V>, Busy<'a, V>>
        requires { IsSeatOf self.now seat.old }
        ensures same_seat { IfOk result (λ held. held.seat.ghost_name ≡ seat.entry.ghost_name) }
        ensures held { IfOk result (λ held. IsHeld held × (held.turn.now ≡ self.now)) }
        ensures taken { IfOk result (λ held. Taken V.Kept (view seat.old) held.value (words held)) }
        ensures ranges { IfOk result (λ held. held.ranges ≡ seat.old.ranges) }
        ensures holds { IfOk result (λ held. holder held ≡ with_turn (view seat.old) held.value (words held)) }
        ensures handed_back { IfErr result (λ busy. (busy.seat.ghost_name ≡ seat.entry.ghost_name) × IsSeatOf self.now busy.seat.now × (busy.seat.now.ranges ≡ seat.old.ranges)) }
        ensures asked { IfErr result (λ busy. view busy.seat.now ≡ with_refusal (view seat.old) busy.holder) }
        ensures other { IfErr result (λ busy. (busy.holder ≢ 0) × (busy.holder ≢ (view seat.old).number)) }
    {
        match self.try_once(seat) {
            Ok(value) => {
                let ranges = self.take_ranges(seat);
                Ok(Held {
                    turn: self,
                    seat,
                    value,
                    ranges,
                })
            }
            Err(holder) => Err(Busy { holder, seat }),
        }
    }

    /// The value, at the end. It takes the first seat, once that has met all others. Costs no more than to give the memory of the words back.
    pub fn close(self, seat: Seat<V>) -> V
        requires seated { IsSeatOf self seat }
        requires first { (view seat).number ≡ 1 }
        requires met { AllMet (view seat).registry }
        ensures { ClosesWith V.Kept (view seat) result }
    {
        let Turn {
            table,
            words: _,
            alloc: _,
        } = self;
        let Seat {
            pass,
            number: _,
            made: _,
            task: _,
            ranges: _,
            word_set: _,
        } = seat;
        let mut closed = table.close_with(pass);
        let out = closed.take(VALUE_SLOT);
        closed.free();
        out.unwrap()
    }

    /// One compare-exchange of the turn word, from 0 to the seat's number, which takes the slot too. It tells the number that was found.
    fn ask(&self, seat: &mut Seat<V>) -> u64
        requires { IsSeatOf self.now seat.old }
        ensures table { (seat.new.pass.table_id ≡ seat.old.pass.table_id) × (seat.new.ranges ≡ seat.old.ranges) }
        ensures tells { takes_turn V.Kept (step 1 0 0 seat.old.number none) seat.old.pass.me result seat.new.pass.me }
    {
        let number = seat.number as u64;
        self.table
            .shared
            .compare_exchange::<TakesTurn>(&mut seat.pass, TURN_WORD, 0, number)
    }

    /// The same by a seat that keeps the number that was found.
    fn ask_once(&self, seat: &mut Seat<V>) -> u64
        requires { IsSeatOf self.now seat.old }
        ensures table { (seat.new.pass.table_id ≡ seat.old.pass.table_id) × (seat.new.ranges ≡ seat.old.ranges) }
        ensures tells { tries_turn V.Kept (step 1 0 0 seat.old.number none) seat.old.pass.me result seat.new.pass.me }
    {
        let number = seat.number as u64;
        self.table
            .shared
            .compare_exchange::<TriesTurn>(&mut seat.pass, TURN_WORD, 0, number)
    }

    /// Takes the value out of the slot that the seat has.
    fn take_value(&self, seat: &mut Seat<V>) -> V
        requires table { seat.old.pass.table_id ≡ turn_id self.now }
        requires slot { (value : V) × (seat.old.pass.me.1 ≡ (0, Some value) ∷ []) }
        ensures value { (value : V) → seat.old.pass.me.1 ≡ (0, Some value) ∷ [] → value ≡ result }
        ensures out { (seat.new.pass.me.0 ≡ seat.old.pass.me.0) × (seat.new.pass.me.1 ≡ (0, None) ∷ []) }
        ensures same { (seat.new.pass.table_id ≡ seat.old.pass.table_id) × (seat.new.ranges ≡ seat.old.ranges) }
    {
        let out = self.table.shared.exchange(&mut seat.pass, VALUE_SLOT, None);
        out.unwrap()
    }

    /// Asks once and keeps the number where it is refused, which is the error.
    fn try_once(&self, seat: &mut Seat<V>) -> Result<V, u32>
        requires { IsSeatOf self.now seat.old }
        ensures { MatchResult result
            (λ value. TookTurn V.Kept seat.old.pass seat.new.pass value × (seat.new.ranges ≡ seat.old.ranges))
            (λ found. (found ≢ 0) × (found ≢ (view seat.old).number) × IsSeatOf self.now seat.new × (view seat.new ≡ with_refusal (view seat.old) found) × (seat.new.ranges ≡ seat.old.ranges)) }
    {
        let found = self.ask_once(seat);
        if found != 0 {
            return Err(found as u32);
        }
        Ok(self.take_value(seat))
    }

    /// Asks once, and takes the value out of the slot. The error is the number that was found.
    fn try_seize(&self, seat: &mut Seat<V>) -> Result<V, u32>
        requires { IsSeatOf self.now seat.old }
        ensures { MatchResult result
            (λ value. TookTurn V.Kept seat.old.pass seat.new.pass value × (seat.new.ranges ≡ seat.old.ranges))
            (λ found. (found ≢ 0) × (found ≢ (view seat.old).number) × IsSeatOf self.now seat.new × (view seat.new ≡ view seat.old) × (seat.new.ranges ≡ seat.old.ranges)) }
    {
        let found = self.ask(seat);
        if found != 0 {
            return Err(found as u32);
        }
        Ok(self.take_value(seat))
    }

    /// Asks until the turn is the seat's.
    fn wait<R: Wait>(&self, rt: &R, seat: &mut Seat<V>) -> V
        requires { IsSeatOf self.now seat.old }
        ensures { TookTurn V.Kept seat.old.pass seat.new.pass result × (seat.new.ranges ≡ seat.old.ranges) }
    {
        let mut tries = 0u32;
        for _ in rt.forever() {
            match self.try_seize(seat) {
                Ok(value) => return value,
                Err(holder) => self.pause(rt, holder, tries),
            }
            tries = (tries + 1).min(LAST_TRY);
        }
        unreachable!()
    }

    /// Lets the holder get on. It doesn't sleep where the turn word has changed by then.
    fn pause<R: Wait>(&self, rt: &R, holder: u32, tries: u32)
        requires { tries ≤ 40 }
    {
        if tries < FIRST_YIELD {
            hint::spin_loop();
        } else if tries < FIRST_SLEEP {
            thread::yield_now();
        } else {
            let time = Duration::from_micros(1 << (tries - FIRST_SLEEP));
            self.table.shared.park_timeout(rt, TURN_WORD, holder, time);
        }
    }

    /// The ranges leave the seat for as long as it holds the turn.
    fn take_ranges(&self, seat: &mut Seat<V>) -> Ranges
        ensures { (result ≡ seat.old.ranges) × (seat.new.pass ≡ seat.old.pass) }
    {
        replace(&mut seat.ranges, Ranges::empty(self.alloc))
    }

    /// The holder loads a word of the region.
    pub(crate) fn read(&self, seat: &mut Seat<V>, word: u32) -> u64
        requires turn { seat.old.pass.table_id ≡ turn_id self.now }
        requires inside { word < self.now.words }
        ensures same { (view seat.new ≡ view seat.old) × (seat.new.pass.me.1 ≡ seat.old.pass.me.1) × (seat.new.pass.table_id ≡ seat.old.pass.table_id) }
        ensures word { LoadedWord V.Kept (view seat.old).number word result (view seat.old).holding }
    {
        self.table
            .shared
            .load::<LoadsWord>(&mut seat.pass, region_index(word))
    }

    /// The holder stores a word of the region.
    pub(crate) fn write(&self, seat: &mut Seat<V>, word: u32, value: u64)
        requires turn { seat.old.pass.table_id ≡ turn_id self.now }
        requires inside { word < self.now.words }
        requires free { HeldFreeOfOthers V.Kept (view seat.old).number (idle_of (view seat.old).found) word (view seat.old).holding }
        ensures same { (seat.new.pass.me.1 ≡ seat.old.pass.me.1) × (seat.new.pass.table_id ≡ seat.old.pass.table_id) }
        ensures view { view seat.new ≡ with_holding (view seat.old) (written (view seat.old).holding word value) }
    {
        self.table
            .shared
            .store::<StoresWord>(&mut seat.pass, region_index(word), value);
    }

    /// The value goes into the slot, and the turn word becomes 0, which gives the slot back.
    pub(crate) fn put_back(&self, seat: &mut Seat<V>, value: V, ranges: Ranges, task: Task)
        requires turn { (seat.old.pass.table_id ≡ turn_id self.now) × (seat.old.pass.me.1 ≡ (0, None) ∷ []) × HoldsTurn (view seat.old).holding }
        requires sound { V.sound (words_of (view seat.old).holding) value }
        requires follows { Follows V.Kept (view seat.old).number (idle_of (view seat.old).found) (base_of value (view seat.old).holding) value }
        requires width { length (words_of (view seat.old).holding) ≡ self.now.words }
        requires task { IsListed (view seat.old).number task ranges.blocks (listed_for (view seat.old).number (V.tasks value)) × ((view seat.old).word_set ≡ is_stream task) }
        requires content { SpellsReleased V.Kept (view seat.old) value (words_of (view seat.old).holding) }
        ensures seated { IsSeatOf self.now seat.new }
        ensures view { view seat.new ≡ after_release V.Kept (view seat.old) value (words_of (view seat.old).holding) }
        ensures ranges { seat.new.ranges ≡ ranges }
    {
        let out = self
            .table
            .shared
            .exchange(&mut seat.pass, VALUE_SLOT, Some(value));
        let None = out else { unreachable!() };
        self.table
            .shared
            .store::<ReleasesTurn>(&mut seat.pass, TURN_WORD, 0);
        seat.task = task;
        seat.ranges = ranges;
    }

    /// The holder sets its own task word.
    pub(crate) fn set_task_word(&self, seat: &mut Seat<V>)
        requires turn { (seat.old.pass.table_id ≡ turn_id self.now) × HoldsTurn (view seat.old).holding }
        requires few { (view seat.old).number ≤ word_seats }
        ensures same { (seat.new.pass.me.1 ≡ seat.old.pass.me.1) × (seat.new.pass.table_id ≡ seat.old.pass.table_id) }
        ensures view { view seat.new ≡ with_word_set (view seat.old) true }
    {
        let word = task_index(self.words, seat.number);
        self.table
            .shared
            .store::<SetsTaskWord>(&mut seat.pass, word, 1);
        seat.word_set = true;
    }

    /// The holder reads the task word of a seat.
    pub(crate) fn read_task_word(&self, seat: &mut Seat<V>, number: u32) -> bool
        requires turn { (seat.old.pass.table_id ≡ turn_id self.now) × HoldsTurn (view seat.old).holding }
        requires few { (0 < number) × (number ≤ word_seats) }
        ensures same { (seat.new.pass.me.1 ≡ seat.old.pass.me.1) × (seat.new.pass.table_id ≡ seat.old.pass.table_id) }
        ensures view { view seat.new ≡ with_found (view seat.old) (found_word number result ∷ (view seat.old).found) }
    {
        let word = task_index(self.words, number);
        let found = self
            .table
            .shared
            .load::<ReadsTaskWord>(&mut seat.pass, word);
        found != 0
    }
}
