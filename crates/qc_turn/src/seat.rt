//! A thread takes the turn with a seat, and streams and fills with it.

ghost use Rattle.std.specs.Prelude.{◌≡◌, ℕ, ◌+◌, ◌<◌, ◌≤◌, [], true, length, slice_index, OnOk, OnErr, IfOk};
ghost use Rattle.qc_turn.specs.Blocks.{places};
ghost use Rattle.qc_turn.specs.Tasks.{is_stream};
ghost use Rattle.qc_turn.specs.Words.{extra_words, last_seat, word_seats};

use crate::kept::Kept;
use crate::steps::Seating;
use crate::task::Task;
use crate::turn::Turn;
use crate::view::View;
use qc_chain::Ranges;
use qc_types::NoMemory;
use std::alloc::Global;

/// The seat of the table that a seat stands on.
pub type Pass<V, E> = atomic_table::Seat<Option<V>, View<V, E>>;

/// A seat of a turn. It has no `Drop`: it ends in `meet`, and the first one in `Turn::close`.
pub struct Seat<V: Kept> {
    pub(crate) pass: Pass<V, V::Event>,
    pub(crate) number: u32,
    /// Of the first seat, how many seats there are.
    pub(crate) made: u32,
    pub(crate) task: Task,
    pub(crate) ranges: Ranges,
    /// Whether its task word is set.
    pub(crate) word_set: bool,
    ghost numbered: { (number ≡ pass.me.0.number) × (0 < number) },
    ghost counted: { made ≡ length pass.me.0.registry + 1 },
    ghost sized: { pass.me.0.size + extra_words ≡ pass.table_id.words },
    ghost tasked: { (task ≡ pass.me.0.task) × (word_set ≡ pass.me.0.word_set) },
    ghost few: { (is_stream pass.me.0.task ≡ true → word_set ≡ true) × (word_set ≡ true → number ≤ word_seats) },
    ghost within: { (k : ℕ) → k < length (places pass.me.0.blocks) → slice_index (places pass.me.0.blocks) k < pass.me.0.size },
}

impl<V: Kept> Seat<V> {
    ghost use Rattle.qc_turn.specs.declared.task.Task.TheVariants.{Rest};
    ghost use Rattle.qc_turn.specs.declared.turn.Turn.{Turn};
    ghost use Rattle.qc_turn.specs.Views.{after_split, next_seat, after_meet};
    ghost use Rattle.qc_turn.specs.Seats.{view, task_words, no_ranges, IsSeatOf, StaysSeat};

    /// Its number. Seats are numbered from 1 in the order in which they are made.
    pub fn number(&self) -> u32
        ensures { result ≡ (view self.now).number }
    {
        self.number
    }

    /// Its task.
    pub fn task(&self) -> Task
        ensures { result ≡ (view self.now).task }
    {
        self.task
    }

    /// The words of its task's blocks, or 0 where it rests.
    pub fn words(&self) -> u32
        ensures { (t : Turn V V.Event) → IsSeatOf t self.now → result ≡ task_words (view self.now) }
    {
        match self.task {
            Task::Rest => 0,
            Task::Stream(_) | Task::Fill(_) => self.ranges.words(),
        }
    }

    /// Gives a resting seat ranges with room for this many blocks, in place of those it had. Where memory lacks, it keeps them.
    pub fn with_room(&mut self, alloc: Global, room: u32) -> Result<(), NoMemory>
        requires rests { (view self.old).task ≡ Rest }
        ensures ok { OnOk result (self.new.ranges ≡ record { blocks = []; bytes = 0; room = room }) }
        ensures seated { StaysSeat self.old self.new × (view self.new ≡ view self.old) × (self.new.made ≡ self.old.made) }
        ensures err { OnErr result (self.new ≡ self.old) }
    {
        self.ranges = Ranges::new(alloc, room)?;
        Ok(())
    }

    /// Makes the next seat, which has seen what the first one has. It is a call on the first seat, of fewer than 4,294,967,295 seats made. Where memory
    /// lacks, the first seat is as it was. One load.
    pub fn split(&mut self, alloc: Global, turn: &Turn<V>) -> Result<Seat<V>, NoMemory>
        requires seated { IsSeatOf turn.now self.old }
        requires first { (view self.old).number ≡ 1 }
        requires few { self.old.made < last_seat }
        ensures seated { IsSeatOf turn.now self.new }
        ensures next { IfOk result (λ next. IsSeatOf turn.now next × (view next ≡ next_seat (view self.old)) × (next.ranges ≡ no_ranges)) }
        ensures ok { OnOk result ((view self.new ≡ after_split (view self.old)) × (self.new.made ≡ self.old.made + 1) × (self.new.ranges ≡ self.old.ranges)) }
        ensures err { OnErr result (self.new ≡ self.old) }
    {
        let ranges = Ranges::new(alloc, 0)?;
        let number = self.made + 1;
        let pass = turn.table.shared.split_seat::<Seating>(&mut self.pass);
        self.made = number;
        Ok(Seat {
            pass,
            number,
            made: 1,
            task: Task::Rest,
            ranges,
            word_set: false,
        })
    }

    /// The first seat takes another one back, which rests. It keeps the events of that seat, and has then seen the longer one of the two journals.
    /// One load.
    pub fn meet(&mut self, turn: &Turn<V>, other: Seat<V>)
        requires seated { IsSeatOf turn.now self.old × IsSeatOf turn.now other }
        requires first { ((view self.old).number ≡ 1) × (1 < (view other).number) }
        requires rests { (view other).task ≡ Rest }
        ensures seated { IsSeatOf turn.now self.new }
        ensures same { (self.new.made ≡ self.old.made) × (self.new.ranges ≡ self.old.ranges) }
        ensures view { view self.new ≡ after_meet (view self.old) (view other) }
    {
        let Seat {
            pass,
            number: _,
            made: _,
            task: _,
            ranges: _,
            word_set: _,
        } = other;
        turn.table.shared.join_seat::<Seating>(&mut self.pass, pass);
    }
}
