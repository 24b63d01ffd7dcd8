//! What the holder of the turn does.

ghost use Rattle.std.specs.Prelude.{◌≡◌, ◌≢◌, ℕ, ◌<◌, ◌≤◌, [], ◌∷◌, length, slice_index, slice_set, true};
ghost use Rattle.qc_turn.specs.Words.{word_seats};

use crate::kept::Kept;
use crate::seat::Seat;
use crate::task::Task;
use crate::turn::Turn;
use qc_chain::Ranges;

/// A seat that holds the turn, with the value. It has no `Drop`: it ends in `release`. While it lives, its seat is borrowed and can't be used. Its
/// ranges have a type parameter, since a contract sees nothing of `seat` at the end of `release` beside a field with a pointer in it.
pub struct TurnGuard<'a, V: Kept, G> {
    pub(crate) turn: &'a Turn<V>,
    pub(crate) seat: &'a mut Seat<V>,
    pub(crate) value: V,
    pub(crate) ranges: G,
}

/// A seat that holds the turn.
pub type Held<'a, V> = TurnGuard<'a, V, Ranges>;

impl<'a, V: Kept> Held<'a, V> {
    ghost use Rattle.qc_turn.specs.Tasks.{OutsideOtherFills, listed_for, is_stream, IsListed};
    ghost use Rattle.qc_turn.specs.Views.{with_word_set, with_found, found_word, idle_of, after_release};
    ghost use Rattle.qc_turn.specs.Releases.{Follows, IsFreeOfOthers, SpellsReleased};
    ghost use Rattle.qc_turn.specs.Seats.{view, IsSeatOf, words, holder, taken, held_blocks, IsHeld, SameHolder, with_value, with_ranges};
    ghost use Rattle.std.specs.Borrow.{sem, Lends};
    ghost use Rattle.qc_turn.specs.contracts.held.TurnGuard.{the_row};
    ghost use mir.Syntax.{named};
    ghost use Rattle.qc_chain.specs.contracts.ranges.Ranges.{the_row as ranges_row};

    /// The number of the seat, from 1.
    pub fn number(&self) -> u32
        ensures { result ≡ (holder self.now).number }
    {
        self.seat.number
    }

    /// The value. What is written through the borrow stays.
    pub fn value(&mut self) -> &mut V
        ensures* writes_back { sem 𝓛 (Lends (the_row (record { mir = named 1; lft = [] }) V.row ranges_row V.Event.row V.Kept) V.row self.entry result (λ w. with_value self.old w)) }
        ensures value { result.now ≡ self.old.value }
    {
        &mut self.value
    }

    /// The ranges of the seat. What is written through the borrow stays.
    pub fn ranges(&mut self) -> &mut Ranges
        ensures* writes_back { sem 𝓛 (Lends (the_row (record { mir = named 1; lft = [] }) V.row ranges_row V.Event.row V.Kept) ranges_row self.entry result (λ w. with_ranges self.old w)) }
        ensures value { result.now ≡ self.old.ranges }
    {
        &mut self.ranges
    }

    /// A word of the region, below the number of words. It is the one that the holder knows, but where another seat may be filling it. One load.
    pub fn load(&mut self, word: u32) -> u64
        requires held { IsHeld self.old }
        requires inside { word < length (words self.old) }
        ensures held { IsHeld self.new × SameHolder self.old self.new }
        ensures same { (words self.new ≡ words self.old) × (self.new.value ≡ self.old.value) × (self.new.ranges ≡ self.old.ranges) }
        ensures word { OutsideOtherFills (holder self.old).number (V.tasks (taken self.old)) word → result ≡ slice_index (words self.old) word }
    {
        self.turn.read(self.seat, word)
    }

    /// Stores a word of the region, below the number of words, that is in no task of another seat. A stream that `streams` found ended in this holding is
    /// none. One store.
    pub fn store(&mut self, word: u32, value: u64)
        requires held { IsHeld self.old }
        requires inside { word < length (words self.old) }
        requires free { IsFreeOfOthers V.Kept (holder self.old).number (idle_of (holder self.old).found) word (taken self.old) }
        ensures held { IsHeld self.new × SameHolder self.old self.new }
        ensures same { (self.new.value ≡ self.old.value) × (self.new.ranges ≡ self.old.ranges) }
        ensures words { words self.new ≡ slice_set (words self.old) word value }
    {
        self.turn.write(self.seat, word, value);
    }

    /// Whether the seat with this number, from 1 to 65, has a stream: false exactly where its task word is 0 at this one load. Where it is, the value
    /// may strike a stream of that seat off at the release.
    pub fn streams(&mut self, seat: u32) -> bool
        requires held { IsHeld self.old }
        requires few { (0 < seat) × (seat ≤ word_seats) }
        ensures held { IsHeld self.new × (self.new.seat.ghost_name ≡ self.old.seat.ghost_name) × (self.new.turn.now ≡ self.old.turn.now) }
        ensures same { (self.new.value ≡ self.old.value) × (self.new.ranges ≡ self.old.ranges) }
        ensures found { holder self.new ≡ with_found (holder self.old) (found_word seat result ∷ (holder self.old).found) }
    {
        self.turn.read_task_word(self.seat, seat)
    }

    /// Gives the turn back, with the task that the seat then has. A task has to be listed for the seat with its ranges. The value has to be sound over the
    /// words, and to follow the one that was taken. Who begins a stream has a number of at most 65, and who had one at the take goes on with it. One
    /// store, and one more where a stream begins.
    pub fn release(self, task: Task)
        requires held { IsHeld self }
        requires sound { V.sound (words self) self.value }
        requires follows { Follows V.Kept (holder self).number (idle_of (holder self).found) (taken self) self.value }
        requires task { IsListed (holder self).number task (held_blocks self) (listed_for (holder self).number (V.tasks self.value)) }
        requires goes_on { (holder self).word_set ≡ true → is_stream task ≡ true }
        requires few { is_stream task ≡ true → (holder self).number ≤ word_seats }
        requires content { SpellsReleased V.Kept (with_word_set (holder self) (is_stream task)) self.value (words self) }
        ensures seated { IsSeatOf self.entry.turn.now self.exit.1.0.now }
        ensures view { view self.exit.1.0.now ≡ after_release V.Kept (with_word_set (holder self.entry) (is_stream task)) self.entry.value (words self.entry) }
        ensures ranges { self.exit.1.0.now.ranges ≡ self.entry.ranges }
    {
        let Held {
            turn,
            seat,
            value,
            ranges,
        } = self;
        if task.is_stream() && !seat.word_set {
            turn.set_task_word(seat);
        }
        turn.put_back(seat, value, ranges, task);
    }
}
