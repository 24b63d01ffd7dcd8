//! What a seat does outside the turn: it streams or fills the words of its blocks.

ghost use Rattle.std.specs.Prelude.{◌≡◌, ℕ, ◌+◌, ◌*◌, ◌<◌, ◌≤◌, ◌^◌, length, min, slice_index};
ghost use Rattle.qc_turn.specs.Blocks.{places};

use crate::kept::Kept;
use crate::lines::{region_index, task_index};
use crate::seat::Seat;
use crate::steps::{ClearsTaskWord, Filling, LoadsStreamed, StoresFilled};
use crate::task::Task;
use crate::turn::Turn;
use qc_chain::{Ranges, Run};
use std::marker::Brand;

/// The run that a load at this index belongs to: the one at hand, or where nothing is left of it the next one, up to the end of its block.
fn next_run(ranges: &Ranges, run: Run, index: u32) -> Run
    requires inside { index < length (places ranges.now.blocks) }
    requires small { (k : ℕ) → k < length (places ranges.now.blocks) → slice_index (places ranges.now.blocks) k < 2 ^ 32 }
    requires within { 0 < run.words → index + run.words ≤ length (places ranges.now.blocks) }
    requires places { (k : ℕ) → k < run.words → slice_index (places ranges.now.blocks) (index + k) ≡ run.first + k }
    ensures some { 0 < result.words }
    ensures within { index + result.words ≤ length (places ranges.now.blocks) }
    ensures places { (k : ℕ) → k < result.words → slice_index (places ranges.now.blocks) (index + k) ≡ result.first + k }
{
    if run.words != 0 {
        return run;
    }
    ranges.run(index)
}

impl<V: Kept> Seat<V> {
    ghost use Rattle.qc_turn.specs.declared.task.Task.TheVariants.{Stream};
    ghost use Rattle.qc_turn.specs.Bytes.{filled, filled_piece};
    ghost use Rattle.qc_turn.specs.Releases.{MayFill, MayFillPiece};
    ghost use Rattle.qc_turn.specs.Seats.{view, IsSeatOf};
    ghost use Rattle.qc_turn.specs.Views.{with_content, after_stream};

    /// The word of the stream at this index, below the words of its blocks. One load; finding the word costs the logarithm of the blocks.
    pub fn load_streamed(&mut self, turn: &Turn<V>, index: u32) -> u64
        requires seated { IsSeatOf turn.now self.old }
        requires streaming { (serial : ℕ) × ((view self.old).task ≡ Stream serial) }
        requires inside { index < length (places (view self.old).blocks) }
        ensures seated { IsSeatOf turn.now self.new × (view self.new ≡ view self.old) × (self.new.ranges ≡ self.old.ranges) }
        ensures word { result ≡ slice_index (view self.old).content index }
    {
        let word = self.ranges.word(index);
        self.load_place(turn, word)
    }

    /// The words of the stream from this index on, as many as there is room for; there have to be so many. Each word is a load of its own, and each run
    /// of words that stand together is found once.
    pub fn load_piece(&mut self, turn: &Turn<V>, index: u32, out: &mut [u64])
        requires seated { IsSeatOf turn.now self.old }
        requires streaming { (serial : ℕ) × ((view self.old).task ≡ Stream serial) }
        requires inside { index + length out.old ≤ length (places (view self.old).blocks) }
        ensures seated { IsSeatOf turn.now self.new × (view self.new ≡ view self.old) × (self.new.ranges ≡ self.old.ranges) }
        ensures len { length out.new ≡ length out.old }
        ensures words { (k : ℕ) → k < length out.old → slice_index out.new k ≡ slice_index (view self.old).content (index + k) }
    {
        let words = self.ranges.words();
        prove!(index as usize + out.len() <= words as usize);
        let mut run = Run { first: 0, words: 0 };
        for at in 0..out.len() {
            run = next_run(&self.ranges, run, index + at as u32);
            out[at] = self.load_place(turn, run.first);
            run.first += 1;
            run.words -= 1;
        }
    }

    /// A word of the region that the stream has.
    fn load_place(&mut self, turn: &Turn<V>, place: u32) -> u64
        requires seated { IsSeatOf turn.now self.old }
        requires streaming { (serial : ℕ) × ((view self.old).task ≡ Stream serial) }
        requires inside { place < (view self.old).size }
        ensures seated { IsSeatOf turn.now self.new × (view self.new ≡ view self.old) × (self.new.ranges ≡ self.old.ranges) }
        ensures word { (i : ℕ) → i < length (places (view self.old).blocks) → slice_index (places (view self.old).blocks) i ≡ place → result ≡ slice_index (view self.old).content i }
    {
        turn.table
            .shared
            .load::<LoadsStreamed>(&mut self.pass, region_index(place))
    }

    /// Ends the stream: one store of 0 into the seat's own task word. The seat then rests.
    pub fn clear_stream(&mut self, turn: &Turn<V>)
        requires seated { IsSeatOf turn.now self.old }
        requires streaming { (serial : ℕ) × ((view self.old).task ≡ Stream serial) }
        ensures seated { IsSeatOf turn.now self.new }
        ensures view { view self.new ≡ after_stream (view self.old) }
        ensures ranges { self.new.ranges ≡ self.old.ranges }
    {
        let word = task_index(turn.words, self.number);
        turn.table
            .shared
            .store::<ClearsTaskWord>(&mut self.pass, word, 0);
        self.task = Task::Rest;
        self.word_set = false;
    }

    /// Stores the word of the fill at this index, which then has so many bytes: those in front of the word, and then the first ones of the value. The
    /// fill reaches the word already, and its bytes have to fit by the journal that the seat has seen. One store; finding the word costs the logarithm
    /// of the blocks.
    pub fn store_filled(&mut self, turn: &Turn<V>, index: u32, value: u64, bytes: u32)
        requires seated { IsSeatOf turn.now self.old }
        requires filling { MayFill V.Kept (view self.old) index value bytes }
        ensures seated { IsSeatOf turn.now self.new }
        ensures view { view self.new ≡ with_content (view self.old) (filled (view self.old).content index value bytes) }
        ensures ranges { self.new.ranges ≡ self.old.ranges }
    {
        let word = self.ranges.word(index);
        self.store_place::<Brand>(turn, word, index, value, bytes);
    }

    /// Stores these values into the words of the fill from this index on, the first one first. The fill then has so many bytes: those in front of these
    /// words, and then the first ones of the values. It reaches the first of these words already, and each beginning of its bytes that reaches so far
    /// has to fit by the journal that the seat has seen. Each word is a store of its own, and each run of words that stand together is found once.
    pub fn store_piece(&mut self, turn: &Turn<V>, index: u32, values: &[u64], bytes: u32)
        requires seated { IsSeatOf turn.now self.old }
        requires filling { MayFillPiece V.Kept (view self.old) index values.now bytes }
        ensures seated { IsSeatOf turn.now self.new }
        ensures view { view self.new ≡ with_content (view self.old) (filled_piece (view self.old).content index values.now bytes) }
        ensures ranges { self.new.ranges ≡ self.old.ranges }
    {
        let words = self.ranges.words();
        prove!(index as usize + values.len() <= words as usize);
        let mut run = Run { first: 0, words: 0 };
        for at in 0..values.len() {
            let word = index + at as u32;
            run = next_run(&self.ranges, run, word);
            self.store_place::<Brand>(turn, run.first, word, values[at], bytes);
            run.first += 1;
            run.words -= 1;
        }
    }

    /// Stores a word of the region, which the fill has at this index. The fill then has so many bytes, but no more than up to the end of the word.
    fn store_place<N: Filling>(
        &mut self,
        turn: &Turn<V>,
        place: u32,
        index: u32,
        value: u64,
        bytes: u32,
    )
        requires seated { IsSeatOf turn.now self.old }
        requires filling { MayFill V.Kept (view self.old) index value (min (8 * index + 8) bytes) }
        requires place { slice_index (places (view self.old).blocks) index ≡ place }
        requires picks { (N.index ≡ index) × (N.count ≡ min (8 * index + 8) bytes) }
        ensures seated { IsSeatOf turn.now self.new }
        ensures view { view self.new ≡ with_content (view self.old) (filled (view self.old).content index value (min (8 * index + 8) bytes)) }
        ensures ranges { self.new.ranges ≡ self.old.ranges }
    {
        turn.table
            .shared
            .store::<StoresFilled<N>>(&mut self.pass, region_index(place), value);
    }
}
