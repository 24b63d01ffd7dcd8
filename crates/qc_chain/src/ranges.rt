//! The blocks of a chain, as a seat keeps them to read or fill their words.

ghost use Rattle.std.specs.Prelude.{◌≡◌, ℕ, ◌+◌, ◌<◌, ◌≤◌, ◌^◌, [], ◌∷◌, ◌++◌, length, slice_get, slice_index, Some, IfOk};
ghost use Rattle.qc_chain.specs.Words.{words_of, word_at};
ghost use Rattle.qc_chain.specs.Ends.{AreRising, start_at};

use qc_tiles::Block;
use qc_types::NoMemory;
use std::alloc::Global;
use std::marker::Model;

/// A list of blocks and a byte length, with room for a number of blocks that is taken once. Contracts see the three.
#[derive(Debug, Drop)]
pub struct Ranges {
    blocks: Vec<Block>,
    /// For each block the words up to its end, counted through the blocks.
    ends: Vec<u32>,
    bytes: u32,
    room: u32,
}

impl Model for Ranges {
    ghost use Rattle.std.specs.Prelude.{vec_capacity};
    ghost use Rattle.qc_chain.specs.Chains.{Ranged};
    ghost use Rattle.qc_chain.specs.Ends.{IsEnded};

    ghost Value = { Ranged };

    ghost view = { λ r. record { blocks = r.blocks.items; bytes = r.bytes; room = r.room } };

    ghost invariant = { λ r. IsEnded r.blocks.items r.ends.items r.room (vec_capacity r.blocks) (vec_capacity r.ends) };
}

impl Ranges {
    /// No blocks and no bytes, with room for so many blocks. Fails where memory lacks; no other call takes any.
    pub fn new(alloc: Global, room: u32) -> Result<Ranges, NoMemory>
        ensures { IfOk result (λ r. r ≡ record { blocks = []; bytes = 0; room = room }) }
    {
        let blocks = Vec::with_capacity(alloc, room as usize)?;
        let ends = Vec::with_capacity(alloc, room as usize)?;
        Ok(Ranges {
            blocks,
            ends,
            bytes: 0,
            room,
        })
    }

    /// No blocks and no bytes, and no room. It takes no memory.
    pub fn empty(alloc: Global) -> Ranges
        ensures { result ≡ record { blocks = []; bytes = 0; room = 0 } }
    {
        Ranges {
            blocks: Vec::new(alloc),
            ends: Vec::new(alloc),
            bytes: 0,
            room: 0,
        }
    }

    /// How many blocks there is room for in all. Constant time.
    pub fn room(&self) -> u32
        ensures { result ≡ self.now.room }
    {
        self.room
    }

    /// Takes the blocks out and makes the byte length 0. The room stays.
    pub fn clear(&mut self)
        ensures { self.new ≡ record self.old { blocks = []; bytes = 0 } }
    {
        self.blocks.clear();
        self.ends.clear();
        self.bytes = 0;
    }

    /// Puts a block at the end. The words of all blocks together stay below 2^32.
    pub(crate) fn push(&mut self, block: Block)
        requires room { length self.old.blocks < self.old.room }
        requires words { words_of self.old.blocks + block.words < 2 ^ 32 }
        ensures { self.new ≡ record self.old { blocks = self.old.blocks ++ block ∷ [] } }
    {
        let words = last_end(self.ends.as_slice());
        self.blocks.push_reserved(block);
        self.ends.push_reserved(words + block.words);
    }

    /// Sets the byte length.
    pub(crate) fn set_bytes(&mut self, bytes: u32)
        ensures { self.new ≡ record self.old { bytes = bytes } }
    {
        self.bytes = bytes;
    }

    /// How many blocks there are.
    pub fn blocks(&self) -> u32
        ensures { result ≡ length self.now.blocks }
    {
        self.blocks.len() as u32
    }

    /// The block with that index, from 0.
    pub fn block(&self, index: u32) -> Block
        requires { index < length self.now.blocks }
        ensures { slice_get self.now.blocks index ≡ Some result }
    {
        self.blocks[index as usize]
    }

    /// The byte length.
    pub fn bytes(&self) -> u32
        ensures { result ≡ self.now.bytes }
    {
        self.bytes
    }

    /// The words of the blocks together.
    pub fn words(&self) -> u32
        ensures { result ≡ words_of self.now.blocks }
    {
        last_end(self.ends.as_slice())
    }

    /// The region's word at that index, counted from 0 through the blocks in order, where 32 bits hold its place. Costs the logarithm of the blocks.
    pub fn word(&self, index: u32) -> u32
        requires { index < words_of self.now.blocks }
        ensures { word_at index self.now.blocks < 2 ^ 32 → result ≡ word_at index self.now.blocks }
    {
        let at = count_up_to(self.ends.as_slice(), index);
        let start = start_at(self.ends.as_slice(), at);
        self.blocks[at].first.wrapping_add(index - start)
    }

    /// The words from that index on, up to the end of the block that it is in, where 32 bits hold their places. Costs the logarithm of the blocks.
    pub fn run(&self, index: u32) -> Run
        requires { index < words_of self.now.blocks }
        ensures some { 0 < result.words }
        ensures within { index + result.words ≤ words_of self.now.blocks }
        ensures places { (k : ℕ) → k < result.words → word_at (index + k) self.now.blocks < 2 ^ 32 → word_at (index + k) self.now.blocks ≡ result.first + k }
    {
        let at = count_up_to(self.ends.as_slice(), index);
        let start = start_at(self.ends.as_slice(), at);
        let first = self.blocks[at].first.wrapping_add(index - start);
        let words = self.ends[at] - index;
        Run { first, words }
    }
}

/// Words of the region that stand together: what is left of a block from one of its words on.
#[derive(Clone, Copy, Debug, PartialEq, Eq)]
pub struct Run {
    /// The place of its first word.
    pub first: u32,
    /// How many words it has, 1 or more.
    pub words: u32,
}

/// The last end, or 0 where there is none.
fn last_end(ends: &[u32]) -> u32
    ensures none { length ends.now ≡ 0 → result ≡ 0 }
    ensures last { (k : ℕ) → length ends.now ≡ k + 1 → result ≡ slice_index ends.now k }
{
    let count = ends.len();
    if count == 0 { 0 } else { ends[count - 1] }
}

/// Where the block with an index starts.
fn start_at(ends: &[u32], at: usize) -> u32
    requires { at ≤ length ends.now }
    ensures { result ≡ start_at 0 ends.now at }
{
    if at == 0 { 0 } else { ends[at - 1] }
}

/// How many ends are not above an index, by halving.
fn count_up_to(ends: &[u32], index: u32) -> usize
    requires { AreRising ends.now }
    ensures within { result ≤ length ends.now }
    ensures before { (k : ℕ) → k < result → slice_index ends.now k ≤ index }
    ensures after { (k : ℕ) → result ≤ k → k < length ends.now → index < slice_index ends.now k }
{
    let mut low = 0;
    let mut high = ends.len();
    while low < high {
        let middle = low + (high - low) / 2;
        if ends[middle] <= index {
            low = middle + 1;
        } else {
            high = middle;
        }
    }
    low
}
