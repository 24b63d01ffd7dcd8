//! Where the blocks of a region begin and end.

ghost use Rattle.std.specs.Prelude.{◌≡◌, ℕ, ◌+◌, ◌/◌, ◌≤◌, ◌%◌, ◌∷◌, ◌++◌, length, take, drop, slice_set, IfOk};
ghost use Rattle.qc_tiles.specs.Cells.{IsAt, block_at, lower_of};
ghost use Rattle.qc_tiles.specs.Tiles.{free_tile, fresh};

use crate::blocks::{Block, LEAST_WORDS, Tile, free_tile};
use qc_types::NoMemory;
use std::alloc::Global;
use std::marker::Model;

/// The blocks of a region, in their order, in a table of cells of 64 words. No two blocks begin in one cell, and no two end in one. Contracts see the
/// list of the blocks. All calls but `new` cost the same whatever the region, and take no memory.
#[derive(Drop)]
pub(crate) struct Places {
    /// The block that begins in the cell, if any.
    starts: Vec<Option<Tile>>,
    /// The first word of the block that ends in the cell. Any number where none does.
    ends: Vec<u32>,
    count: u32,
}

impl Model for Places {
    ghost use Rattle.std.specs.Prelude.{List};
    ghost use Rattle.qc_tiles.specs.declared.blocks.Tile.{Tile};
    ghost use Rattle.qc_tiles.specs.Cells.{begun, IsPlaced};

    ghost Value = { List Tile };

    ghost view = { λ p. begun p.starts.items };

    ghost invariant = { λ p. IsPlaced p.starts.items p.ends.items p.count };
}

impl Places {
    /// A region of so many words in one free block.
    pub(crate) fn new(alloc: Global, words: u32) -> Result<Places, NoMemory>
        requires whole { words % 128 ≡ 0 }
        requires most { words ≤ 8388608 }
        ensures { IfOk result (λ tiles. tiles ≡ fresh words) }
    {
        let cells = (words / LEAST_WORDS) as usize;
        let mut starts = Vec::with_capacity(alloc, cells)?;
        let mut ends = Vec::with_capacity(alloc, cells)?;
        if cells == 0 {
            return Ok(Places {
                starts,
                ends,
                count: 0,
            });
        }
        starts.push_reserved(Some(free_tile(0, words)));
        ends.push_reserved(0);
        for n in 1..cells {
            starts.push_reserved(None);
            ends.push_reserved(0);
        }
        Ok(Places {
            starts,
            ends,
            count: 1,
        })
    }

    /// The block that begins at that word.
    pub(crate) fn get(&self, first: u32) -> Option<Tile>
        ensures { result ≡ block_at first self.now }
    {
        let cell = cell_of(first);
        if cell >= self.starts.len() {
            return None;
        }
        let tile = self.starts[cell]?;
        if tile.first != first {
            return None;
        }
        Some(tile)
    }

    /// The block in front of this one.
    pub(crate) fn before(&self, block: Block) -> Option<Tile>
        requires { (k : ℕ) × IsAt self.now k block.first block.words }
        ensures { (k : ℕ) → IsAt self.now k block.first block.words → result ≡ lower_of k self.now }
    {
        let ends = self.ends.as_slice();
        if block.first == 0 {
            return None;
        }
        let below = ends[cell_of(block.first - 1)];
        self.get(below)
    }

    /// Puts a block in the place of the one with the same words.
    pub(crate) fn change(&mut self, tile: Tile)
        requires { (k : ℕ) × IsAt self.old k tile.first tile.words }
        ensures { (k : ℕ) → IsAt self.old k tile.first tile.words → self.new ≡ slice_set self.old k tile }
    {
        self.starts[cell_of(tile.first)] = Some(tile);
    }

    /// Puts two blocks, one behind the other, in the place of one.
    pub(crate) fn cut(&mut self, front: Tile, back: Tile)
        requires at { (k : ℕ) × IsAt self.old k front.first (front.words + back.words) }
        requires behind { back.first ≡ front.first + front.words }
        requires front_large { 64 ≤ front.words }
        requires back_large { 64 ≤ back.words }
        ensures { (k : ℕ) → IsAt self.old k front.first (front.words + back.words) → self.new ≡ take k self.old ++ (front ∷ back ∷ drop (k + 1) self.old) }
    {
        self.starts[cell_of(front.first)] = Some(front);
        self.ends[cell_of(back.first - 1)] = front.first;
        self.starts[cell_of(back.first)] = Some(back);
        self.ends[cell_of(back.first + (back.words - 1))] = back.first;
        self.count += 1;
    }

    /// Makes a block and the one behind it one free block.
    pub(crate) fn join(&mut self, lower: Block, upper: Block)
        requires { (k : ℕ) × IsAt self.old k lower.first lower.words × IsAt self.old (k + 1) upper.first upper.words }
        ensures { (k : ℕ) → IsAt self.old k lower.first lower.words → IsAt self.old (k + 1) upper.first upper.words → self.new ≡ take k self.old ++ (free_tile lower.first (lower.words + upper.words) ∷ drop (k + 2) self.old) }
    {
        self.starts[cell_of(upper.first)] = None;
        let joined = free_tile(lower.first, lower.words + upper.words);
        self.starts[cell_of(lower.first)] = Some(joined);
        self.ends[cell_of(upper.first + (upper.words - 1))] = lower.first;
        self.count -= 1;
    }

    /// How many blocks there are.
    pub(crate) fn count(&self) -> u32
        ensures { result ≡ length self.now }
    {
        self.count
    }
}

/// The cell in which a word is.
fn cell_of(word: u32) -> usize
    ensures { result ≡ word / 64 }
{
    (word / LEAST_WORDS) as usize
}
