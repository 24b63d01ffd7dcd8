//! Blocks by size that stand together in memory.

ghost use Rattle.std.specs.Prelude.{◌≡◌, ◌+◌, ◌/◌, ◌≤◌, ◌<◌, [], ◌∷◌, ◌++◌, length, take, drop, IfOk};
ghost use Rattle.qc_tiles.specs.Sizes.{Parts, first_of, is_smaller, last_of};

use crate::blocks::Block;
use qc_types::NoMemory;
use std::alloc::Global;
use std::marker::Model;

/// How many blocks a piece has room for.
const ROOM: usize = 384;

/// Some blocks in the order of their size, and of their place where they are equally large. Contracts see their list. No call but `new` takes memory. A
/// look-up halves them again and again, and a change moves those behind it.
#[derive(Drop)]
pub(crate) struct Piece {
    blocks: Vec<Block>,
}

impl Model for Piece {
    ghost use Rattle.std.specs.Prelude.{◌≤◌, List, vec_capacity};
    ghost use Rattle.qc_tiles.specs.declared.blocks.Block.{Block};

    ghost Value = { List Block };

    ghost view = { λ p. p.blocks.items };

    ghost invariant = { λ p. 384 ≤ vec_capacity p.blocks };
}

impl Piece {
    /// No blocks yet, and room for 384.
    pub(crate) fn new(alloc: Global) -> Result<Piece, NoMemory>
        ensures { IfOk result (λ p. p ≡ []) }
    {
        Ok(Piece {
            blocks: Vec::with_capacity(alloc, ROOM)?,
        })
    }

    /// How many blocks there are.
    pub(crate) fn len(&self) -> usize
        ensures { result ≡ length self.now }
    {
        self.blocks.len()
    }

    /// The largest block, and of equal ones the one at the highest place.
    pub(crate) fn last(&self) -> Option<Block>
        ensures { result ≡ last_of self.now }
    {
        self.blocks.last().copied()
    }

    /// Puts a block behind those that are smaller.
    pub(crate) fn insert(&mut self, block: Block)
        requires { length self.old < 384 }
        ensures { Parts block.first block.words self.old (λ low high. self.new ≡ low ++ block ∷ high) }
    {
        let at = self.point(block);
        let Ok(()) = self.blocks.insert(at, block) else {
            unreachable!()
        };
    }

    /// Takes out the first block that isn't smaller, if any.
    pub(crate) fn remove_from(&mut self, block: Block)
        ensures { Parts block.first block.words self.old (λ low high. self.new ≡ low ++ drop 1 high) }
    {
        let at = self.point(block);
        if at < self.blocks.len() {
            let _ = self.blocks.remove(at);
        }
    }

    /// The first block that isn't smaller, if any.
    pub(crate) fn first_from(&self, block: Block) -> Option<Block>
        ensures { Parts block.first block.words self.now (λ low high. result ≡ first_of high) }
    {
        self.blocks.get(self.point(block)).copied()
    }

    /// Moves the upper half to another piece, in place of what stood there.
    pub(crate) fn cut(&mut self, upper: &mut Piece)
        requires { length self.old ≤ 384 }
        ensures lower { self.new ≡ take (length self.old / 2) self.old }
        ensures upper { upper.new ≡ drop (length self.old / 2) self.old }
    {
        let half = self.blocks.len() / 2;
        upper.blocks.clear();
        let Ok(()) = upper.blocks.extend_from_slice(&self.blocks[half..]) else {
            unreachable!()
        };
        self.blocks.truncate(half);
    }

    /// Puts the blocks of another piece behind these.
    pub(crate) fn append(&mut self, upper: &Piece)
        requires { length self.old + length upper.now ≤ 384 }
        ensures { self.new ≡ self.old ++ upper.now }
    {
        let Ok(()) = self.blocks.extend_from_slice(&upper.blocks) else {
            unreachable!()
        };
    }

    /// How many blocks are smaller.
    fn point(&self, block: Block) -> usize
        ensures at { Parts block.first block.words self.now (λ low high. result ≡ length low) }
        ensures within { result ≤ length self.now }
    {
        self.blocks.partition_point(
            |other: &Block| -> bool
                ensures { result ≡ is_smaller block.first block.words other.now }
            { is_smaller(*other, block) },
        )
    }
}

/// Whether a block is smaller than another one, or as large and at a lower place.
pub(crate) fn is_smaller(block: Block, than: Block) -> bool
    ensures { result ≡ is_smaller than.first than.words block }
{
    block.words < than.words || block.words == than.words && block.first < than.first
}
