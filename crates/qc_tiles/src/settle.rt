//! A block that becomes free, or is handed out, among others.

ghost use Rattle.std.specs.Prelude.{◌≡◌, ℕ};
ghost use Rattle.qc_tiles.specs.Settled.{IsHole, IsFree, HandsOut, WithUpper, WithLower, Settles};

use crate::blocks::{Block, LEAST_WORDS, block_of, free_tile, used_tile};
use crate::free_index::FreeIndex;
use crate::places::Places;

/// Joins a free block that isn't in the index yet with its free neighbours, puts the whole into the index, and answers it.
pub(crate) fn settle(places: &mut Places, free: &mut FreeIndex, block: Block) -> Block
    requires { (words : ℕ) × (k : ℕ) × IsHole words places.old free.old block k }
    ensures { (words k : ℕ) → IsHole words places.old free.old block k → Settles words k places.old places.new free.new result }
{
    let block = join_upper(places, free, block);
    let block = join_lower(places, free, block);
    free.insert(block);
    block
}

/// Joins it with the block above it, where that one is free.
fn join_upper(places: &mut Places, free: &mut FreeIndex, block: Block) -> Block
    requires { (words : ℕ) × (k : ℕ) × IsHole words places.old free.old block k }
    ensures { (words k : ℕ) → IsHole words places.old free.old block k → WithUpper words k places.old places.new free.new result }
{
    let Some(upper) = places.get(block.first + block.words) else {
        return block;
    };
    if !upper.free {
        return block;
    }
    let upper = block_of(upper);
    free.remove(upper);
    places.join(block, upper);
    Block {
        first: block.first,
        words: block.words + upper.words,
    }
}

/// Joins it with the block below it, where that one is free.
fn join_lower(places: &mut Places, free: &mut FreeIndex, block: Block) -> Block
    requires { (words : ℕ) × (k : ℕ) × IsHole words places.old free.old block k }
    ensures { (words k : ℕ) → IsHole words places.old free.old block k → WithLower words k places.old places.new free.new result }
{
    let Some(lower) = places.before(block) else {
        return block;
    };
    if !lower.free {
        return block;
    }
    let lower = block_of(lower);
    free.remove(lower);
    places.join(lower, block);
    Block {
        first: lower.first,
        words: lower.words + block.words,
    }
}

/// Hands out so many words at the front of a free block, or the whole block where fewer than 64 words would be left.
pub(crate) fn hand_out(
    places: &mut Places,
    free: &mut FreeIndex,
    block: Block,
    wanted: u32,
) -> Block
    requires { (words : ℕ) × (k : ℕ) × IsFree words places.old free.old block k wanted }
    ensures { (words k : ℕ) → IsFree words places.old free.old block k wanted → HandsOut words k wanted places.old places.new free.new block result }
{
    free.remove(block);
    let rest = block.words - wanted;
    if rest < LEAST_WORDS {
        places.change(used_tile(block, false));
        return block;
    }
    let front = Block {
        first: block.first,
        words: wanted,
    };
    let back = Block {
        first: block.first + wanted,
        words: rest,
    };
    places.cut(used_tile(front, false), free_tile(back.first, back.words));
    free.insert(back);
    front
}
