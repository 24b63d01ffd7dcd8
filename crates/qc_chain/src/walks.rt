//! What is done with each block of a chain.

ghost use Rattle.std.specs.Prelude.{◌≡◌, ◌+◌, ◌<◌, ◌≤◌, ◌^◌, [], length};
ghost use Rattle.qc_tiles.specs.Tiles.{IsTiling, region_words};
ghost use Rattle.qc_chain.specs.Words.{words_of, word_at};
ghost use Rattle.qc_chain.specs.Chains.{AreHandedOut, after_release};
ghost use Rattle.qc_chain.specs.Views.{blocks_of, Removes};

use crate::block_lists::BlockLists;
use crate::ranges::Ranges;
use qc_tiles::Tiles;

/// Puts a chain's blocks into the ranges.
pub(crate) fn push_blocks(blocks: &BlockLists, chain: u32, out: &mut Ranges)
    requires chain { chain < length blocks.now.lists }
    requires empty { out.old.blocks ≡ [] }
    requires room { length (blocks_of chain blocks.now.lists) ≤ out.old.room }
    requires words { words_of (blocks_of chain blocks.now.lists) < 2 ^ 32 }
    ensures { out.new ≡ record out.old { blocks = blocks_of chain blocks.now.lists } }
{
    let mut walk = blocks.walk(chain);
    while let Some(block) = walk.next() {
        out.push(block);
    }
}

/// The place of a chain's word, by its index.
pub(crate) fn place_of(blocks: &BlockLists, chain: u32, word: u32) -> u32
    requires chain { chain < length blocks.now.lists }
    requires within { word < words_of (blocks_of chain blocks.now.lists) }
    ensures { word_at word (blocks_of chain blocks.now.lists) < 2 ^ 32 → result ≡ word_at word (blocks_of chain blocks.now.lists) }
{
    let mut left = word;
    let mut walk = blocks.walk(chain);
    while let Some(block) = walk.next() {
        if left < block.words {
            return block.first.wrapping_add(left);
        }
        left -= block.words;
    }
    unreachable!()
}

/// Gives a chain's blocks back, the first one first.
pub(crate) fn give_back_all(blocks: &mut BlockLists, chain: u32, tiles: &mut Tiles)
    requires chain { chain < length blocks.old.lists }
    requires handed_out { AreHandedOut tiles.old (blocks_of chain blocks.old.lists) }
    ensures removed { Removes chain blocks.old.lists blocks.new.lists }
    ensures lists { length blocks.new.lists ≡ length blocks.old.lists }
    ensures room { blocks.new.room ≡ blocks.old.room + length (blocks_of chain blocks.old.lists) }
    ensures tiles { tiles.new ≡ after_release (blocks_of chain blocks.old.lists) tiles.old }
    ensures tiling { IsTiling (region_words tiles.old) tiles.new }
{
    // The blocks tile so many words, so no two of them stand at one place.
    let _ = tiles.words();
    while let Some(block) = blocks.pop_first(chain) {
        tiles.give_back(block);
    }
}
