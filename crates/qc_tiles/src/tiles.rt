//! The blocks of a region.

ghost use Rattle.std.specs.Prelude.{◌≡◌, ◌<◌, ◌≤◌, ◌%◌, true, false, length, Contains, IsTrue, ◌↔◌, IfOk, IfErr};
ghost use Rattle.std.specs.Result.{result_ok};
ghost use Rattle.qc_types.specs.Blocks.{raised};
ghost use Rattle.qc_tiles.specs.Tiles.{IsTiling, region_words, fresh, handed_out, taken, after_take, largest_free, trimmed, after_trim, after_give_back, after_pin, movable, after_move_down, totals_of};

use crate::blocks::{Block, LEAST_WORDS, Move, NoTile, block_of, free_tile, used_tile};
use crate::free_index::FreeIndex;
use crate::places::Places;
use crate::settle::{hand_out, settle};
use crate::walk::find_movable;
use qc_types::{NoMemory, Totals};
use std::alloc::Global;
use std::marker::Model;

/// The blocks of a region, in their order. Contracts see that list, which is always a tiling: the blocks cover the words from 0 on in order, each has 64
/// words or more, and no two free blocks touch. After `new` no call takes memory.
#[derive(Drop)]
pub struct Tiles {
    words: u32,
    places: Places,
    free: FreeIndex,
    /// No block that may move is just above a free block at a lower place than this.
    lowest: u32,
}

impl Model for Tiles {
    ghost use Rattle.std.specs.Prelude.{List};
    ghost use Rattle.qc_tiles.specs.declared.blocks.Tile.{Tile};
    ghost use Rattle.qc_tiles.specs.Ready.{IsReady};

    ghost Value = { List Tile };

    ghost view = { λ t. t.places };

    ghost invariant = { λ t. IsReady t.words t.places t.free t.lowest };
}

impl Tiles {
    /// A region of so many words in one free block. Fails where memory lacks; no other call takes any. Linear in the words, with about two bytes a word.
    pub fn new(alloc: Global, words: u32) -> Result<Tiles, NoMemory>
        requires whole { words % 128 ≡ 0 }
        requires most { words ≤ 8388608 }
        ensures tiles { IfOk result (λ tiles. tiles ≡ fresh words) }
        ensures tiling { IfOk result (λ tiles. IsTiling words tiles) }
    {
        let places = Places::new(alloc, words)?;
        let mut free = FreeIndex::new(alloc, words / LEAST_WORDS)?;
        if words > 0 {
            free.insert(Block { first: 0, words });
        }
        Ok(Tiles {
            words,
            places,
            free,
            lowest: 0,
        })
    }

    /// Hands out the front of the smallest free block that holds so many words, at least 64, and of equal ones the lowest. A rest below 64 words is
    /// handed out with it. Refused, with nothing changed, where every free block is smaller. Costs the logarithm of how many free blocks there are.
    pub fn take(&mut self, need: u32) -> Result<Block, NoTile>
        ensures block { result_ok result ≡ taken need self.old }
        ensures refusal { IfErr result (λ e. e ≡ record { need = raised need; largest = largest_free self.old }) }
        ensures tiles { self.new ≡ after_take need self.old }
        ensures tiling { IsTiling (region_words self.old) self.new }
    {
        let need = need.max(LEAST_WORDS);
        let Some(block) = self.free.first_from(need) else {
            return Err(NoTile {
                need,
                largest: self.free.largest(),
            });
        };
        let taken = hand_out(&mut self.places, &mut self.free, block, need);
        self.lowest = self.lowest.min(block.first);
        Ok(taken)
    }

    /// Cuts a block that is handed out to the words that are used, at least 64, where the rest has 64 words or more, and answers what is left of it. A
    /// pin stays. The rest becomes free, and is joined with a free block behind it. Costs the logarithm of how many free blocks there are.
    pub fn trim(&mut self, block: Block, used: u32) -> Block
        requires handed_out { Contains (handed_out self.old) block }
        requires some { 0 < used }
        requires most { used ≤ block.words }
        ensures block { result ≡ trimmed used block }
        ensures tiles { self.new ≡ after_trim block.first used self.old }
        ensures tiling { IsTiling (region_words self.old) self.new }
    {
        let wanted = used.max(LEAST_WORDS);
        let Some(tile) = self.places.get(block.first) else {
            unreachable!()
        };
        let rest = block.words - wanted;
        if rest < LEAST_WORDS {
            return block;
        }
        let left = Block {
            first: block.first,
            words: wanted,
        };
        let back = Block {
            first: block.first + wanted,
            words: rest,
        };
        self.places.cut(
            used_tile(left, tile.pinned),
            free_tile(back.first, back.words),
        );
        let whole = settle(&mut self.places, &mut self.free, back);
        self.lowest = self.lowest.min(block.first).min(whole.first);
        left
    }

    /// Makes a block that is handed out free, unpinned, and one with its free neighbours. Costs the logarithm of how many free blocks there are.
    pub fn give_back(&mut self, block: Block)
        requires { Contains (handed_out self.old) block }
        ensures tiles { self.new ≡ after_give_back block.first self.old }
        ensures tiling { IsTiling (region_words self.old) self.new }
    {
        self.places.change(free_tile(block.first, block.words));
        let whole = settle(&mut self.places, &mut self.free, block);
        self.lowest = self.lowest.min(block.first).min(whole.first);
    }

    /// Pins a block that is handed out, so that it isn't moved.
    pub fn pin(&mut self, block: Block)
        requires { Contains (handed_out self.old) block }
        ensures tiles { self.new ≡ after_pin true block.first self.old }
        ensures tiling { IsTiling (region_words self.old) self.new }
    {
        self.places.change(used_tile(block, true));
        self.lowest = self.lowest.min(block.first);
    }

    /// Lets a block that is handed out be moved again.
    pub fn unpin(&mut self, block: Block)
        requires { Contains (handed_out self.old) block }
        ensures tiles { self.new ≡ after_pin false block.first self.old }
        ensures tiling { IsTiling (region_words self.old) self.new }
    {
        let from = match self.places.before(block) {
            Some(lower) => lower.first,
            None => block.first,
        };
        self.places.change(used_tile(block, false));
        self.lowest = self.lowest.min(from);
    }

    /// Moves the lowest block that is handed out, isn't pinned and has a free block just below it, down to the front of that block. None, with nothing
    /// changed, exactly where there is no such block. The caller moves the words themselves. Calls until None walk over each block about once in all.
    pub fn move_down(&mut self) -> Option<Move>
        ensures change { result ≡ movable self.old }
        ensures tiles { self.new ≡ after_move_down self.old }
        ensures tiling { IsTiling (region_words self.old) self.new }
    {
        let (below, tile) = find_movable(&self.places, self.lowest)?;
        let (lower, upper) = (block_of(below), block_of(tile));
        self.free.remove(lower);
        self.places.join(lower, upper);
        let moved = Block {
            first: lower.first,
            words: upper.words,
        };
        let back = Block {
            first: lower.first + upper.words,
            words: lower.words,
        };
        self.places
            .cut(used_tile(moved, false), free_tile(back.first, back.words));
        let whole = settle(&mut self.places, &mut self.free, back);
        self.lowest = lower.first.min(whole.first);
        Some(Move {
            from: upper.first,
            to: lower.first,
            words: upper.words,
        })
    }

    /// Whether exactly this block is handed out.
    pub fn is_handed_out(&self, block: Block) -> bool
        ensures { IsTrue result ↔ Contains (handed_out self.now) block }
    {
        match self.places.get(block.first) {
            Some(tile) => tile.words == block.words && !tile.free,
            None => false,
        }
    }

    /// How many words the region has.
    pub fn words(&self) -> u32
        ensures words { result ≡ region_words self.now }
        ensures tiling { IsTiling result self.now }
    {
        self.words
    }

    /// How many blocks there are, how many of them are free, and the words of these.
    pub fn totals(&self) -> Totals
        ensures { result ≡ totals_of self.now }
    {
        Totals {
            blocks: self.places.count(),
            free_blocks: self.free.count(),
            free_words: self.free.words(),
        }
    }

    /// The words of the largest free block, or 0 where there is none. Costs the logarithm of how many free blocks there are.
    pub fn largest(&self) -> u32
        ensures { result ≡ largest_free self.now }
    {
        self.free.largest()
    }
}
