//! Chains of blocks under their names.

ghost use Rattle.std.specs.Prelude.{◌≡◌, ℕ, ◌+◌, ◌-◌, ◌*◌, ◌/◌, ◌<◌, ◌≤◌, ◌^◌, ◌∷◌, [], map, length, slice_set, slice_get, slice_index_or, Contains, IsTrue, ◌↔◌, Some, None, option_map, IfOk};
ghost use Rattle.qc_tiles.specs.Tiles.{IsTiling, region_words};
ghost use Rattle.qc_chain.specs.Words.{words_of, word_at, spot_at};
ghost use Rattle.qc_chain.specs.Chains.{Chain, Begun, IsFit, AreHandedOut, EndsInLast, no_chains, chain_at, extent_of, empty_chain, with_chain, after_append, after_shift, after_release, used_words, cut_chain, after_cut};
ghost use Rattle.qc_chain.specs.Stored.{extent_at};

use crate::block_lists::BlockLists;
use crate::names::{ChainName, Extent, Spot};
use crate::ranges::Ranges;
use crate::walks::{give_back_all, place_of, push_blocks};
use qc_tiles::{Block, Move, Tiles};
use qc_types::NoMemory;
use std::alloc::Global;
use std::marker::Model;

/// Chains of blocks under their names, each with a byte length. Contracts see the chains by their numbers, and how many more blocks there is room for.
/// After `new` no call takes memory.
#[derive(Drop)]
pub struct Chains {
    /// How much each chain has that was begun, by its number.
    extents: Vec<Option<Extent>>,
    /// The names that no chain has.
    free: Vec<u32>,
    blocks: BlockLists,
}

impl Model for Chains {
    ghost use Rattle.std.specs.Prelude.{vec_capacity};
    ghost use Rattle.qc_chain.specs.Chains.{Chained};
    ghost use Rattle.qc_chain.specs.Views.{chained};
    ghost use Rattle.qc_chain.specs.Stored.{lengths_of, IsStored};

    ghost Value = { Chained };

    ghost view = { λ c. chained (lengths_of c.extents.items) c.blocks.lists c.blocks.room };

    ghost invariant = { λ c. IsStored c.extents.items c.free.items (vec_capacity c.free) c.blocks };
}

impl Chains {
    /// No chains, and room for so many blocks in all; as many names are free. Fails where memory lacks, or where there are more than 268,435,456 blocks; no
    /// other call takes memory. Costs their number.
    pub fn new(alloc: Global, blocks: u32) -> Result<Chains, NoMemory>
        ensures { IfOk result (λ c. c ≡ no_chains blocks) }
    {
        let mut extents = Vec::with_capacity(alloc, blocks as usize)?;
        let mut free = Vec::with_capacity(alloc, blocks as usize)?;
        for number in 0..blocks {
            extents.push_reserved(None);
            free.push_reserved(number);
        }
        let blocks = BlockLists::new(alloc, blocks)?;
        Ok(Chains {
            extents,
            free,
            blocks,
        })
    }

    /// Whether a name is free, so that a chain may be begun.
    pub fn has_free_name(&self) -> bool
        ensures { IsTrue result ↔ Contains self.now.chains None }
    {
        !self.free.is_empty()
    }

    /// How many more blocks there is room for.
    pub fn room(&self) -> u32
        ensures { result ≡ self.now.room }
    {
        self.blocks.room()
    }

    /// How much a chain has: at most 8,388,608 words, and no more bytes than its words hold. None exactly where no chain of that name was begun, or where it
    /// was released.
    pub fn extent(&self, chain: ChainName) -> Option<Extent>
        ensures extent { result ≡ option_map extent_of (chain_at chain.number self.now) }
        ensures fit { (held : Chain) → Begun chain.number self.now held → IsFit held.blocks held.bytes }
    {
        extent_at(self.extents.as_slice(), chain.number)
    }

    /// Begins a chain with no blocks and no bytes, under a free name. Constant time.
    pub fn begin(&mut self) -> ChainName
        requires { Contains self.old.chains None }
        ensures free { slice_get self.old.chains result.number ≡ Some None }
        ensures begun { self.new ≡ with_chain result.number (Some empty_chain) self.old }
    {
        let Some(number) = self.free.pop() else {
            unreachable!()
        };
        self.extents[number as usize] = Some(Extent {
            blocks: 0,
            words: 0,
            bytes: 0,
        });
        ChainName { number }
    }

    /// Puts a block at the end of a chain, whose byte length is then that of all its words. Constant time, as far as the
    /// blocks' places spread.
    pub fn append_block(&mut self, chain: ChainName, block: Block)
        requires begun { (held : Chain) × Begun chain.number self.old held × (words_of held.blocks + block.words ≤ 8388608) }
        requires room { 0 < self.old.room }
        ensures { (held : Chain) → Begun chain.number self.old held → self.new ≡ after_append chain.number block held self.old }
    {
        let Some(extent) = extent_at(self.extents.as_slice(), chain.number) else {
            unreachable!()
        };
        self.blocks.append(chain.number, block);
        let words = extent.words + block.words;
        self.extents[chain.number as usize] = Some(Extent {
            blocks: extent.blocks + 1,
            words,
            bytes: 8 * words,
        });
    }

    /// Where a byte of a chain stands, counted through its blocks in order, where 32 bits hold its word's place. Costs the blocks in front of it.
    pub fn spot(&self, chain: ChainName, byte: u32) -> Spot
        requires { (held : Chain) × Begun chain.number self.now held × (byte < held.bytes) }
        ensures { (held : Chain) → Begun chain.number self.now held → word_at (byte / 8) held.blocks < 2 ^ 32 → result ≡ spot_at byte held.blocks }
    {
        Spot {
            word: place_of(&self.blocks, chain.number, byte / 8),
            byte: (byte % 8) as u8,
        }
    }

    /// Makes the ranges those of a chain: its blocks, and its byte length. Costs the chain's blocks.
    pub fn ranges(&self, chain: ChainName, out: &mut Ranges)
        requires { (held : Chain) × Begun chain.number self.now held × (length held.blocks ≤ out.old.room) }
        ensures ranges { (held : Chain) → Begun chain.number self.now held → out.new ≡ record { blocks = held.blocks; bytes = held.bytes; room = out.old.room } }
        ensures fit { (held : Chain) → Begun chain.number self.now held → IsFit held.blocks held.bytes }
    {
        let Some(extent) = extent_at(self.extents.as_slice(), chain.number) else {
            unreachable!()
        };
        out.clear();
        push_blocks(&self.blocks, chain.number, out);
        out.set_bytes(extent.bytes);
    }

    /// Follows a block that moved, in whatever chain it is. Constant time for each block that stood at the place, as far as the blocks' places spread.
    pub fn shift(&mut self, change: Move)
        ensures { self.new ≡ after_shift change self.old }
    {
        if change.from != change.to {
            self.blocks.shift(change);
        }
    }

    /// Gives a chain's blocks back to the tiles, and its name. The blocks are handed out there, and stand in the chain once each. Costs the chain's
    /// blocks.
    pub fn release(&mut self, chain: ChainName, tiles: &mut Tiles)
        requires { (held : Chain) × Begun chain.number self.old held × AreHandedOut tiles.old held.blocks }
        ensures chains { (held : Chain) → Begun chain.number self.old held → self.new ≡ record { chains = slice_set self.old.chains chain.number None; room = self.old.room + length held.blocks } }
        ensures tiles { (held : Chain) → Begun chain.number self.old held → tiles.new ≡ after_release held.blocks tiles.old }
        ensures tiling { IsTiling (region_words tiles.old) tiles.new }
    {
        give_back_all(&mut self.blocks, chain.number, tiles);
        self.extents[chain.number as usize] = None;
        self.free.push_reserved(chain.number);
    }

    /// Cuts a chain to so many bytes, which end in its last block: that one is trimmed to the words that they use. The blocks are handed out in the
    /// tiles, and stand in the chain once each. Costs what `Tiles::trim` does.
    pub fn trim_last(&mut self, chain: ChainName, bytes: u32, tiles: &mut Tiles)
        requires { (held : Chain) × Begun chain.number self.old held × AreHandedOut tiles.old held.blocks × EndsInLast held.blocks bytes }
        ensures chains { (held : Chain) → Begun chain.number self.old held → self.new ≡ with_chain chain.number (Some (cut_chain bytes held)) self.old }
        ensures tiles { (held : Chain) → Begun chain.number self.old held → tiles.new ≡ after_cut (used_words held.blocks bytes) held.blocks tiles.old }
        ensures tiling { IsTiling (region_words tiles.old) tiles.new }
    {
        let Some(extent) = extent_at(self.extents.as_slice(), chain.number) else {
            unreachable!()
        };
        let Some(last) = self.blocks.last(chain.number) else {
            unreachable!()
        };
        let before = extent.words - last.words;
        let left = tiles.trim(last, bytes.div_ceil(8) - before);
        self.blocks.cut_last(chain.number, left.words);
        self.extents[chain.number as usize] = Some(Extent {
            blocks: extent.blocks,
            words: before + left.words,
            bytes,
        });
    }
}

/// How much a chain has. None where there is no such chain.
fn extent_at(extents: &[Option<Extent>], chain: u32) -> Option<Extent>
    ensures { result ≡ extent_at chain extents.now }
{
    match extents.get(chain as usize) {
        Some(extent) => *extent,
        None => None,
    }
}
