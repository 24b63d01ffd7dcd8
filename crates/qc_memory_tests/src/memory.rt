//! A region's blocks, chains and directory together, as the cache has them.

ghost use Rattle.std.specs.Prelude.{◌≡◌, ◌≤◌, ◌%◌};

use crate::chains::{append, are_handed_out, begin, give_back, list};
use crate::directory::{chain_of, insert, new_entry, on_table, remove, tables};
use crate::told::{must, same};
use qc_chain::{ChainName, Chains};
use qc_dir::Dir;
use qc_tiles::{Block, Move, Tiles, Totals};
use std::alloc::Global;
use std::process::Abort;

/// The blocks of a region, the chains of its results, and its directory.
#[derive(Drop)]
pub struct Memory {
    pub alloc: Global,
    pub tiles: Tiles,
    pub chains: Chains,
    pub dir: Dir,
}

impl Memory {
    /// That of a region of so many words, all of them free.
    pub fn new(rt: &impl Abort, alloc: Global, words: u32) -> Memory
        requires whole { words % 128 ≡ 0 }
        requires most { words ≤ 8388608 }
    {
        Memory {
            alloc,
            tiles: must(rt, Tiles::new(alloc, words)),
            chains: must(rt, Chains::new(alloc, words / 64)),
            dir: must(rt, Dir::new(alloc, words)),
        }
    }

    /// Takes so many words.
    pub fn take(&mut self, rt: &impl Abort, need: u32) -> Block {
        must(rt, self.tiles.take(need))
    }

    /// An entry on these tables comes, with a block of 64 words in its chain, and one for its text. The blocks of tables that had none stand from a place on.
    pub fn store(&mut self, rt: &impl Abort, serial: u64, names: &[&str], fresh: u32) {
        let result = self.take(rt, 64);
        let chain = begin(rt, &mut self.chains);
        append(rt, &mut self.chains, chain, result);
        let text = self.take(rt, 64);
        let entry = new_entry(serial, text, tables(rt, self.alloc, names), chain);
        insert(rt, self.alloc, &mut self.dir, entry, fresh);
    }

    /// An entry leaves with its chain, its text block, and the blocks of tables that no other entry names.
    pub fn prune(&mut self, rt: &impl Abort, serial: u64) {
        let removed = remove(rt, &mut self.dir, serial);
        self.release(rt, removed.entry.chain);
        give_back(rt, &mut self.tiles, removed.entry.text);
        for item in removed.freed.items() {
            if let Some(item) = item {
                give_back(rt, &mut self.tiles, item.block);
            }
        }
    }

    /// The entries on a table leave, which are so many.
    pub fn prune_on(&mut self, rt: &impl Abort, name: &str, count: u32) {
        for _ in 0..count {
            match on_table(rt, self.alloc, &self.dir, name) {
                Some(serial) => self.prune(rt, serial),
                None => panic!(rt; "no more entries on {name}"),
            }
        }
        same(rt, on_table(rt, self.alloc, &self.dir, name), None);
    }

    /// Gives a chain's blocks back, whose places rise.
    fn release(&mut self, rt: &impl Abort, chain: ChainName) {
        let ranges = list(rt, self.alloc, &self.chains, chain);
        are_handed_out(rt, &self.tiles, &ranges);
        self.chains.release(chain, &mut self.tiles);
    }

    /// Cuts an entry's chain, whose blocks' places rise, to so many bytes, which end in its last block.
    pub fn cut(&mut self, rt: &impl Abort, serial: u64, bytes: u32) {
        let chain = chain_of(rt, &self.dir, serial);
        let ranges = list(rt, self.alloc, &self.chains, chain);
        assert!(rt; ranges.blocks() > 0);
        let last = ranges.block(ranges.blocks() - 1);
        let words = u64::from(ranges.words());
        assert!(rt; 8 * (words - u64::from(last.words)) < u64::from(bytes));
        assert!(rt; u64::from(bytes) <= 8 * words);
        are_handed_out(rt, &self.tiles, &ranges);
        self.chains.trim_last(chain, bytes, &mut self.tiles);
    }

    /// The lowest block goes down that may move, and what stands in it is found there.
    pub fn move_down(&mut self) -> Option<Move> {
        let change = self.tiles.move_down()?;
        self.chains.shift(change);
        self.dir.shift(change);
        Some(change)
    }

    /// That there are so many blocks, of which so many are free, with so many words.
    pub fn has(&self, rt: &impl Abort, blocks: u32, free_blocks: u32, free_words: u32) {
        let wanted = Totals {
            blocks,
            free_blocks,
            free_words,
        };
        same(rt, self.tiles.totals(), wanted);
    }

    /// That there is room for so many entries, tables and blocks of chains.
    pub fn has_room(&self, rt: &impl Abort, entries: u32, tables: u32, blocks: u32) {
        let room = (self.dir.room(), self.dir.table_room(), self.chains.room());
        same(rt, room, (entries, tables, blocks));
    }
}
