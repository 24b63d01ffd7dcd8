//! Calls by the rows of a table, each with what it has to answer.

use crate::chains::{append, block, give_back, list, pin, trim, unpin};
use crate::directory::{block_of, chain_of, complete, enter, leave, text_of, touch};
use crate::memory::Memory;
use crate::told::same;
use qc_tiles::{Block, Move, NoTile};
use std::alloc::Global;
use std::process::Abort;

/// A call, and what it has to answer. Blocks are told by their first words and their words, entries by their serials.
#[derive(Clone, Copy)]
pub enum Step<'a> {
    /// So many words are taken, as this block, one time after another.
    Take(&'a [(u32, u32, u32)]),
    /// So many words are not to be had: what was looked for, and the largest free block.
    NoTake(u32, u32, u32),
    /// A block is cut to so many words, and has so many then.
    Trim(u32, u32, u32, u32),
    GiveBack(&'a [(u32, u32)]),
    Pin(u32, u32),
    Unpin(u32, u32),
    /// Blocks go from a place to another one, with so many words, and then none may.
    MoveDown(&'a [(u32, u32, u32)]),
    /// Blocks, free blocks and free words, and the words of the largest free block.
    Has(u32, u32, u32, u32),
    /// An entry comes, on these tables, whose fresh blocks stand from a place on, with the places of its result block and its text block.
    Start(u64, &'a [&'a str], u32, u32, u32),
    /// An entry's chain gets one more block.
    Grow(u64, u32, u32),
    /// An entry's chain is cut to so many bytes.
    Cut(u64, u32),
    /// The blocks of an entry's chain, and its bytes.
    Chain(u64, &'a [(u32, u32)], u32),
    Complete(u64),
    Touch(u64),
    Enter(u64),
    Leave(u64),
    /// An entry leaves with its blocks.
    Prune(u64),
    /// The entries on a table leave, of which there are so many.
    PruneOn(&'a str, u32),
    /// The least recently used entry that is complete and without users.
    Oldest(Option<u64>),
    /// The place of a table's block.
    Table(&'a str, Option<u32>),
    /// The place of an entry's text block.
    Text(u64, Option<u32>),
    /// The room for entries, for tables and for blocks of chains.
    Room(u32, u32, u32),
}

/// Takes the steps with a new region of so many words.
pub fn take_steps(rt: &impl Abort, alloc: Global, words: u32, steps: &[Step<'_>]) {
    assert!(rt; words % 128 == 0 && words <= 8_388_608);
    let mut memory = Memory::new(rt, alloc, words);
    for step in steps {
        take_step(rt, &mut memory, *step);
    }
    drop(memory);
}

fn take_step(rt: &impl Abort, memory: &mut Memory, step: Step<'_>) {
    match step {
        Step::Take(blocks) => take_all(rt, memory, blocks),
        Step::NoTake(words, need, largest) => {
            same(rt, memory.tiles.take(words), Err(NoTile { need, largest }))
        }
        Step::Trim(first, words, used, left) => {
            let trimmed = trim(rt, &mut memory.tiles, block(first, words), used);
            same(rt, trimmed, block(first, left))
        }
        Step::GiveBack(blocks) => {
            for (first, words) in blocks {
                give_back(rt, &mut memory.tiles, block(*first, *words));
            }
        }
        Step::Pin(first, words) => pin(rt, &mut memory.tiles, block(first, words)),
        Step::Unpin(first, words) => unpin(rt, &mut memory.tiles, block(first, words)),
        Step::MoveDown(moves) => move_all(rt, memory, moves),
        Step::Has(blocks, free_blocks, free_words, largest) => {
            memory.has(rt, blocks, free_blocks, free_words);
            same(rt, memory.tiles.largest(), largest)
        }
        _ => take_entry_step(rt, memory, step),
    }
}

fn take_entry_step(rt: &impl Abort, memory: &mut Memory, step: Step<'_>) {
    match step {
        Step::Start(serial, names, fresh, result, text) => {
            memory.store(rt, serial, names, fresh);
            same(rt, text_of(&memory.dir, serial), Some(text));
            chain_is(rt, memory, serial, &[(result, 64)], 512)
        }
        Step::Grow(serial, first, words) => grow(rt, memory, serial, block(first, words)),
        Step::Cut(serial, bytes) => memory.cut(rt, serial, bytes),
        Step::Complete(serial) => complete(rt, &mut memory.dir, serial),
        Step::Touch(serial) => touch(rt, &mut memory.dir, serial),
        Step::Enter(serial) => enter(rt, &mut memory.dir, serial),
        Step::Leave(serial) => leave(rt, &mut memory.dir, serial),
        Step::Prune(serial) => memory.prune(rt, serial),
        Step::PruneOn(name, count) => memory.prune_on(rt, name, count),
        _ => answers(rt, memory, step),
    }
}

/// What is asked, which changes nothing.
fn answers(rt: &impl Abort, memory: &Memory, step: Step<'_>) {
    let dir = &memory.dir;
    match step {
        Step::Chain(serial, blocks, bytes) => chain_is(rt, memory, serial, blocks, bytes),
        Step::Oldest(wanted) => same(rt, dir.oldest_idle(), wanted),
        Step::Table(name, wanted) => same(rt, block_of(rt, memory.alloc, dir, name), wanted),
        Step::Text(serial, wanted) => same(rt, text_of(dir, serial), wanted),
        Step::Room(entries, tables, blocks) => memory.has_room(rt, entries, tables, blocks),
        _ => panic!(rt; "a step without a call"),
    }
}

fn take_all(rt: &impl Abort, memory: &mut Memory, blocks: &[(u32, u32, u32)]) {
    for (need, first, words) in blocks {
        same(rt, memory.take(rt, *need), block(*first, *words));
    }
}

fn move_all(rt: &impl Abort, memory: &mut Memory, moves: &[(u32, u32, u32)]) {
    for (from, to, words) in moves {
        let wanted = Move {
            from: *from,
            to: *to,
            words: *words,
        };
        same(rt, memory.move_down(), Some(wanted));
    }
    same(rt, memory.move_down(), None);
}

fn grow(rt: &impl Abort, memory: &mut Memory, serial: u64, wanted: Block) {
    let taken = memory.take(rt, wanted.words);
    same(rt, taken, wanted);
    let chain = chain_of(rt, &memory.dir, serial);
    append(rt, &mut memory.chains, chain, taken)
}

/// That an entry's chain has these blocks and so many bytes.
fn chain_is(rt: &impl Abort, memory: &Memory, serial: u64, blocks: &[(u32, u32)], bytes: u32) {
    let chain = chain_of(rt, &memory.dir, serial);
    let ranges = list(rt, memory.alloc, &memory.chains, chain);
    same(rt, ranges.bytes(), bytes);
    same(rt, ranges.blocks() as usize, blocks.len());
    for (index, (first, words)) in (0..ranges.blocks()).zip(blocks) {
        assert!(rt; index < ranges.blocks());
        same(rt, ranges.block(index), block(*first, *words));
    }
}
