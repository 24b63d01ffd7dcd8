//! A region of the largest size, full of blocks and entries. The totals were counted by a plain list of blocks.

use crate::chains::spot;
use crate::directory::{chain_of, complete, text_of};
use crate::memory::Memory;
use crate::told::same;
use qc_tiles::NoTile;
use std::process::Abort;

/// The words of the region: 131,072 blocks of 64.
const WORDS: u32 = 8_388_608;

/// The entries, whose serials are 1 to this. Each has two blocks, their table has one, and one block is left.
const ENTRIES: u64 = 65_535;

/// The serials for the indices from 1 on, each once, far from their order.
fn stirred(index: u64) -> u64 {
    index.wrapping_mul(40_503) % 65_536
}

/// The entries come, on one table, and are completed in another order.
fn fill(rt: &impl Abort, memory: &mut Memory) {
    same(rt, memory.take(rt, 1).first, 0);
    for serial in 1..=ENTRIES {
        memory.store(rt, serial, &["t"], 0);
    }
    for index in 1..=ENTRIES {
        complete(rt, &mut memory.dir, stirred(index));
    }
}

/// Two entries are under each hash, which is half of their serials.
fn are_under_hashes(rt: &impl Abort, memory: &Memory) {
    for hash in 1..=ENTRIES / 2 {
        let even = hash.wrapping_mul(2);
        let odd = even.wrapping_add(1);
        same(rt, memory.dir.candidate_from(hash, 0), Some(even));
        same(rt, memory.dir.candidate_from(hash, odd), Some(odd));
    }
}

/// So many entries leave, the least recently used one first.
fn prune_oldest(rt: &impl Abort, memory: &mut Memory, count: u64) {
    for index in 1..=count {
        same(rt, memory.dir.oldest_idle(), Some(stirred(index)));
        memory.prune(rt, stirred(index));
    }
}

/// How many blocks go down until none may.
fn flush(memory: &mut Memory) -> u32 {
    for moves in 0..WORDS {
        if memory.move_down().is_none() {
            return moves;
        }
    }
    WORDS
}

/// The blocks of the entries that are left stand one behind the other, in the order of their serials.
fn stand_in_order(rt: &impl Abort, memory: &Memory) {
    let mut place = 64u32;
    for serial in 1..=ENTRIES {
        if memory.dir.entry(serial).is_some() {
            let chain = chain_of(rt, &memory.dir, serial);
            same(rt, spot(rt, &memory.chains, chain, 0).word, place);
            let text = place.wrapping_add(64);
            same(rt, text_of(&memory.dir, serial), Some(text));
            place = text.wrapping_add(64);
        }
    }
}

fn fill_and_empty(rt: &impl Abort, memory: &mut Memory) {
    memory.has_room(rt, 65_536, 131_072, 131_072);
    fill(rt, memory);
    memory.has(rt, 131_072, 1, 64);
    memory.has_room(rt, 1, 131_071, 65_537);
    let refused = NoTile {
        need: 65,
        largest: 64,
    };
    same(rt, memory.tiles.take(65), Err(refused));
    are_under_hashes(rt, memory);
    prune_oldest(rt, memory, 32_767);
    memory.has(rt, 96_137, 30_600, 4_194_240);
    // all that is left goes down, but for the table's block
    same(rt, flush(memory), 65_536);
    memory.has(rt, 65_538, 1, 4_194_240);
    stand_in_order(rt, memory);
    memory.prune_on(rt, "t", 32_768);
    memory.has(rt, 1, 1, WORDS);
    memory.has_room(rt, 65_536, 131_072, 131_072);
}

#[test]
fn the_largest_region_is_filled_and_emptied(rt: HostRuntime) {
    let mut memory = Memory::new(&rt, rt.alloc(), WORDS);
    fill_and_empty(&rt, &mut memory);
    drop(memory);
}
