//! The calls on blocks and on chains as tests make them: what each call asks for is looked up before it.

ghost use Rattle.std.specs.Prelude.{◌≡◌};
ghost use Rattle.qc_chain.specs.Chains.{Chain, Begun, AreHandedOut, extent_of};

use crate::told::must;
use qc_chain::{Block, ChainName, Chains, Extent, Ranges, Spot, Tiles};
use std::alloc::Global;
use std::process::Abort;

pub fn block(first: u32, words: u32) -> Block {
    Block { first, words }
}

pub fn trim(rt: &impl Abort, tiles: &mut Tiles, block: Block, used: u32) -> Block {
    assert!(rt; tiles.is_handed_out(block));
    assert!(rt; 0 < used && used <= block.words);
    tiles.trim(block, used)
}

pub fn give_back(rt: &impl Abort, tiles: &mut Tiles, block: Block) {
    assert!(rt; tiles.is_handed_out(block));
    tiles.give_back(block);
}

pub fn pin(rt: &impl Abort, tiles: &mut Tiles, block: Block) {
    assert!(rt; tiles.is_handed_out(block));
    tiles.pin(block);
}

pub fn unpin(rt: &impl Abort, tiles: &mut Tiles, block: Block) {
    assert!(rt; tiles.is_handed_out(block));
    tiles.unpin(block);
}

/// What a chain has that was begun.
fn extent(rt: &impl Abort, chains: &Chains, chain: ChainName) -> Extent
    ensures { (held : Chain) × Begun chain.number chains.now held × (extent_of held ≡ result) }
{
    match chains.extent(chain) {
        Some(extent) => extent,
        None => panic!(rt; "chain {} was not begun", chain.number),
    }
}

pub fn begin(rt: &impl Abort, chains: &mut Chains) -> ChainName {
    assert!(rt; chains.has_free_name());
    chains.begin()
}

pub fn append(rt: &impl Abort, chains: &mut Chains, chain: ChainName, block: Block) {
    let has = extent(rt, chains, chain);
    assert!(rt; u64::from(has.words) + u64::from(block.words) <= 8_388_608);
    assert!(rt; chains.room() > 0);
    chains.append_block(chain, block);
}

pub fn spot(rt: &impl Abort, chains: &Chains, chain: ChainName, byte: u32) -> Spot {
    let has = extent(rt, chains, chain);
    assert!(rt; byte < has.bytes);
    chains.spot(chain, byte)
}

/// A chain's blocks and its byte length.
pub fn list(rt: &impl Abort, alloc: Global, chains: &Chains, chain: ChainName) -> Ranges
    ensures { (held : Chain) × Begun chain.number chains.now held × (result.blocks ≡ held.blocks) }
{
    let has = extent(rt, chains, chain);
    let mut out = must(rt, Ranges::new(alloc, has.blocks));
    chains.ranges(chain, &mut out);
    out
}

/// That each block is handed out, and each stands at a higher place than the one before.
pub fn are_handed_out(rt: &impl Abort, tiles: &Tiles, ranges: &Ranges)
    ensures { AreHandedOut tiles.now ranges.now.blocks }
{
    let mut above = u32::MAX;
    for index in (0..ranges.blocks()).rev() {
        let block = ranges.block(index);
        assert!(rt; tiles.is_handed_out(block));
        assert!(rt; block.first < above);
        above = block.first;
    }
}
