//! The blocks of a chain are pinned and unpinned.

ghost use Rattle.std.specs.Prelude.{◌≡◌, ◌≤◌, length, Contains, IfOk};
ghost use Rattle.std.specs.List.{AllByRecursion};
ghost use Rattle.qc_tiles.specs.Tiles.{IsTiling, region_words, handed_out};
ghost use Rattle.qc_chain.specs.Chains.{Chain, Begun};
ghost use Rattle.qc_sound.specs.Handed.{after_pins};
ghost use Rattle.qc_core.specs.ChainPins.{after_unpins};

use qc_chain::{ChainName, Chains, Ranges};
use qc_tiles::Tiles;
use qc_types::NoMemory;
use std::alloc::Global;
use std::marker::Model;

/// Room for the blocks of one chain, through which they are unpinned. Contracts see for how many.
#[derive(Drop)]
pub struct Unpinner {
    blocks: Ranges,
}

impl Model for Unpinner {
    ghost use Rattle.std.specs.Prelude.{ℕ};

    ghost Value = { ℕ };

    ghost view = { λ u. u.blocks.room };
}

impl Unpinner {
    /// Room for so many blocks.
    pub(crate) fn new(alloc: Global, room: u32) -> Result<Unpinner, NoMemory>
        ensures { IfOk result (λ u. u ≡ room) }
    {
        Ok(Unpinner {
            blocks: Ranges::new(alloc, room)?,
        })
    }

    /// Unpins the blocks of a chain. Costs the chain's blocks.
    pub(crate) fn unpin(&mut self, chains: &Chains, chain: ChainName, tiles: &mut Tiles)
        requires begun { (held : Chain) × Begun chain.number chains.now held × (length held.blocks ≤ self.old) × AllByRecursion (Contains (handed_out tiles.old)) held.blocks }
        requires tiling { IsTiling (region_words tiles.old) tiles.old }
        ensures same { self.new ≡ self.old }
        ensures tiles { (held : Chain) → Begun chain.number chains.now held → tiles.new ≡ after_unpins held.blocks tiles.old }
    {
        chains.ranges(chain, &mut self.blocks);
        unpin_all(tiles, &self.blocks);
    }
}

/// Pins the blocks of the ranges.
pub(crate) fn pin_all(tiles: &mut Tiles, ranges: &Ranges)
    requires tiling { IsTiling (region_words tiles.old) tiles.old }
    requires out { AllByRecursion (Contains (handed_out tiles.old)) ranges.now.blocks }
    ensures { tiles.new ≡ after_pins ranges.now.blocks tiles.old }
{
    for index in 0..ranges.blocks() {
        tiles.pin(ranges.block(index));
    }
}

/// Unpins the blocks of the ranges.
fn unpin_all(tiles: &mut Tiles, ranges: &Ranges)
    requires tiling { IsTiling (region_words tiles.old) tiles.old }
    requires out { AllByRecursion (Contains (handed_out tiles.old)) ranges.now.blocks }
    ensures { tiles.new ≡ after_unpins ranges.now.blocks tiles.old }
{
    for index in 0..ranges.blocks() {
        tiles.unpin(ranges.block(index));
    }
}
