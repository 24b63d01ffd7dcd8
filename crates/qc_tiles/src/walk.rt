//! The walk to the lowest block that may move down.

ghost use Rattle.std.specs.Prelude.{◌≡◌, ℕ, ◌+◌, ◌≤◌, None, MatchOption};
ghost use Rattle.qc_tiles.specs.Kept.{IsMovable, tile_at};
ghost use Rattle.qc_tiles.specs.Ready.{NoneBelow, IsPassed};
ghost use Rattle.qc_tiles.specs.Tiles.{IsTiling, region_words, movable};

use crate::blocks::Tile;
use crate::places::Places;

/// The lowest block that may move, behind the free block below it, where none below a place may. Walks from that place on.
pub(crate) fn find_movable(places: &Places, from: u32) -> Option<(Tile, Tile)>
    requires tiling { IsTiling (region_words places.now) places.now }
    requires region { region_words places.now ≤ 8388608 }
    requires quiet { NoneBelow from places.now }
    ensures { MatchOption result (movable places.now ≡ None) (λ p. (k : ℕ) × IsMovable places.now k × (tile_at places.now k ≡ p.0) × (tile_at places.now (k + 1) ≡ p.1)) }
{
    let mut below = first_tile(places, from)?;
    while let Some(tile) = places.get(below.first + below.words) {
        if below.free && !tile.free && !tile.pinned {
            return Some((below, tile));
        }
        below = tile;
    }
    None
}

/// The block at a place, or the first of all where none begins there.
fn first_tile(places: &Places, from: u32) -> Option<Tile>
    requires tiling { IsTiling (region_words places.now) places.now }
    requires quiet { NoneBelow from places.now }
    ensures { MatchOption result (movable places.now ≡ None) (λ t. (k : ℕ) × IsPassed places.now k t) }
{
    match places.get(from) {
        Some(tile) => Some(tile),
        None => places.get(0),
    }
}
