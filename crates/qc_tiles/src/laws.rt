//! Laws of tilings.

ghost use Rattle.qc_tiles.specs.Crowded.{BoundsRegion, RefusesSmall};

/// A law, with no code: with at most b blocks handed out, of at most M words each, and every free block smaller than M, a region has fewer than (2b + 1) M
/// words. Where no free block holds a need, it follows that the region is crowded: between any two free blocks stands one that is handed out.
pub fn small_blocks_crowd()
    ensures { BoundsRegion }
{}

/// A law, with no code: a block is handed out for a need exactly where the largest free block has as many words as the raised need, or more.
pub fn small_blocks_are_refused()
    ensures { RefusesSmall }
{}
