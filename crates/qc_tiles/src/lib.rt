//! The cache's memory: words in blocks, of which some are free and the others handed out.
#![tactic(auto)]

mod blocks;
mod free_index;
mod laws;
mod piece;
mod places;
mod settle;
mod tiles;
mod walk;

pub use blocks::{Block, Move, NoTile, Tile};
pub use laws::{small_blocks_are_refused, small_blocks_crowd};
pub use qc_types::Totals;
pub use tiles::Tiles;
