//! Chains of blocks: the memory of a result that is larger than one block, or that is still being made. Lists of numbered nodes, in which they stand.
#![tactic(auto)]

mod block_lists;
mod chains;
mod keys;
mod lists;
mod names;
mod ranges;
mod slot_lists;
mod walks;

pub use chains::Chains;
pub use keys::Key;
pub use lists::{Lists, Walk};
pub use names::{ChainName, Extent, Spot};
pub use qc_tiles::{Block, Move, Tiles};
pub use ranges::{Ranges, Run};
pub use slot_lists::{all_free, bucket, empty_slots, mask_for};
