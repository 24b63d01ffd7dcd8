//! The directory of the cache: its entries in the order of their use, and the blocks of the tables that they name.
#![tactic(auto)]

mod candidates;
mod dir;
mod entries;
mod entry_slots;
mod keys;
mod minors;
mod table_slots;
mod tables;
mod uses;

pub use candidates::Candidates;
pub use dir::Dir;
pub use entries::{Entry, Removed};
pub use qc_chain::ChainName;
pub use qc_tiles::{Block, Move};
pub use tables::{TableBlock, TableBlocks};
