//! Entries.

ghost use Rattle.std.specs.Prelude.{◌≡◌, not, option_map, option_to_list};
ghost use Rattle.qc_dir.specs.Directory.{is_idle, oldest_idle};
ghost use Rattle.qc_dir.specs.Keys.{bit};
ghost use Rattle.qc_dir.specs.Uses.{is_missing};

use crate::tables::TableBlocks;
use qc_chain::ChainName;
use qc_tiles::Block;
use qc_types::Tables;

/// A reply that is kept, or that is still being made, with what its statement is found by.
#[derive(Debug, Drop)]
pub struct Entry {
    /// Its number, by which it is known as long as it is there.
    pub serial: u64,
    /// The hash of its key.
    pub hash: u64,
    /// The block that holds its key.
    pub text: Block,
    /// The bytes of its key.
    pub text_bytes: u32,
    /// The tables that its statement reads, at most 8.
    pub tables: Tables,
    /// The chain of blocks that holds its reply.
    pub chain: ChainName,
    /// Whether the reply is whole.
    pub complete: bool,
    /// How many sessions are sending the reply right now.
    pub users: u32,
}

impl Entry {
    /// Whether it is complete and without users.
    pub(crate) fn is_idle(&self) -> bool
        ensures { result ≡ is_idle self.now }
    {
        self.complete && self.users == 0
    }

    /// 1 where it isn't complete, and 0 where it is.
    pub(crate) fn missing(&self) -> u32
        ensures { result ≡ bit (not self.now.complete) }
    {
        if self.complete { 0 } else { 1 }
    }
}

/// 1 where the entry of a slot isn't complete.
pub(crate) fn missing_in(slot: &Option<Entry>) -> u32
    ensures { result ≡ bit (is_missing slot.now) }
{
    match slot {
        Some(entry) => entry.missing(),
        None => 0,
    }
}

/// The serial of a slot's entry.
pub(crate) fn serial_in(slot: &Option<Entry>) -> Option<u64>
    ensures { result ≡ option_map (λ e. e.serial) slot.now }
{
    match slot {
        Some(entry) => Some(entry.serial),
        None => None,
    }
}

/// The serial of a slot's entry, where that is idle.
pub(crate) fn idle_in(slot: &Option<Entry>) -> Option<u64>
    ensures { result ≡ oldest_idle (option_to_list slot.now) }
{
    match slot {
        Some(entry) => {
            if entry.is_idle() {
                Some(entry.serial)
            } else {
                None
            }
        }
        None => None,
    }
}

/// An entry that has left, and the blocks that nobody needs any more.
#[derive(Debug, Drop)]
pub struct Removed {
    /// The entry.
    pub entry: Entry,
    /// The tables that no other entry names, with their blocks.
    pub freed: TableBlocks,
}
