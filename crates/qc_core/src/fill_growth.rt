//! The chain of an entry that is filled grows.

ghost use Rattle.std.specs.Prelude.{◌≡◌, List, IfOk};
ghost use Rattle.std.specs.Result.{IfErr};
ghost use Rattle.qc_turn.specs.Seats.{MayRelease, SameHolder, holder, words, with_ranges};
ghost use Rattle.qc_turn.specs.declared.view.FoundWord.{FoundWord};
ghost use Rattle.qc_core.specs.EndedStreams.{swept, ReadsStreams, Finds};
ghost use Rattle.qc_turn.specs.Tasks.{listed_for, own};
ghost use Rattle.qc_turn.specs.declared.task.Task.TheVariants as task;
ghost use Rattle.qc_core.specs.Whole.{tasks_of};
ghost use Rattle.qc_core.specs.declared.fill_growth.Short.TheVariants as short;
ghost use Rattle.qc_core.specs.FillGrowth.{MayAppend, appended, longer_by, MayGrowOn, FillsOn, Grows, IsShort, StaysFilling, TellsGrowth};

use crate::ended_streams::reap_ended_streams;
use crate::overtaken_fill::overtaken;
use crate::reserved_blocks::ReservedBlocks;
use crate::server::Server;
use crate::server_state::ServerState;
use qc_chain::{ChainName, Ranges};
use qc_tiles::{Block, NoTile};
use qc_turn::Held;
use std::mem::replace;

/// Why a chain doesn't grow.
#[derive(Clone, Copy, Debug, PartialEq, Eq)]
pub enum Short {
    /// The entry has left the cache, by the event with this number.
    Overtaken(u64),
    /// No free block has the words of a unit, and no complete entry without users is left to prune.
    NoRoom {
        /// The words of a unit.
        need: u32,
        /// The words of the largest free block, or 0 where there is none.
        largest: u32,
    },
}

impl From<NoTile> for Short {
    ghost from_gives = { λ t e. e ≡ short.NoRoom t.need t.largest };

    fn from(none: NoTile) -> Short {
        Short::NoRoom {
            need: none.need,
            largest: none.largest,
        }
    }
}

impl ServerState {
    /// Appends a block to a chain, and pins it. The ranges are the chain.
    pub(crate) fn append(&mut self, chain: ChainName, block: Block, ranges: &mut Ranges)
        requires { MayAppend chain.number block self.old ranges.old.room }
        ensures server { (u : MayAppend chain.number block self.old ranges.old.room) → self.new ≡ appended chain.number block u.held self.old }
        ensures ranges { (u : MayAppend chain.number block self.old ranges.old.room) → ranges.new ≡ longer_by block (record { blocks = u.held.blocks; bytes = u.held.bytes; room = ranges.old.room }) }
    {
        self.tiles.pin(block);
        self.chains.append_block(chain, block);
        self.chains.ranges(chain, ranges);
    }

    /// The chain of an entry that is filled gets a block of a unit, and the ranges with it.
    fn grow(&mut self, serial: u64, ranges: &mut Ranges) -> Result<Block, Short>
        requires { MayGrowOn serial self.old ranges.old }
        ensures ok { IfOk result (λ block. Grows serial self.old block self.new × (ranges.new ≡ longer_by block ranges.old)) }
        ensures err { IfErr result (λ e. IsShort serial self.old self.new e × (ranges.new ≡ ranges.old)) }
        ensures stays { (u : MayGrowOn serial self.old ranges.old) → StaysFilling serial self.old self.new ranges.new u.words u.seat }
    {
        let Some(entry) = self.dir.entry(serial) else {
            let by = overtaken(&self.journal, serial);
            return Err(Short::Overtaken(by));
        };
        let chain = entry.chain;
        let block = self.allocate(self.options.unit / 8, &mut ReservedBlocks::none(self.alloc))?;
        self.append(chain, block, ranges);
        Ok(block)
    }
}

impl Server {
    /// The same of what is in the box.
    fn grow(&mut self, serial: u64, ranges: &mut Ranges) -> Result<Block, Short>
        requires { MayGrowOn serial self.old ranges.old }
        ensures told { TellsGrowth serial self.old ranges.old self.new ranges.new result }
        ensures stays { (u : MayGrowOn serial self.old ranges.old) → StaysFilling serial self.old self.new ranges.new u.words u.seat }
    {
        self.parts.grow(serial, ranges)
    }
}

/// The chain of the entry that the seat fills gets one block more, of a unit, and the seat's ranges are the chain again. It takes no memory. The streams
/// that other seats have ended are struck off before. Where no free block has a unit, the least recently used entries that are complete and without users
/// are pruned, one after another; they stay pruned whatever comes of it. Refused as `Overtaken` exactly where the entry has left the cache, and as `NoRoom`
/// exactly where it is there, and no block is found. Costs the blocks of the chain and of what is struck off and pruned, and, where the entry has left, the
/// events since its start.
pub fn grow(held: &mut Held<'_, Server>, serial: u64) -> Result<Block, Short>
    requires stands { MayRelease held.old }
    requires fills { FillsOn (holder held.old).number serial held.old.value held.old.ranges }
    ensures stands { MayRelease held.new }
    ensures words { words held.new ≡ words held.old }
    ensures listed { listed_for (holder held.old).number (tasks_of held.new.value) ≡ own (holder held.old).number (task.Fill serial) held.new.ranges.blocks }
    ensures found { (found : List FoundWord) × ReadsStreams (holder held.old).number held.old.value found
        × Finds held.old (with_ranges held.new held.old.ranges) found
        × TellsGrowth serial (swept found held.old.value) held.old.ranges held.new.value held.new.ranges result }
{
    reap_ended_streams(held);
    grow_chain(held, serial)
}

/// The same with the streams as they are listed.
fn grow_chain(held: &mut Held<'_, Server>, serial: u64) -> Result<Block, Short>
    requires stands { MayRelease held.old }
    requires fills { FillsOn (holder held.old).number serial held.old.value held.old.ranges }
    ensures stands { MayRelease held.new × SameHolder held.old held.new }
    ensures words { words held.new ≡ words held.old }
    ensures listed { listed_for (holder held.old).number (tasks_of held.new.value) ≡ own (holder held.old).number (task.Fill serial) held.new.ranges.blocks }
    ensures told { TellsGrowth serial held.old.value held.old.ranges held.new.value held.new.ranges result }
{
    let alloc = held.value().alloc();
    let mut ranges = replace(held.ranges(), Ranges::empty(alloc));
    let grown = held.value().grow(serial, &mut ranges);
    *held.ranges() = ranges;
    grown
}
