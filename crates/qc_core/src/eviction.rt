//! Entries leave, and blocks are allocated, for which others leave.

ghost use Rattle.std.specs.Prelude.{◌≡◌, ◌<◌, ◌≤◌, true, false, [], ◌∷◌, None, IfOk, OnOk};
ghost use Rattle.std.specs.Result.{IfErr};
ghost use Rattle.qc_tiles.specs.Tiles.{IsTiling, region_words, largest_free};
ghost use Rattle.qc_chain.specs.Chains.{Chain, Begun, AreHandedOut, after_release};
ghost use Rattle.qc_dir.specs.declared.tables.TableBlock.{TableBlock};
ghost use Rattle.qc_dir.specs.Directory.{IsDirectory, oldest_idle};
ghost use Rattle.qc_core.specs.EntryRemoval.{blocks_in, has_task, chain_left, MayLeave};
ghost use Rattle.qc_core.specs.Allocation.{MayKeep, LeavesKeeping, MayTakeOne, PrunesKeeping, PrunesSome, HasNone, TakesKeeping};

use crate::reserved_blocks::ReservedBlocks;
use crate::server_state::ServerState;
use crate::task_end::is_on;
use qc_chain::ChainName;
use qc_dir::{Removed, TableBlock};
use qc_model::events::Event;
use qc_tiles::{Block, NoTile, Tiles};

impl ServerState {
    /// Takes an entry out, and gives back its blocks, and those of the tables that no other entry names, but for those of the hand's tables, which come into
    /// the hand. Its chain stays while a task is on it.
    pub(crate) fn drop_entry(&mut self, serial: u64, hand: &mut ReservedBlocks)
        requires may { MayLeave serial self.old }
        requires keeps { MayKeep serial hand.old self.old }
        ensures left { (u : MayLeave serial self.old) → LeavesKeeping serial u.entry u.held hand.old hand.new self.old self.new }
        ensures valid { IsDirectory self.new.dir }
    {
        let Removed { entry, freed } = self.dir.remove(serial);
        self.drop_chain(serial, entry.chain);
        self.tiles.give_back(entry.text);
        hand.sort(freed, &mut self.tiles);
    }

    /// Gives the chain of an entry back that is out, where no task is on it.
    fn drop_chain(&mut self, serial: u64, chain: ChainName)
        requires { (held : Chain) × Begun chain.number self.old.chains held × AreHandedOut self.old.tiles held.blocks }
        ensures { (held : Chain) → Begun chain.number self.old.chains held → self.new ≡ chain_left (has_task serial self.old) chain.number held self.old }
    {
        if is_on(self.tasks.items(), serial) {
            return;
        }
        self.chains.release(chain, &mut self.tiles);
    }

    /// Takes the least recently used entry out that is complete and without users, as no free block holds the need, and pushes its event. False, with
    /// nothing changed, where there is none.
    fn prune_one(&mut self, need: u32, hand: &mut ReservedBlocks) -> bool
        requires may { MayTakeOne need hand.old self.old }
        requires small { largest_free self.old.tiles < need }
        ensures pruned { result ≡ true → (u : MayTakeOne need hand.old self.old) → PrunesKeeping need u.next u.words u.missing u.others hand.old hand.new self.old self.new }
        ensures none { result ≡ false → (self.new ≡ self.old) × (hand.new ≡ hand.old) × (oldest_idle self.old.dir.entries ≡ None) }
    {
        let Some(serial) = self.dir.oldest_idle() else {
            return false;
        };
        let largest = self.tiles.largest();
        self.drop_entry(serial, hand);
        self.push(Event::Prune {
            serial,
            need,
            largest,
        });
        true
    }

    /// Prunes the least recently used entries that are complete and without users, one after another, until a free block holds the need. Refused where
    /// no such entry is left; those that were pruned stay so.
    fn prune(&mut self, need: u32, hand: &mut ReservedBlocks) -> Result<(), NoTile>
        requires { MayTakeOne need hand.old self.old }
        ensures pruned { (u : MayTakeOne need hand.old self.old) → PrunesSome need u.next u.words u.missing u.others hand.old hand.new self.old self.new }
        ensures ok { OnOk result (need ≤ largest_free self.new.tiles) }
        ensures err { IfErr result (λ e. HasNone need self.new e) }
    {
        while self.tiles.largest() < need {
            if !self.prune_one(need, hand) {
                return Err(NoTile {
                    need,
                    largest: self.tiles.largest(),
                });
            }
        }
        Ok(())
    }

    /// Takes a block of so many words or more, at least 64, and prunes before where no free block holds them. Refused as `prune` is.
    pub(crate) fn allocate(&mut self, need: u32, hand: &mut ReservedBlocks) -> Result<Block, NoTile>
        requires { MayTakeOne need hand.old self.old }
        ensures ok { (u : MayTakeOne need hand.old self.old) → IfOk result (λ block. TakesKeeping need u.next u.words u.missing u.others hand.old hand.new self.old block self.new) }
        ensures err { (u : MayTakeOne need hand.old self.old) → IfErr result (λ e. PrunesSome need u.next u.words u.missing u.others hand.old hand.new self.old self.new × HasNone need self.new e) }
    {
        self.prune(need, hand)?;
        self.tiles.take(need)
    }
}

/// Gives the blocks of tables back.
pub(crate) fn give_back_tables(tiles: &mut Tiles, places: &[Option<TableBlock>])
    requires tiling { IsTiling (region_words tiles.old) tiles.old }
    requires out { AreHandedOut tiles.old (blocks_in places.now) }
    ensures tiles { tiles.new ≡ after_release (blocks_in places.now) tiles.old }
{
    for place in places {
        give_back_table(tiles, place);
    }
}

/// Gives the block of a table back, where there is one.
fn give_back_table(tiles: &mut Tiles, place: &Option<TableBlock>)
    requires { AreHandedOut tiles.old (blocks_in (place.now ∷ [])) }
    ensures { tiles.new ≡ after_release (blocks_in (place.now ∷ [])) tiles.old }
{
    if let Some(item) = place {
        tiles.give_back(item.block);
    }
}
