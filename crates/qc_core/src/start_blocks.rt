//! The blocks of a start are taken.

ghost use Rattle.std.specs.Prelude.{ℕ, [], ◌∷◌, map, IfOk, OnOk};
ghost use Rattle.std.specs.Result.{IfErr};
ghost use Rattle.qc_types.specs.Blocks.{least_block, raised};
ghost use Rattle.qc_model.specs.Licence.{unit_words, words_of_bytes};
ghost use Rattle.qc_core.specs.EntryRemoval.{table_blocks};
ghost use Rattle.qc_core.specs.Allocation.{MayTake, next_of, TakesTables, TakesPair, TakesAll, Stops};
ghost use Rattle.qc_core.specs.EntryStart.{needs_for};

use crate::reserved_blocks::ReservedBlocks;
use crate::server_state::ServerState;
use qc_dir::TableBlock;
use qc_tiles::{Block, NoTile};
use qc_types::Tables;

/// The words of the block that stands for a table: as few as a block may have.
const TABLE_WORDS: u32 = 64;

/// The first block of a chain, and the block of a key.
#[derive(Clone, Copy, Debug, PartialEq, Eq)]
pub(crate) struct Taken {
    pub(crate) first: Block,
    pub(crate) text: Block,
}

impl ServerState {
    /// Takes a block for each of these tables into the hand, and prunes before each where no free block has the words of one.
    fn take_tables(&mut self, hand: &mut ReservedBlocks, missing: Tables) -> Result<(), NoTile>
        requires { (bytes : ℕ) × MayTake missing bytes hand.old self.old }
        ensures ok { (bytes : ℕ) (u : MayTake missing bytes hand.old self.old) → OnOk result (TakesTables (next_of missing bytes hand.old self.old u) u.words missing hand.old hand.new self.old self.new) }
        ensures err { (bytes : ℕ) (u : MayTake missing bytes hand.old self.old) → IfErr result (λ e. Stops hand.old.tables (next_of missing bytes hand.old self.old u) u.words (map (λ t. least_block) missing) (table_blocks hand.new.fresh) self.old self.new e) }
    {
        for table in missing.into_vec() {
            let block = self.allocate(TABLE_WORDS, hand)?;
            hand.fresh.push(TableBlock { table, block });
        }
        Ok(())
    }

    /// Takes the first block of a chain, of a unit, and the block of a key of so many bytes. Where there is none for the key, the other is given back.
    fn take_pair(&mut self, hand: &mut ReservedBlocks, bytes: usize) -> Result<Taken, NoTile>
        requires { MayTake [] bytes hand.old self.old }
        ensures ok { (u : MayTake [] bytes hand.old self.old) → IfOk result (λ taken. TakesPair (next_of [] bytes hand.old self.old u) u.words bytes hand.old hand.new self.old taken self.new) }
        ensures err { (u : MayTake [] bytes hand.old self.old) → IfErr result (λ e. Stops hand.old.tables (next_of [] bytes hand.old self.old u) u.words (unit_words self.old.options ∷ raised (words_of_bytes bytes) ∷ []) (table_blocks hand.new.fresh) self.old self.new e) }
    {
        let first = self.allocate(self.options.unit / 8, hand)?;
        let taken = self.allocate((bytes.div_ceil(8) as u32).max(TABLE_WORDS), hand);
        match taken {
            Ok(text) => Ok(Taken { first, text }),
            Err(none) => {
                self.tiles.give_back(first);
                Err(none)
            }
        }
    }

    /// Takes the blocks of a start: one for each of these tables, the first one of its chain, and one for its key, of so many bytes.
    fn take_all(
        &mut self,
        hand: &mut ReservedBlocks,
        missing: Tables,
        bytes: usize,
    ) -> Result<Taken, NoTile>
        requires { MayTake missing bytes hand.old self.old }
        ensures ok { (u : MayTake missing bytes hand.old self.old) → IfOk result (λ taken. TakesAll (next_of missing bytes hand.old self.old u) u.words missing bytes hand.old hand.new self.old taken self.new) }
        ensures err { (u : MayTake missing bytes hand.old self.old) → IfErr result (λ e. Stops hand.old.tables (next_of missing bytes hand.old self.old u) u.words (needs_for self.old.options missing bytes) (table_blocks hand.new.fresh) self.old self.new e) }
    {
        self.take_tables(hand, missing)?;
        self.take_pair(hand, bytes)
    }

    /// The same. Where a block isn't found, all are given back.
    pub(crate) fn take_blocks(
        &mut self,
        hand: &mut ReservedBlocks,
        missing: Tables,
        bytes: usize,
    ) -> Result<Taken, NoTile>
        requires { MayTake missing bytes hand.old self.old }
        ensures ok { (u : MayTake missing bytes hand.old self.old) → IfOk result (λ taken. TakesAll (next_of missing bytes hand.old self.old u) u.words missing bytes hand.old hand.new self.old taken self.new) }
        ensures err { (u : MayTake missing bytes hand.old self.old) → IfErr result (λ e. Stops hand.old.tables (next_of missing bytes hand.old self.old u) u.words (needs_for self.old.options missing bytes) [] self.old self.new e) }
    {
        match self.take_all(hand, missing, bytes) {
            Ok(taken) => Ok(taken),
            Err(none) => {
                hand.give_back(&mut self.tiles);
                Err(none)
            }
        }
    }
}
