//! What a start under way has in hand.

ghost use Rattle.std.specs.Prelude.{◌≡◌, ◌+◌, ◌≤◌, [], length, IfOk};
ghost use Rattle.std.specs.List.{list_any};
ghost use Rattle.qc_sql.specs.Database.{same_table};
ghost use Rattle.qc_tiles.specs.Tiles.{IsTiling, region_words};
ghost use Rattle.qc_chain.specs.Chains.{AreHandedOut, after_release};
ghost use Rattle.qc_core.specs.EntryRemoval.{table_blocks};
ghost use Rattle.qc_core.specs.EntryStart.{without_block};
ghost use Rattle.qc_core.specs.BlocksReserved.{nothing, own_in, Sorts};

use crate::eviction::give_back_tables;
use crate::server_state::ServerState;
use qc_dir::TableBlocks;
use qc_sql::names::has_table;
use qc_tiles::Tiles;
use qc_types::{Duplicate, NoMemory, TableName, Tables};
use std::alloc::Global;

/// The tables of an entry that is being started, and the blocks of those of them that no entry names.
#[derive(Drop)]
pub(crate) struct ReservedBlocks {
    pub(crate) tables: Tables,
    pub(crate) fresh: TableBlocks,
}

impl ReservedBlocks {
    /// Nothing of these tables.
    pub(crate) fn new(tables: Tables) -> ReservedBlocks
        ensures { result ≡ record { tables = tables; fresh = [] } }
    {
        ReservedBlocks {
            tables,
            fresh: TableBlocks::new(),
        }
    }

    /// Nothing, of no tables.
    pub(crate) fn none(alloc: Global) -> ReservedBlocks
        ensures { result ≡ nothing }
    {
        ReservedBlocks::new(Tables::new(alloc))
    }

    /// Takes those of the freed blocks that are of its tables, and gives the others back.
    pub(crate) fn sort(&mut self, mut freed: TableBlocks, tiles: &mut Tiles)
        requires few { length self.old.fresh + own_in self.old.tables freed ≤ 8 }
        requires tiling { IsTiling (region_words tiles.old) tiles.old }
        requires out { AreHandedOut tiles.old (table_blocks freed) }
        ensures { Sorts freed self.old self.new tiles.old tiles.new }
    {
        while let Some(item) = freed.pop() {
            if has_table(self.tables.items(), &item.table) {
                self.fresh.push(item);
            } else {
                tiles.give_back(item.block);
            }
        }
    }

    /// Gives all blocks back.
    pub(crate) fn give_back(&self, tiles: &mut Tiles)
        requires tiling { IsTiling (region_words tiles.old) tiles.old }
        requires out { AreHandedOut tiles.old (table_blocks self.now.fresh) }
        ensures { tiles.new ≡ after_release (table_blocks self.now.fresh) tiles.old }
    {
        give_back_tables(tiles, self.fresh.items());
    }
}

impl ServerState {
    /// The names of those of the tables that have no block.
    pub(crate) fn without_block(
        &self,
        alloc: Global,
        tables: &[TableName],
    ) -> Result<Tables, NoMemory>
        ensures { IfOk result (λ names. names ≡ without_block self.now.dir.tables tables.now) }
    {
        let mut names = Tables::new(alloc);
        for table in tables {
            if self.dir.table_block(table).is_none() {
                names.push(table.duplicate(alloc)?)?;
            }
        }
        Ok(names)
    }
}
