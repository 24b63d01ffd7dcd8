//! Tables and their blocks.

ghost use Rattle.std.specs.Prelude.{◌≡◌, ◌<◌, [], ◌∷◌, ◌++◌, length, MatchOption};
ghost use Rattle.qc_dir.specs.Blocks.{places_of};

use qc_tiles::Block;
use qc_types::TableName;
use std::marker::Model;

/// A table that entries name, and the block that stands for it.
#[derive(Debug, Drop)]
pub struct TableBlock {
    /// The table.
    pub table: TableName,
    /// Its block.
    pub block: Block,
}

/// At most 8 tables with their blocks, in place. Contracts see their list.
#[derive(Debug, Drop)]
pub struct TableBlocks {
    places: [Option<TableBlock>; 8],
    count: u8,
}

impl Model for TableBlocks {
    ghost use Rattle.std.specs.Prelude.{◌≡◌, ◌≤◌, List, take, length};
    ghost use Rattle.std.specs.List.{filter_map};
    ghost use Rattle.qc_dir.specs.declared.tables.TableBlock.{TableBlock};

    ghost Value = { List TableBlock };

    ghost view = { λ t. filter_map (λ x. x) t.places };

    ghost use Rattle.qc_dir.specs.Blocks.{places_of};

    ghost invariant = { λ t. (t.places ≡ places_of (filter_map (λ x. x) t.places)) × (t.count ≡ length (filter_map (λ x. x) t.places)) × (t.count ≤ 8) };
}

impl TableBlocks {
    /// No tables.
    pub fn new() -> TableBlocks
        ensures { result ≡ [] }
    {
        TableBlocks {
            places: [None, None, None, None, None, None, None, None],
            count: 0,
        }
    }

    /// The members first, and then None for each free place up to 8.
    pub fn items(&self) -> &[Option<TableBlock>]
        ensures { result.now ≡ places_of self.now }
    {
        &self.places
    }

    /// Puts a table behind the others, of which there are fewer than 8.
    pub fn push(&mut self, item: TableBlock)
        requires { length self.old < 8 }
        ensures { self.new ≡ self.old ++ item ∷ [] }
    {
        self.places[self.count as usize] = Some(item);
        self.count += 1;
    }

    /// How many there are. Constant time.
    pub fn len(&self) -> u32
        ensures { result ≡ length self.now }
    {
        u32::from(self.count)
    }

    /// Takes the last table out. None exactly where there is none.
    pub fn pop(&mut self) -> Option<TableBlock>
        ensures { MatchOption result ((self.old ≡ []) × (self.new ≡ [])) (λ item. self.old ≡ self.new ++ item ∷ []) }
    {
        if self.count == 0 {
            return None;
        }
        self.count -= 1;
        self.places[self.count as usize].take()
    }
}
