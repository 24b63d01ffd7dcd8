//! The tables that have a block, in numbered slots.

ghost use Rattle.std.specs.Prelude.{◌≡◌, ◌≢◌, ◌+◌, ◌<◌, ◌≤◌, ◌^◌, [], ◌∷◌, true, false, map, IfOk, IsSome, IsPermutation};
ghost use Rattle.std.specs.List.{AllByRecursion};
ghost use Rattle.qc_dir.specs.Directory.{block_of};
ghost use Rattle.qc_dir.specs.Slots.{tables_of, number_of, numbered_at, IsInOrder, is_of, moved_numbered, blocks_at};
ghost use Rattle.qc_dir.specs.Indexed.{holding};

use crate::keys::KeySet;
use crate::tables::TableBlock;
use qc_chain::Key;
use qc_key::table_hash;
use qc_sql::names::is_same_table;
use qc_tiles::{Block, Move};
use qc_types::{NoMemory, TableName};
use std::alloc::Global;
use std::marker::Model;

/// The tables that have a block, each in a slot whose number it keeps, with room for a number of them that is taken once. Beside them stand the free
/// slots, the hashes of the names and the places of the blocks. Contracts see the tables under their numbers. Each call but `new` takes constant time, as far
/// as the hashes and the places spread.
#[derive(Drop)]
pub(crate) struct TableSlots {
    slots: Vec<Option<TableBlock>>,
    free: Vec<u32>,
    names: KeySet,
    places: KeySet,
}

impl Model for TableSlots {
    ghost use Rattle.std.specs.Prelude.{length, vec_capacity};
    ghost use Rattle.qc_dir.specs.Slots.{Tabled, IsSlots, held_from};

    ghost Value = { Tabled };

    ghost view = { λ s. record { held = held_from 0 s.slots.items; room = length s.free.items } };

    ghost invariant = { λ s. IsSlots s.slots.items s.free.items (vec_capacity s.free) s.names s.places };
}

impl TableSlots {
    /// No tables, and room for so many.
    pub(crate) fn new(alloc: Global, room: u32) -> Result<TableSlots, NoMemory>
        requires { room ≤ 2 ^ 28 }
        ensures { IfOk result (λ s. s ≡ record { held = []; room = room }) }
    {
        let mut slots = Vec::with_capacity(alloc, room as usize)?;
        let mut free = Vec::with_capacity(alloc, room as usize)?;
        for number in 0..room {
            slots.push_reserved(None);
            free.push_reserved(number);
        }
        let names = KeySet::new(alloc, room, room)?;
        let places = KeySet::new(alloc, room, room)?;
        Ok(TableSlots {
            slots,
            free,
            names,
            places,
        })
    }

    /// How many more tables there is room for.
    pub(crate) fn room(&self) -> u32
        ensures { result ≡ self.now.room }
    {
        self.free.len() as u32
    }

    /// The number of a table, if it has a block. It costs the tables whose names have the same hash.
    pub(crate) fn find(&self, table: &TableName) -> Option<u32>
        requires { holding table.now self.now.held ≤ 1 }
        ensures number { result ≡ number_of table.now self.now.held }
        ensures rising { IsInOrder self.now.held }
    {
        let mut numbers = self.names.under(table_hash(table));
        while let Some(minor) = numbers.next() {
            let number = minor as u32;
            if self.is_at(number, table) {
                return Some(number);
            }
        }
        None
    }

    /// Whether a number is that of a table.
    fn is_at(&self, number: u32, table: &TableName) -> bool
        requires { IsSome (numbered_at number self.now.held) }
        ensures { AllByRecursion (λ h. h.number ≡ number → result ≡ is_of table.now h) self.now.held }
    {
        match &self.slots[number as usize] {
            Some(item) => is_same_table(table, &item.table),
            None => false,
        }
    }

    /// The block of a table, if it has one.
    pub(crate) fn block(&self, table: &TableName) -> Option<Block>
        requires { holding table.now self.now.held ≤ 1 }
        ensures { result ≡ block_of table.now (tables_of self.now) }
    {
        let Some(number) = self.find(table) else {
            return None;
        };
        match &self.slots[number as usize] {
            Some(item) => Some(item.block),
            None => None,
        }
    }

    /// Puts a table in, and gives its number.
    pub(crate) fn add(&mut self, item: TableBlock) -> u32
        requires { 0 < self.old.room }
        ensures held { IsPermutation self.new.held (record { number = result; table = item } ∷ self.old.held) }
        ensures room { self.new.room + 1 ≡ self.old.room }
    {
        let Some(number) = self.free.pop() else {
            unreachable!()
        };
        self.names
            .insert(table_hash(&item.table), u64::from(number));
        self.places
            .insert(u64::from(item.block.first), u64::from(number));
        self.slots[number as usize] = Some(item);
        number
    }

    /// Takes the table with a number out.
    pub(crate) fn free(&mut self, number: u32) -> TableBlock
        requires { IsSome (numbered_at number self.old.held) }
        ensures held { IsPermutation self.old.held (record { number = number; table = result } ∷ self.new.held) }
        ensures room { self.new.room ≡ self.old.room + 1 }
    {
        let Some(item) = self.slots[number as usize].take() else {
            unreachable!()
        };
        self.names.remove(Key {
            major: table_hash(&item.table),
            minor: u64::from(number),
        });
        self.places.remove(Key {
            major: u64::from(item.block.first),
            minor: u64::from(number),
        });
        self.free.push_reserved(number);
        item
    }

    /// Follows a block that moved to another place, of all tables whose block stood where it moved away.
    pub(crate) fn shift(&mut self, change: Move)
        requires { change.from ≢ change.to }
        ensures held { self.new.held ≡ map (moved_numbered change) self.old.held }
        ensures room { self.new.room ≡ self.old.room }
    {
        while self.shift_one(change) {}
    }

    /// Follows the block of one table. False where none stands at the place.
    fn shift_one(&mut self, change: Move) -> bool
        requires { change.from ≢ change.to }
        ensures held { map (moved_numbered change) self.new.held ≡ map (moved_numbered change) self.old.held }
        ensures room { self.new.room ≡ self.old.room }
        ensures one { result ≡ true → blocks_at change.from self.new.held + 1 ≡ blocks_at change.from self.old.held }
        ensures none { result ≡ false → blocks_at change.from self.new.held ≡ 0 }
    {
        let Some(number) = self.places.any_under(u64::from(change.from)) else {
            return false;
        };
        let Some(mut item) = self.slots[number as usize].take() else {
            unreachable!()
        };
        item.block.first = change.to;
        self.slots[number as usize] = Some(item);
        self.places.remove(Key {
            major: u64::from(change.from),
            minor: number,
        });
        self.places.insert(u64::from(change.to), number);
        true
    }
}
