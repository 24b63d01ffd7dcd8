//! The directory, with lists that spare it walks.

ghost use Rattle.std.specs.Prelude.{◌≡◌, ◌≢◌, ℕ, ◌+◌, ◌-◌, ◌*◌, ◌/◌, ◌<◌, ◌≤◌, ◌^◌, [], ◌∷◌, true, false, length, map, slice_get, Some, None, IfOk, IsSome, IfSome, IsSomeAnd, MatchOption, IsPermutation};
ghost use Rattle.std.specs.List.{list_any, AllByRecursion};
ghost use Rattle.std.specs.Option.{option_copied, option_map};
ghost use Rattle.qc_chain.specs.declared.keys.Key.{Key};
ghost use Rattle.qc_dir.specs.Directory.{IsDirectory, entry_at, serials_under, block_of, names_table, oldest_idle, incomplete, AreFresh, AddsEntry, after_touch, after_complete, after_enter, after_leave, with_entries, RemovesEntry, after_shift, moved_entry};
ghost use Rattle.qc_types.specs.declared.names.TableName.{TableName};
ghost use Rattle.qc_dir.specs.Keys.{times, least_from};
ghost use Rattle.qc_dir.specs.Slots.{number_of};
ghost use Rattle.qc_dir.specs.Indexed.{AddsTables, FreesName, holding, named_times};
ghost use Rattle.qc_dir.specs.Uses.{texts_at};

use crate::candidates::Candidates;
use crate::entries::{Entry, Removed};
use crate::keys::KeySet;
use crate::table_slots::TableSlots;
use crate::tables::{TableBlock, TableBlocks};
use crate::uses::Uses;
use qc_chain::Key;
use qc_tiles::{Block, Move};
use qc_types::{NoMemory, TableName};
use std::alloc::Global;
use std::marker::Model;

/// The entries of the cache in the order of their use, and the blocks of the tables that they name, with room for a number of both that is taken once.
/// Contracts see both lists, and the room for more. Each call but `new` takes constant time, as far as serials, hashes and places spread over their lists:
/// `insert` and `remove` so much for each table of the entry, `candidate_from` for each entry under the hash, `shift` for each block that stood at the place,
/// and `oldest_idle` for each entry that it passes. None but `new` takes memory.
#[derive(Drop)]
pub struct Dir {
    entries: Uses,
    tables: TableSlots,
    named: KeySet,
}

impl Model for Dir {
    ghost use Rattle.qc_dir.specs.Directory.{Directory};
    ghost use Rattle.qc_dir.specs.Uses.{entries_of};
    ghost use Rattle.qc_dir.specs.Slots.{tables_of};
    ghost use Rattle.qc_dir.specs.Indexed.{IsDir};

    ghost Value = { Directory };

    ghost view = { λ d. record { entries = entries_of d.entries; tables = tables_of d.tables; room = d.entries.room; table_room = d.tables.room } };

    ghost invariant = { λ d. IsDir (entries_of d.entries) d.entries.room d.tables.held d.named };
}

impl Dir {
    /// No entries, and room for those of a region of so many words: an entry for each 128 words, since each has two blocks at least, and a table for each
    /// 64. Fails where memory lacks; no other call takes any.
    pub fn new(alloc: Global, words: u32) -> Result<Dir, NoMemory>
        ensures { IfOk result (λ d. d ≡ record { entries = []; tables = []; room = words / 128; table_room = words / 64 }) }
    {
        let room = words / 128;
        let entries = Uses::new(alloc, room)?;
        let tables = TableSlots::new(alloc, words / 64)?;
        let named = KeySet::new(alloc, 8 * room, room)?;
        Ok(Dir {
            entries,
            tables,
            named,
        })
    }

    /// How many more entries there is room for.
    pub fn room(&self) -> u32
        ensures room { result ≡ self.now.room }
        ensures valid { IsDirectory self.now }
    {
        self.entries.room()
    }

    /// How many more tables there is room for.
    pub fn table_room(&self) -> u32
        ensures room { result ≡ self.now.table_room }
        ensures valid { IsDirectory self.now }
    {
        self.tables.room()
    }

    /// How many entries there are. Constant time.
    pub fn len(&self) -> u32
        ensures len { result ≡ length self.now.entries }
        ensures valid { IsDirectory self.now }
    {
        self.entries.len()
    }

    /// How many entries aren't complete. Constant time.
    pub fn incomplete(&self) -> u32
        ensures count { result ≡ incomplete self.now.entries }
        ensures valid { IsDirectory self.now }
    {
        self.entries.incomplete()
    }

    /// The serials of the entries under a hash, each once, in any order.
    pub fn candidates(&self, hash: u64) -> Candidates<'_>
        ensures serials { IsPermutation result (serials_under hash self.now.entries) }
        ensures valid { IsDirectory self.now }
    {
        self.entries.candidates(hash)
    }

    /// The least serial, from one on, of the entries under a hash. None exactly where there is none.
    pub fn candidate_from(&self, hash: u64, from: u64) -> Option<u64>
        ensures some { IfSome result (λ n. (from ≤ n) × IsSomeAnd (entry_at n self.now.entries) (λ e. e.hash ≡ hash)) }
        ensures least { (n : ℕ) → from ≤ n → IsSomeAnd (entry_at n self.now.entries) (λ e. e.hash ≡ hash) → IsSomeAnd result (λ k. k ≤ n) }
        ensures valid { IsDirectory self.now }
    {
        let mut least = None;
        let mut serials = self.entries.candidates(hash);
        while let Some(serial) = serials.next() {
            least = least_from(from, least, serial);
        }
        least
    }

    /// The entry with a serial, borrowed, if any.
    pub fn entry(&self, serial: u64) -> Option<&Entry>
        ensures entry { option_copied result ≡ entry_at serial self.now.entries }
        ensures valid { IsDirectory self.now }
    {
        self.entries.entry(serial)
    }

    /// The block of a table, if an entry names it.
    pub fn table_block(&self, table: &TableName) -> Option<Block>
        ensures block { result ≡ block_of table.now self.now.tables }
        ensures valid { IsDirectory self.now }
    {
        self.tables.block(table)
    }

    /// Puts an entry at the end, as the most recently used one, with the blocks of those of its tables that have none yet.
    pub fn insert(&mut self, entry: Entry, fresh: TableBlocks)
        requires serial { entry_at entry.serial self.old.entries ≡ None }
        requires few { length entry.tables ≤ 8 }
        requires room { 0 < self.old.room }
        requires table_room { length fresh ≤ self.old.table_room }
        requires fresh { AreFresh entry self.old.tables fresh }
        ensures added { AddsEntry entry fresh self.old self.new }
        ensures valid { IsDirectory self.new }
    {
        put_tables(&mut self.tables, fresh);
        name_tables(
            &mut self.named,
            &self.tables,
            entry.tables.items(),
            entry.serial,
        );
        self.entries.insert(entry);
    }

    /// Makes an entry complete, and the most recently used one.
    pub fn complete(&mut self, serial: u64)
        requires { IsSome (entry_at serial self.old.entries) }
        ensures entries { self.new ≡ with_entries (after_complete serial self.old.entries) self.old }
        ensures valid { IsDirectory self.new }
    {
        self.entries.complete(serial);
    }

    /// Makes an entry the most recently used one.
    pub fn touch(&mut self, serial: u64)
        requires { IsSome (entry_at serial self.old.entries) }
        ensures entries { self.new ≡ with_entries (after_touch serial self.old.entries) self.old }
        ensures valid { IsDirectory self.new }
    {
        self.entries.touch(serial);
    }

    /// Gives an entry one user more. It has fewer than 4,294,967,295.
    pub fn enter(&mut self, serial: u64)
        requires { IsSomeAnd (entry_at serial self.old.entries) (λ e. e.users < 2 ^ 32 - 1) }
        ensures entries { self.new ≡ with_entries (after_enter serial self.old.entries) self.old }
        ensures valid { IsDirectory self.new }
    {
        self.entries.enter(serial);
    }

    /// Gives an entry one user less. It has one at least.
    pub fn leave(&mut self, serial: u64)
        requires { IsSomeAnd (entry_at serial self.old.entries) (λ e. 0 < e.users) }
        ensures entries { self.new ≡ with_entries (after_leave serial self.old.entries) self.old }
        ensures valid { IsDirectory self.new }
    {
        self.entries.leave(serial);
    }

    /// Takes an entry out, and with it the blocks of the tables that no other entry names.
    pub fn remove(&mut self, serial: u64) -> Removed
        requires { IsSome (entry_at serial self.old.entries) }
        ensures entry { entry_at serial self.old.entries ≡ Some result.entry }
        ensures removed { RemovesEntry serial result.freed self.old self.new }
        ensures valid { IsDirectory self.new }
    {
        let entry = self.entries.remove(serial);
        let mut freed = TableBlocks::new();
        for table in entry.tables.items() {
            if let Some(item) = free_table(&mut self.tables, &mut self.named, table, serial) {
                freed.push(item);
            }
        }
        Removed { entry, freed }
    }

    /// The serial of an entry that names a table. None exactly where there is none.
    pub fn next_on_table(&self, table: &TableName) -> Option<u64>
        ensures serial { MatchOption result (list_any (names_table table.now) self.now.entries ≡ false) (λ n. IsSomeAnd (entry_at n self.now.entries) (λ e. names_table table.now e ≡ true)) }
        ensures valid { IsDirectory self.now }
    {
        let Some(number) = self.tables.find(table) else {
            return None;
        };
        self.named.any_under(u64::from(number))
    }

    /// The serial of the least recently used entry, whatever its state. None exactly where there is none. Constant time.
    pub fn oldest(&self) -> Option<u64>
        ensures serial { result ≡ option_map (λ e. e.serial) (slice_get self.now.entries 0) }
        ensures valid { IsDirectory self.now }
    {
        self.entries.oldest()
    }

    /// The serial of the least recently used entry that is complete and without users. None exactly where there is none. It passes the entries that were
    /// used before that one, all in use or not complete.
    pub fn oldest_idle(&self) -> Option<u64>
        ensures serial { result ≡ oldest_idle self.now.entries }
        ensures valid { IsDirectory self.now }
    {
        self.entries.oldest_idle()
    }

    /// Follows a block that moved, whether it is an entry's text block or a table's.
    pub fn shift(&mut self, change: Move)
        ensures shifted { self.new ≡ after_shift change self.old }
        ensures valid { IsDirectory self.new }
    {
        let _ = &self.tables;
        if change.from != change.to {
            self.tables.shift(change);
            while self.shift_text(change) {}
        }
    }

    /// Follows the text block of one entry. False where none stands at the place.
    fn shift_text(&mut self, change: Move) -> bool
        requires { change.from ≢ change.to }
        ensures entries { map (moved_entry change) self.new.entries ≡ map (moved_entry change) self.old.entries }
        ensures others { self.new ≡ record self.old { entries = self.new.entries } }
        ensures one { result ≡ true → texts_at change.from self.new.entries + 1 ≡ texts_at change.from self.old.entries }
        ensures none { result ≡ false → texts_at change.from self.new.entries ≡ 0 }
        ensures valid { IsDirectory self.new }
    {
        let Some(serial) = self.entries.text_at(change.from) else {
            return false;
        };
        self.entries.place(serial, change.to);
        true
    }
}

/// Puts tables in.
fn put_tables(tables: &mut TableSlots, mut fresh: TableBlocks)
    requires { length fresh ≤ tables.old.room }
    ensures { AddsTables fresh tables.old tables.new }
{
    while let Some(item) = fresh.pop() {
        let _ = tables.add(item);
    }
}

/// Puts the numbers of an entry's tables into the set, all with its serial.
fn name_tables(named: &mut KeySet, tables: &TableSlots, names: &[TableName], serial: u64)
    requires room { length names.now ≤ named.old.room }
    requires once { (t : TableName) → holding t tables.now.held ≤ 1 }
    requires held { AllByRecursion (λ t. 0 < holding t tables.now.held) names.now }
    ensures keys { (k : Key) → times k named.new.keys ≡ times k named.old.keys + named_times k tables.now.held serial names.now }
    ensures room { named.new.room + length names.now ≡ named.old.room }
{
    for table in names {
        let Some(number) = tables.find(table) else {
            unreachable!()
        };
        named.insert(u64::from(number), serial);
    }
}

/// Takes one name of an entry out of the set, and frees its table where no other entry names it.
fn free_table(
    tables: &mut TableSlots,
    named: &mut KeySet,
    table: &TableName,
    serial: u64,
) -> Option<TableBlock>
    requires once { holding table.now tables.old.held ≤ 1 }
    requires stands { IsSomeAnd (number_of table.now tables.old.held) (λ n. 0 < times (record { major = n; minor = serial }) named.old.keys) }
    ensures { (n : ℕ) → number_of table.now tables.old.held ≡ Some n → FreesName n serial result tables.old tables.new named.old named.new }
{
    let Some(number) = tables.find(table) else {
        unreachable!()
    };
    named.remove(Key {
        major: u64::from(number),
        minor: serial,
    });
    if has_number(named, number) {
        return None;
    }
    Some(tables.free(number))
}

/// Whether a number stands in the set.
fn has_number(named: &KeySet, number: u32) -> bool
    ensures yes { result ≡ true → (s : ℕ) × (0 < times (record { major = number; minor = s }) named.now.keys) }
    ensures no { result ≡ false → (s : ℕ) → times (record { major = number; minor = s }) named.now.keys ≡ 0 }
{
    named.any_under(u64::from(number)).is_some()
}

/// The lesser of two serials, of those that are not below the first number.
fn least_from(from: u64, least: Option<u64>, serial: u64) -> Option<u64>
    ensures { result ≡ least_from from least serial }
{
    if serial < from {
        return least;
    }
    match least {
        Some(found) => Some(found.min(serial)),
        None => Some(serial),
    }
}
