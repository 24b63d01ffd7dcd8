//! The calls on a directory as tests make them: what each call asks for is looked up before it.

ghost use Rattle.std.specs.Prelude.{◌≤◌, length, IfOk};
ghost use Rattle.qc_dir.specs.Directory.{AreFresh};

use crate::chains::block;
use crate::told::must;
use qc_dir::{Block, ChainName, Dir, Entry, Removed, TableBlock, TableBlocks};
use qc_sql::names::has_table;
use qc_types::{Duplicate, NoMemory, TableName, Tables, Text};
use std::alloc::Global;
use std::process::Abort;

/// A table of the database `db`.
fn table(rt: &impl Abort, alloc: Global, name: &str) -> TableName {
    TableName {
        db: must(rt, Text::of(alloc, b"db")),
        name: must(rt, Text::of(alloc, name.as_bytes())),
    }
}

pub fn tables(rt: &impl Abort, alloc: Global, names: &[&str]) -> Tables {
    let mut tables = Tables::new(alloc);
    for name in names {
        must(rt, tables.push(table(rt, alloc, name)));
    }
    tables
}

/// An entry that is not complete. Its hash is half of its serial.
pub fn new_entry(serial: u64, text: Block, tables: Tables, chain: ChainName) -> Entry {
    Entry {
        serial,
        hash: serial / 2,
        text,
        text_bytes: 30,
        tables,
        chain,
        complete: false,
        users: 0,
    }
}

/// Blocks for those of an entry's tables that have none yet, 64 words each from a place on.
fn fresh_for(alloc: Global, dir: &Dir, entry: &Entry, first: u32) -> Result<TableBlocks, NoMemory>
    requires { length entry.now.tables ≤ 8 }
    ensures { IfOk result (AreFresh entry.now dir.now.tables) }
{
    let mut fresh = TableBlocks::new();
    let mut place = first;
    let tables = entry.tables.items();
    for (at, table) in tables.iter().enumerate() {
        if has_table(&tables[..at], table) {
            continue;
        }
        if dir.table_block(table).is_some() {
            continue;
        }
        fresh.push(TableBlock {
            table: table.duplicate(alloc)?,
            block: block(place, 64),
        });
        place = place.wrapping_add(64);
    }
    Ok(fresh)
}

/// Puts in an entry, whose fresh blocks stand from a place on.
pub fn insert(rt: &impl Abort, alloc: Global, dir: &mut Dir, entry: Entry, first: u32) {
    assert!(rt; entry.tables.items().len() <= 8);
    let fresh = must(rt, fresh_for(alloc, dir, &entry, first));
    assert!(rt; dir.room() > 0);
    assert!(rt; fresh.len() <= dir.table_room());
    assert!(rt; dir.entry(entry.serial).is_none());
    dir.insert(entry, fresh);
}

pub fn complete(rt: &impl Abort, dir: &mut Dir, serial: u64) {
    assert!(rt; dir.entry(serial).is_some());
    dir.complete(serial);
}

pub fn touch(rt: &impl Abort, dir: &mut Dir, serial: u64) {
    assert!(rt; dir.entry(serial).is_some());
    dir.touch(serial);
}

pub fn enter(rt: &impl Abort, dir: &mut Dir, serial: u64) {
    match dir.entry(serial) {
        Some(entry) => assert!(rt; entry.users < u32::MAX),
        None => panic!(rt; "no entry {serial}"),
    }
    dir.enter(serial);
}

pub fn leave(rt: &impl Abort, dir: &mut Dir, serial: u64) {
    match dir.entry(serial) {
        Some(entry) => assert!(rt; entry.users > 0),
        None => panic!(rt; "no entry {serial}"),
    }
    dir.leave(serial);
}

pub fn remove(rt: &impl Abort, dir: &mut Dir, serial: u64) -> Removed {
    assert!(rt; dir.entry(serial).is_some());
    dir.remove(serial)
}

/// The chain of an entry.
pub fn chain_of(rt: &impl Abort, dir: &Dir, serial: u64) -> ChainName {
    match dir.entry(serial) {
        Some(entry) => entry.chain,
        None => panic!(rt; "no entry {serial}"),
    }
}

/// The place of an entry's text block.
pub fn text_of(dir: &Dir, serial: u64) -> Option<u32> {
    match dir.entry(serial) {
        Some(entry) => Some(entry.text.first),
        None => None,
    }
}

/// The place of a table's block.
pub fn block_of(rt: &impl Abort, alloc: Global, dir: &Dir, name: &str) -> Option<u32> {
    let block = dir.table_block(&table(rt, alloc, name));
    block.map(|it| it.first)
}

/// An entry that names a table.
pub fn on_table(rt: &impl Abort, alloc: Global, dir: &Dir, name: &str) -> Option<u64> {
    dir.next_on_table(&table(rt, alloc, name))
}
