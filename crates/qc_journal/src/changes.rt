//! An index of the events: which commit was the last to touch a table.

ghost use Rattle.std.specs.Prelude.{◌≡◌, ◌≤◌, false, [], length, None, OnOk, OnErr, bytes_eq, if◌then◌else◌};
ghost use Rattle.std.specs.List.{list_any};
ghost use Rattle.qc_types.specs.declared.names.TableName.{TableName};
ghost use Rattle.qc_sql.specs.Database.{Name, at_name, same_table, touches};
ghost use Rattle.qc_model.specs.Journal as journal;
ghost use Rattle.qc_journal.specs.Indexed.{found, last_after, number_in};

use crate::touching::touches_table;
use qc_model::events::Event;
use qc_sql::tables::RowOp;
use qc_table::NameMap;
use qc_types::{NoMemory, TableName};
use std::alloc::Global;

/// Which commits were the last to touch the tables of a database. It stays where the database is dropped, since one of that name may be made again.
#[derive(Drop)]
pub(crate) struct InDatabase {
    /// The number of the last commit that dropped the database, or 0.
    dropped: u64,
    /// For each table that was touched since then, the number of the last commit that touched it.
    tables: NameMap<u64>,
}

impl InDatabase {
    /// The tables of a database that this commit dropped, or of one that no commit has, for 0.
    fn dropped_at(alloc: Global, number: u64) -> InDatabase
        ensures dropped { result.dropped ≡ number }
        ensures tables { result.tables ≡ [] }
    {
        InDatabase {
            dropped: number,
            tables: NameMap::new(alloc),
        }
    }

    /// The number that stands for a table.
    fn number(&self, name: &[u8]) -> u64
        ensures { result ≡ number_in name.now self.now }
    {
        match self.tables.get(name) {
            Some(number) => *number,
            None => self.dropped,
        }
    }

    /// Enters that this commit touched a table.
    fn enter(&mut self, alloc: Global, name: &[u8], number: u64) -> Result<(), NoMemory>
        ensures ok { OnOk result
            ((q : Name) → number_in q self.new ≡ (if bytes_eq q name.now then number else number_in q self.old)) }
        ensures err { OnErr result (self.new ≡ self.old) }
    {
        match self.tables.get_mut(name) {
            Some(found) => {
                *found = number;
                Ok(())
            }
            None => self.tables.insert(alloc, name, number),
        }
    }
}

/// Which commit was the last to touch each table, among the events that are entered: those of a journal from its first on.
#[derive(Drop)]
pub(crate) struct Changes {
    databases: NameMap<InDatabase>,
    /// How many events are entered.
    pub(crate) entered: usize,
}

impl Changes {
    /// An index of no events.
    pub(crate) fn new(alloc: Global) -> Changes
        ensures found { (t : TableName) → found t result ≡ 0 }
        ensures entered { result.entered ≡ 0 }
    {
        Changes {
            databases: NameMap::new(alloc),
            entered: 0,
        }
    }

    /// The number of the last commit among the entered events that touches the table, or 0.
    /// Costs the logarithm of how many databases and tables were ever changed.
    fn last(&self, table: &TableName) -> u64
        ensures { result ≡ found table.now self.now }
    {
        match self.databases.get(table.db.bytes()) {
            Some(tables) => tables.number(table.name.bytes()),
            None => 0,
        }
    }

    fn enter_table(&mut self, alloc: Global, table: &TableName, number: u64) -> Result<(), NoMemory>
        ensures ok { OnOk result
            ((t : TableName) → found t self.new ≡ (if same_table t table.now then number else found t self.old)) }
        ensures err { OnErr result (self.new ≡ self.old) }
        ensures same { self.new.entered ≡ self.old.entered }
    {
        match self.databases.get_mut(table.db.bytes()) {
            Some(tables) => tables.enter(alloc, table.name.bytes(), number),
            None => self.enter_first(alloc, table, number),
        }
    }

    /// Enters the first table of its database.
    fn enter_first(&mut self, alloc: Global, table: &TableName, number: u64) -> Result<(), NoMemory>
        requires { at_name table.now.db self.old.databases ≡ None }
        ensures ok { OnOk result
            ((t : TableName) → found t self.new ≡ (if same_table t table.now then number else found t self.old)) }
        ensures err { OnErr result (self.new ≡ self.old) }
        ensures same { self.new.entered ≡ self.old.entered }
    {
        let mut tables = InDatabase::dropped_at(alloc, 0);
        tables.enter(alloc, table.name.bytes(), number)?;
        self.databases.insert(alloc, table.db.bytes(), tables)
    }

    fn enter_database(&mut self, alloc: Global, name: &[u8], number: u64) -> Result<(), NoMemory>
        ensures ok { OnOk result
            ((t : TableName) → found t self.new ≡ (if bytes_eq t.db name.now then number else found t self.old)) }
        ensures err { OnErr result (self.new ≡ self.old) }
        ensures same { self.new.entered ≡ self.old.entered }
    {
        self.databases
            .insert(alloc, name, InDatabase::dropped_at(alloc, number))
    }

    fn enter_op(&mut self, alloc: Global, op: &RowOp, number: u64) -> Result<(), NoMemory>
        ensures ok { OnOk result
            ((t : TableName) → found t self.new ≡ (if touches t op.now then number else found t self.old)) }
        ensures err { OnErr result (self.new ≡ self.old) }
        ensures same { self.new.entered ≡ self.old.entered }
    {
        match op {
            RowOp::Put(table, _) => self.enter_table(alloc, table, number),
            RowOp::Del(table, _) => self.enter_table(alloc, table, number),
            RowOp::CreateTable(table, _) => self.enter_table(alloc, table, number),
            RowOp::DropTable(table) => self.enter_table(alloc, table, number),
            RowOp::CreateDb(_) => Ok(()),
            RowOp::DropDb(name) => self.enter_database(alloc, name.bytes(), number),
        }
    }

    fn enter_ops(&mut self, alloc: Global, ops: &[RowOp], number: u64) -> Result<(), NoMemory>
        ensures ok { OnOk result
            ((t : TableName) → found t self.new ≡ (if list_any (touches t) ops.now then number else found t self.old)) }
        ensures others { (t : TableName) → list_any (touches t) ops.now ≡ false → found t self.new ≡ found t self.old }
        ensures same { self.new.entered ≡ self.old.entered }
    {
        for op in ops {
            self.enter_op(alloc, op, number)?;
        }
        Ok(())
    }

    fn enter_event(&mut self, alloc: Global, event: &Event, number: u64) -> Result<(), NoMemory>
        ensures ok { OnOk result
            ((t : TableName) → found t self.new ≡ (if journal.touches_table t event.now then number else found t self.old)) }
        ensures others { (t : TableName) → journal.touches_table t event.now ≡ false → found t self.new ≡ found t self.old }
        ensures same { self.new.entered ≡ self.old.entered }
    {
        match event {
            Event::Commit { who: _, ops } => self.enter_ops(alloc, ops.items(), number),
            _ => Ok(()),
        }
    }

    /// Enters the events that are not entered yet, one after another. Where memory lacks, some of them are.
    /// Either way the index and the events behind those entered say the same of each table as before.
    /// Costs the logarithm of how many tables were ever changed, for each operation of these events.
    pub(crate) fn catch_up(&mut self, alloc: Global, events: &[Event]) -> Result<(), NoMemory>
        requires { self.old.entered ≤ length events.now }
        ensures same { (t : TableName) → last_after self.new events.now t ≡ last_after self.old events.now t }
        ensures within { self.new.entered ≤ length events.now }
        ensures all { OnOk result (self.new.entered ≡ length events.now) }
    {
        for place in self.entered..events.len() {
            self.enter_event(alloc, &events[place], place as u64 + 1)?;
            self.entered = place + 1;
        }
        Ok(())
    }

    /// The number of the last commit that touches the table, or 0: one of the events that are not entered, or else the one that the index has.
    /// Costs the operations of the events that are not entered, and the logarithm of how many tables were ever changed.
    pub(crate) fn last_change(&self, events: &[Event], table: &TableName) -> u64
        requires { self.now.entered ≤ length events.now }
        ensures { result ≡ last_after self.now events.now table.now }
    {
        let mut found = self.last(table);
        for place in self.entered..events.len() {
            if touches_table(table, &events[place]) {
                found = place as u64 + 1;
            }
        }
        found
    }
}
