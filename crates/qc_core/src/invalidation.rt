//! Operations are committed.

ghost use Rattle.std.specs.Prelude.{◌≡◌, ◌<◌, ◌≤◌, true, not, length, filter, IfOk, OnOk, OnErr};
ghost use Rattle.std.specs.List.{list_all, list_any};
ghost use Rattle.std.specs.Option.{option_copied};
ghost use Rattle.qc_types.specs.Answers.{Gives};
ghost use Rattle.qc_sql.specs.Database.{apply};
ghost use Rattle.qc_model.specs.Licence.{ops_fit};
ghost use Rattle.qc_table.specs.Fitting.{fitting};
ghost use Rattle.qc_dir.specs.Directory.{names_table};
ghost use Rattle.qc_turn.specs.Seats.{MayRelease, SameHolder};
ghost use Rattle.qc_laws.specs.sizes.Operations.{is_small_operation};
ghost use Rattle.qc_core.specs.Whole.{tasks_of};
ghost use Rattle.qc_core.specs.Calls.{IsNext, HasSpare};
ghost use Rattle.qc_core.specs.EntriesCut.{HasSoundBlocks};
ghost use Rattle.qc_core.specs.Invalidation as meant;
ghost use Rattle.qc_core.specs.Invalidation.{is_named_by, tables_dropped, EntriesHaveTables, TakesOut, IsCommitted};

use crate::reserved_blocks::ReservedBlocks;
use crate::server::Server;
use crate::server_state::ServerState;
use qc_model::events::{Event, Who};
use qc_model::shared_ops::SharedOps;
use qc_sql::tables::{Ops, RowOp};
use qc_table::{Database, TableFull};
use qc_turn::Held;
use qc_types::{NoMemory, Or, TableName, Tables};
use std::alloc::Global;

impl ServerState {
    /// Takes the entries out that name a table.
    fn drop_on_table(&mut self, table: &TableName)
        requires { HasSoundBlocks self.old }
        ensures out { TakesOut (names_table table.now) self.old self.new }
        ensures blocks { HasSoundBlocks self.new }
    {
        while let Some(serial) = self.dir.next_on_table(table) {
            self.drop_entry(serial, &mut ReservedBlocks::none(self.alloc));
        }
    }

    /// Takes the entries out that name one of these tables.
    fn drop_on_tables(&mut self, tables: &[TableName])
        requires { HasSoundBlocks self.old }
        ensures out { TakesOut (λ e. list_any (λ t. names_table t e) tables.now) self.old self.new }
        ensures blocks { HasSoundBlocks self.new }
    {
        for table in tables {
            self.drop_on_table(table);
        }
    }

    /// Takes the entries out that name the table of one of these operations.
    fn drop_named(&mut self, ops: &[RowOp])
        requires { HasSoundBlocks self.old }
        ensures out { TakesOut (λ e. list_any (λ op. is_named_by op e) ops.now) self.old self.new }
        ensures blocks { HasSoundBlocks self.new }
    {
        for op in ops {
            self.drop_named_by(op);
        }
    }

    /// Takes the entries out that name the table of an operation, where that has one.
    fn drop_named_by(&mut self, op: &RowOp)
        requires { HasSoundBlocks self.old }
        ensures out { TakesOut (is_named_by op.now) self.old self.new }
        ensures blocks { HasSoundBlocks self.new }
    {
        if let Some(table) = named_table(op) {
            self.drop_on_table(table);
        }
    }

    /// Changes the database, takes the entries out that use a table which the operations touch, and pushes the event. Answers its number.
    fn commit(&mut self, alloc: Global, who: Who, ops: Ops) -> Result<u64, Or<TableFull>>
        requires blocks { HasSoundBlocks self.old }
        requires tables { EntriesHaveTables self.old }
        requires fit { ops_fit ops self.old.database ≡ true }
        requires room { 1 ≤ self.old.journal.spare }
        ensures made { Gives (λ number. self.new.database) (λ full. full.table) result (fitting (apply ops self.old.database)) }
        ensures number { IfOk result (λ number. number ≡ length self.new.journal.events) }
        ensures committed { OnOk result (IsCommitted who ops self.old self.new) }
        ensures kept { OnErr result (self.new ≡ self.old) }
    {
        let dropped = dropped_tables(alloc, &self.database, ops.items())?;
        let ops = SharedOps::of(alloc, ops)?;
        self.database.change(alloc, ops.list())?;
        self.drop_on_tables(dropped.items());
        self.drop_named(ops.items());
        Ok(self.push(Event::Commit { who, ops }))
    }
}

impl Server {
    /// The same of what is in the box.
    fn commit(&mut self, alloc: Global, who: Who, ops: Ops) -> Result<u64, Or<TableFull>>
        requires blocks { HasSoundBlocks self.old }
        requires tables { EntriesHaveTables self.old }
        requires fit { ops_fit ops self.old.database ≡ true }
        requires room { 1 ≤ self.old.journal.spare }
        ensures made { Gives (λ number. self.new.database) (λ full. full.table) result (fitting (apply ops self.old.database)) }
        ensures number { IfOk result (λ number. number ≡ length self.new.journal.events) }
        ensures committed { OnOk result (IsCommitted who ops self.old self.new) }
        ensures kept { OnErr result (self.new ≡ self.old) }
    {
        self.parts.commit(alloc, who, ops)
    }
}

/// Commits operations: carries them out on the database where it stands, takes the entries out that use a table which they touch, complete or not, as in
/// MySQL's "How the Query Cache Operates", pushes the event, and answers its number. There is one at least, they fit the database, and they are small: names
/// that they make have at most 64 bytes, and what they store is bounded. Refused exactly where a table would have too many rows, by the first such table.
/// Nothing changes then, nor where memory lacks. An entry's blocks are given back but for its chain where a seat streams or fills that. Costs what
/// `Database::change` costs, a look-up for each operation and each table of a database that is dropped, and what the entries hold that leave.
pub fn commit(
    held: &mut Held<'_, Server>,
    alloc: Global,
    who: Who,
    ops: Ops,
) -> Result<u64, Or<TableFull>>
    requires stands { MayRelease held.old }
    requires next { IsNext held.old who }
    requires room { HasSpare held.old.value }
    requires some { 0 < length ops }
    requires fit { ops_fit ops held.old.value.database ≡ true }
    requires small { list_all is_small_operation ops ≡ true }
    ensures stands { MayRelease held.new × SameHolder held.old held.new }
    ensures made { Gives (λ number. held.new.value.database) (λ full. full.table) result (fitting (apply ops held.old.value.database)) }
    ensures number { IfOk result (λ number. number ≡ length held.new.value.journal.events) }
    ensures committed { OnOk result (IsCommitted who ops held.old.value held.new.value) }
    ensures kept { OnErr result (held.new.value ≡ held.old.value) }
    ensures listed { tasks_of held.new.value ≡ tasks_of held.old.value }
    ensures ranges { held.new.ranges ≡ held.old.ranges }
{
    held.value().commit(alloc, who, ops)
}

/// The tables that a database has of those databases that operations drop.
fn dropped_tables(alloc: Global, database: &Database, ops: &[RowOp]) -> Result<Tables, NoMemory>
    ensures { IfOk result (λ tables. tables ≡ tables_dropped ops.now database.now) }
{
    let mut dropped = Tables::new(alloc);
    for op in ops {
        dropped.append(tables_dropped_by(alloc, database, op)?)?;
    }
    Ok(dropped)
}

/// The tables that a database has of the one that an operation drops, if it drops one.
fn tables_dropped_by(alloc: Global, database: &Database, op: &RowOp) -> Result<Tables, NoMemory>
    ensures { IfOk result (λ tables. tables ≡ meant.tables_dropped_by database.now op.now) }
{
    match op {
        RowOp::DropDb(name) => database.tables_in(alloc, name.bytes()),
        RowOp::Put(_, _) | RowOp::Del(_, _) => Ok(Tables::new(alloc)),
        RowOp::CreateTable(_, _) => Ok(Tables::new(alloc)),
        RowOp::DropTable(_) => Ok(Tables::new(alloc)),
        RowOp::CreateDb(_) => Ok(Tables::new(alloc)),
    }
}

/// The table that an operation names; one on a whole database names none.
fn named_table(op: &RowOp) -> Option<&TableName>
    ensures { option_copied result ≡ meant.named_table op.now }
{
    match op {
        RowOp::Put(table, _) | RowOp::Del(table, _) => Some(table),
        RowOp::CreateTable(table, _) => Some(table),
        RowOp::DropTable(table) => Some(table),
        RowOp::CreateDb(_) | RowOp::DropDb(_) => None,
    }
}
