//! The database.

ghost use Rattle.std.specs.Prelude.{◌≡◌, true, is_some, length, option_copied, option_map, IfOk, OnErr};
ghost use Rattle.qc_types.specs.Answers.{Gives};
ghost use Rattle.qc_sql.specs.Database.{apply, empty_database, table_of, tables_of};
ghost use Rattle.qc_sql.specs.Order.{IsOrdered};
ghost use Rattle.qc_model.specs.Licence.{is_within_rows, ops_fit};
ghost use Rattle.qc_table.specs.Fitting.{fitting, AreCarriedOut};
ghost use Rattle.qc_table.specs.Views.{tables_in};

use crate::draft::Draft;
use crate::in_place::{Databases, carry_out};
use crate::name_map::NameMap;
use crate::table_version::TableVersion;
use qc_sql::tables::{Ops, RowOp};
use qc_types::{NoMemory, Or, TableName, Tables};
use std::alloc::Global;
use std::marker::Model;
use std::sync::Arc;

/// A table with more than 1,048,576 rows.
#[derive(Debug, Drop)]
pub struct TableFull {
    /// Its name. Where several are too full, it is the first by the names of databases, and in one database by its own.
    pub table: TableName,
}

/// The tables of each database, in memory. Those that share it, and what operations make of it, share the tables that aren't touched.
#[derive(Drop)]
pub struct Database {
    databases: Arc<Databases>,
}

impl Model for Database {
    ghost use Rattle.qc_sql.specs.Database as meant;
    ghost use Rattle.qc_table.specs.Tables.{IsHeld};

    ghost Value = { meant.Database };

    ghost view = { λ d. d.databases.value };

    ghost invariant = { λ d. IsHeld d.databases.value };
}

impl Database {
    /// A database server's data before anything is created.
    pub fn empty(alloc: Global) -> Result<Database, NoMemory>
        ensures { IfOk result (λ d. d ≡ empty_database) }
    {
        Ok(Database {
            databases: Arc::new(alloc, NameMap::new(alloc))?,
        })
    }

    /// The same once more. Constant time. Fails where memory runs out.
    pub fn share(&self) -> Result<Database, NoMemory>
        ensures same { IfOk result (λ d. d ≡ self.now) }
        ensures within { is_within_rows self.now ≡ true }
    {
        Ok(Database {
            databases: Arc::try_clone(&self.databases)?,
        })
    }

    /// A law, with no code: its databases and their tables stand by rising name, each name once, and the rows of each table by rising key.
    pub fn is_in_order(&self)
        ensures { IsOrdered self.now }
    {
        // (a function knows of the invariant where it names a field)
        let _ = &self.databases;
    }

    /// Whether there is a database of that name.
    pub fn has_db(&self, name: &[u8]) -> bool
        ensures { result ≡ is_some (tables_of name.now self.now) }
    {
        self.databases.get(name).is_some()
    }

    /// The table of that name, where there is one.
    pub fn table(&self, name: &TableName) -> Option<&TableVersion>
        ensures { option_copied result ≡ table_of name.now self.now }
    {
        let tables = self.databases.get(name.db.bytes())?;
        tables.get(name.name.bytes())
    }

    /// How many tables a database has, where there is one of that name. Costs the logarithm of how many databases there are.
    pub fn table_count(&self, db: &[u8]) -> Option<u64>
        ensures { result ≡ option_map length (tables_of db.now self.now) }
    {
        let tables = self.databases.get(db)?;
        Some(tables.len())
    }

    /// The names of the tables of a database, by rising name; none where there is no such database. Costs what the names hold, beside the logarithm of how
    /// many databases there are.
    pub fn tables_in(&self, alloc: Global, db: &[u8]) -> Result<Tables, NoMemory>
        ensures { IfOk result (λ tables. tables ≡ tables_in db.now self.now) }
    {
        match self.databases.get(db) {
            Some(tables) => tables.as_tables(alloc, db),
            None => Ok(Tables::new(alloc)),
        }
    }

    /// What the operations make of it, the first of them first, or the first table that has too many rows then. Either way this database stays as it is.
    /// Fails where memory runs out, too. Costs k log k for k operations and tables, and what the tables hold that are touched. With no operation it is this
    /// database, shared: constant time.
    pub fn apply(&self, alloc: Global, ops: &Ops) -> Result<Database, Or<TableFull>>
        requires { ops_fit ops.now self.now ≡ true }
        ensures { Gives (λ d. d) (λ full. full.table) result (fitting (apply ops.now self.now)) }
    {
        if ops.items().is_empty() {
            return Ok(self.share()?);
        }
        let databases = self.tables_after(alloc, ops)?;
        Ok(Database {
            databases: Arc::new(alloc, databases)?,
        })
    }

    /// Makes of it what the operations make, the first of them first, or names the first table that would have too many rows; it is as before then, and also
    /// where memory runs out. One operation alone is carried out in place where no other one shares the database: it costs the logarithm of how many databases
    /// and tables there are, and what the table holds that it touches. Where no other one shares the version of that table either, rows that are
    /// put into it cost what they hold, over many calls, and the logarithm of how many rows there are for each that doesn't come behind them all, where they
    /// all come behind its others, all replace some and change no VARCHAR, or are at most 16; at most 16 that are taken out cost that logarithm for each. A row
    /// that comes between others, changes a VARCHAR or is taken out costs a move of what stands behind it in its columns, too. Else it costs as much as
    /// `apply`, which copies each table that is touched.
    /// The copy is shared with no one, so what comes next changes it in place.
    pub fn change(&mut self, alloc: Global, ops: &Ops) -> Result<(), Or<TableFull>>
        requires { ops_fit ops.now self.old ≡ true }
        ensures made { Gives (λ _. self.new) (λ full. full.table) result (fitting (apply ops.now self.old)) }
        ensures kept { OnErr result (self.new ≡ self.old) }
    {
        if self.change_in_place(alloc, ops.items())? {
            return Ok(());
        }
        *self = self.apply(alloc, ops)?;
        Ok(())
    }

    /// Carries out operations in place, or leaves all as it was where another one shares the database, where they aren't of the kinds that are carried out so,
    /// where a table would have too many rows, and where memory runs out.
    fn change_in_place(&mut self, alloc: Global, ops: &[RowOp]) -> Result<bool, NoMemory>
        requires { ops_fit ops.now self.old ≡ true }
        ensures { AreCarriedOut ops.now self.old result self.new }
    {
        match Arc::get_mut(&mut self.databases) {
            Some(databases) => carry_out(databases, alloc, ops),
            None => Ok(false),
        }
    }

    /// The tables of each database after the operations, or the first table that has too many rows then.
    fn tables_after(&self, alloc: Global, ops: &Ops) -> Result<Databases, Or<TableFull>>
        requires { ops_fit ops.now self.now ≡ true }
        ensures made { Gives (λ d. d) (λ full. full.table) result (fitting (apply ops.now self.now)) }
        ensures ordered { IsOrdered self.now }
    {
        let mut draft = Draft::of(alloc, &self.databases)?;
        for op in ops.items() {
            draft.carry_out(alloc, op)?;
        }
        draft.versions(alloc)
    }
}
