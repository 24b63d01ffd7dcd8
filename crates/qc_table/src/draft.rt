//! A database that operations change.

ghost use Rattle.std.specs.Prelude.{◌≡◌, true, IfOk, OnOk};
ghost use Rattle.qc_types.specs.Answers.{Gives};
ghost use Rattle.qc_sql.specs.declared.tables.RowOp.TheVariants as op;
ghost use Rattle.qc_sql.specs.Database.{apply_one};
ghost use Rattle.qc_model.specs.Licence.{op_fits};
ghost use Rattle.qc_table.specs.Fitting.{fitting, fitting_tables, IsRefusal};

use crate::database::TableFull;
use crate::draft_table::DraftTable;
use crate::in_place::Databases;
use crate::name_map::{NameMap, table_name};
use crate::table_version::TableVersion;
use qc_sql::tables::{Columns, RowOp, StoredRow};
use qc_types::{NoMemory, Or, TableName, Text};
use std::alloc::Global;
use std::marker::Model;

/// The tables of each database, with changes.
#[derive(Drop)]
pub(crate) struct Draft {
    databases: NameMap<NameMap<DraftTable>>,
}

impl Model for Draft {
    ghost use Rattle.qc_sql.specs.Database.{Database};

    ghost Value = { Database };

    ghost view = { λ d. d.databases };
}

impl Draft {
    /// What is stored, without changes. Costs n log n for n tables.
    pub(crate) fn of(alloc: Global, stored: &Databases) -> Result<Draft, NoMemory>
        ensures { IfOk result (λ d. d ≡ stored.now) }
    {
        stored.is_in_order();
        let mut databases = NameMap::new(alloc);
        for (db, tables) in &stored.held {
            databases.insert(alloc, db.as_slice(), drafts_of(alloc, tables)?)?;
        }
        Ok(Draft { databases })
    }

    /// Carries out one operation. Costs the logarithm of how many databases, tables and changes there are.
    pub(crate) fn carry_out(&mut self, alloc: Global, op: &RowOp) -> Result<(), NoMemory>
        requires { op_fits op.now self.old ≡ true }
        ensures { OnOk result (self.new ≡ apply_one op.now self.old) }
    {
        match op {
            RowOp::Put(table, row) => self.put(alloc, table, row),
            RowOp::Del(table, key) => self.del(table, *key),
            RowOp::CreateTable(table, columns) => self.create_table(alloc, table, columns),
            RowOp::DropTable(table) => {
                self.drop_table(table);
                Ok(())
            }
            RowOp::CreateDb(name) => self.create_db(alloc, name),
            RowOp::DropDb(name) => {
                self.drop_db(name);
                Ok(())
            }
        }
    }

    fn put(&mut self, alloc: Global, table: &TableName, row: &StoredRow) -> Result<(), NoMemory>
        requires { op_fits (op.Put table.now row.now) self.old ≡ true }
        ensures { OnOk result (self.new ≡ apply_one (op.Put table.now row.now) self.old) }
    {
        let Some(tables) = self.databases.get_mut(table.db.bytes()) else {
            unreachable!()
        };
        let Some(draft) = tables.get_mut(table.name.bytes()) else {
            unreachable!()
        };
        draft.put(alloc, row)
    }

    fn del(&mut self, table: &TableName, key: i64) -> Result<(), NoMemory>
        requires { op_fits (op.Del table.now key) self.old ≡ true }
        ensures { OnOk result (self.new ≡ apply_one (op.Del table.now key) self.old) }
    {
        let Some(tables) = self.databases.get_mut(table.db.bytes()) else {
            unreachable!()
        };
        let Some(draft) = tables.get_mut(table.name.bytes()) else {
            unreachable!()
        };
        draft.del(key)
    }

    fn create_table(
        &mut self,
        alloc: Global,
        table: &TableName,
        columns: &Columns,
    ) -> Result<(), NoMemory>
        requires { op_fits (op.CreateTable table.now columns.now) self.old ≡ true }
        ensures { OnOk result (self.new ≡ apply_one (op.CreateTable table.now columns.now) self.old) }
    {
        let draft = DraftTable::new(alloc, columns)?;
        let Some(tables) = self.databases.get_mut(table.db.bytes()) else {
            unreachable!()
        };
        tables.insert(alloc, table.name.bytes(), draft)
    }

    fn drop_table(&mut self, table: &TableName)
        requires { op_fits (op.DropTable table.now) self.old ≡ true }
        ensures { self.new ≡ apply_one (op.DropTable table.now) self.old }
    {
        let Some(tables) = self.databases.get_mut(table.db.bytes()) else {
            unreachable!()
        };
        tables.remove(table.name.bytes());
    }

    fn create_db(&mut self, alloc: Global, name: &Text) -> Result<(), NoMemory>
        requires { op_fits (op.CreateDb name.now) self.old ≡ true }
        ensures { OnOk result (self.new ≡ apply_one (op.CreateDb name.now) self.old) }
    {
        let tables = NameMap::new(alloc);
        self.databases.insert(alloc, name.bytes(), tables)
    }

    fn drop_db(&mut self, name: &Text)
        ensures { self.new ≡ apply_one (op.DropDb name.now) self.old }
    {
        self.databases.remove(name.bytes());
    }

    /// Versions of all tables, or the first table that has too many rows. Linear in what the tables hold that have changes, and n log n for n tables.
    pub(crate) fn versions(&self, alloc: Global) -> Result<Databases, Or<TableFull>>
        ensures { Gives (λ d. d) (λ f. f.table) result (fitting self.now) }
    {
        self.databases.is_in_order();
        let mut made = NameMap::new(alloc);
        for (db, tables) in &self.databases.held {
            let versions = versions_of(alloc, db.as_slice(), tables)?;
            made.insert(alloc, db.as_slice(), versions)?;
        }
        Ok(made)
    }
}

fn drafts_of(alloc: Global, stored: &NameMap<TableVersion>) -> Result<NameMap<DraftTable>, NoMemory>
    ensures { IfOk result (λ d. d ≡ stored.now) }
{
    stored.is_in_order();
    let mut drafts = NameMap::new(alloc);
    for (name, version) in &stored.held {
        drafts.insert(alloc, name.as_slice(), DraftTable::of(alloc, version)?)?;
    }
    Ok(drafts)
}

fn versions_of(
    alloc: Global,
    db: &[u8],
    tables: &NameMap<DraftTable>,
) -> Result<NameMap<TableVersion>, Or<TableFull>>
    ensures { Gives (λ d. d) (λ f. f.table) result (fitting_tables db.now tables.now) }
{
    tables.is_in_order();
    let mut made = NameMap::new(alloc);
    for (name, draft) in &tables.held {
        let Some(version) = draft.version(alloc)? else {
            return Err(full(alloc, db, name.as_slice()));
        };
        made.insert(alloc, name.as_slice(), version)?;
    }
    Ok(made)
}

/// The refusal that names the table, or want of memory.
fn full(alloc: Global, db: &[u8], name: &[u8]) -> Or<TableFull>
    ensures { IsRefusal (record { db = db.now; name = name.now }) result }
{
    match table_name(alloc, db, name) {
        Ok(table) => Or::Other(TableFull { table }),
        Err(_) => Or::Memory,
    }
}
