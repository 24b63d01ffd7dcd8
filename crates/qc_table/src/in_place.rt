//! Databases that operations change where they stand.

ghost use Rattle.std.specs.Prelude.{◌≡◌, [], true, IfOk};
ghost use Rattle.qc_sql.specs.declared.tables.RowOp.TheVariants as op;
ghost use Rattle.qc_sql.specs.Database.{with_row, without_row};
ghost use Rattle.qc_model.specs.Licence.{columns_fit, is_within_rows, op_fits, ops_fit, row_fits};
ghost use Rattle.qc_table.specs.Fitting.{AreCarriedOut, IsCarriedOut, IsChanged};

use crate::dels::Dels;
use crate::draft_table::DraftTable;
use crate::merge::empty;
use crate::name_map::NameMap;
use crate::puts::Puts;
use crate::table_version::TableVersion;
use qc_sql::tables::{Columns, RowOp, StoredRow};
use qc_types::{NoMemory, TableName, Text};
use std::alloc::Global;

/// The tables of each database.
pub(crate) type Databases = NameMap<NameMap<TableVersion>>;

/// Carries out operations: rows of one table that all come behind the others or all replace some with the same texts, a few of other keys or texts, a few that
/// are taken out, or one operation of any kind. Answers `false`, and leaves all as it was, where they are others, and where a table would have too many rows. Costs the logarithm of
/// how many databases and tables there are, and what the rows hold over many calls, with the logarithm of how many rows the table has for each that doesn't
/// come behind them, and a move of the rows behind it for each that comes between others, changes a text or is taken out; or what the table holds that one
/// operation touches, where another one shares its version.
pub(crate) fn carry_out(
    databases: &mut Databases,
    alloc: Global,
    ops: &[RowOp],
) -> Result<bool, NoMemory>
    requires fits { ops_fit ops.now databases.old ≡ true }
    requires within { is_within_rows databases.old ≡ true }
    ensures { AreCarriedOut ops.now databases.old result databases.new }
{
    if put_rows(databases, alloc, ops)? {
        return Ok(true);
    }
    if remove_rows(databases, ops) {
        return Ok(true);
    }
    match ops {
        [op] => carry_out_one(databases, alloc, op),
        _ => Ok(false),
    }
}

/// Puts rows into one table. Answers `false`, and leaves all as it was, where the operations are others, where the version of the table is shared, where they
/// are many rows that neither all come behind the others nor all replace some with the same texts, and where the table might have too many rows.
fn put_rows(databases: &mut Databases, alloc: Global, ops: &[RowOp]) -> Result<bool, NoMemory>
    requires fits { ops_fit ops.now databases.old ≡ true }
    requires within { is_within_rows databases.old ≡ true }
    ensures { AreCarriedOut ops.now databases.old result databases.new }
{
    let Some(puts) = Puts::of(ops) else {
        return Ok(false);
    };
    let table = puts.table();
    let Some(tables) = databases.get_mut(table.db.bytes()) else {
        unreachable!()
    };
    let Some(version) = tables.get_mut(table.name.bytes()) else {
        unreachable!()
    };
    version.put_rows(alloc, &puts)
}

/// Takes rows out of one table. Answers `false`, and leaves all as it was, where the operations are others, where the version of the table is shared, and where
/// they are many.
fn remove_rows(databases: &mut Databases, ops: &[RowOp]) -> bool
    requires fits { ops_fit ops.now databases.old ≡ true }
    requires within { is_within_rows databases.old ≡ true }
    ensures { AreCarriedOut ops.now databases.old (Ok result) databases.new }
{
    let Some(dels) = Dels::of(ops) else {
        return false;
    };
    let table = dels.table();
    let Some(tables) = databases.get_mut(table.db.bytes()) else {
        unreachable!()
    };
    let Some(version) = tables.get_mut(table.name.bytes()) else {
        unreachable!()
    };
    version.remove_rows(&dels)
}

/// Carries out one operation. Answers `false`, and leaves all as it was, where a table would have too many rows. Costs the logarithm of how many databases
/// and tables there are, and what the table holds that is touched.
fn carry_out_one(databases: &mut Databases, alloc: Global, op: &RowOp) -> Result<bool, NoMemory>
    requires fits { op_fits op.now databases.old ≡ true }
    requires within { is_within_rows databases.old ≡ true }
    ensures { IsCarriedOut op.now databases.old result databases.new }
{
    match op {
        RowOp::Put(table, row) => put(databases, alloc, table, row),
        RowOp::Del(table, key) => del(databases, alloc, table, *key),
        RowOp::CreateTable(table, columns) => create_table(databases, alloc, table, columns),
        RowOp::DropTable(table) => Ok(drop_table(databases, table)),
        RowOp::CreateDb(name) => create_db(databases, alloc, name),
        RowOp::DropDb(name) => Ok(drop_db(databases, name)),
    }
}

fn put(
    databases: &mut Databases,
    alloc: Global,
    table: &TableName,
    row: &StoredRow,
) -> Result<bool, NoMemory>
    requires fits { op_fits (op.Put table.now row.now) databases.old ≡ true }
    requires within { is_within_rows databases.old ≡ true }
    ensures { IsCarriedOut (op.Put table.now row.now) databases.old result databases.new }
{
    let Some(tables) = databases.get_mut(table.db.bytes()) else {
        unreachable!()
    };
    let Some(version) = tables.get_mut(table.name.bytes()) else {
        unreachable!()
    };
    version.put(alloc, row)
}

fn del(
    databases: &mut Databases,
    alloc: Global,
    table: &TableName,
    key: i64,
) -> Result<bool, NoMemory>
    requires fits { op_fits (op.Del table.now key) databases.old ≡ true }
    requires within { is_within_rows databases.old ≡ true }
    ensures { IsCarriedOut (op.Del table.now key) databases.old result databases.new }
{
    let Some(tables) = databases.get_mut(table.db.bytes()) else {
        unreachable!()
    };
    let Some(version) = tables.get_mut(table.name.bytes()) else {
        unreachable!()
    };
    version.del(alloc, key)
}

fn create_table(
    databases: &mut Databases,
    alloc: Global,
    table: &TableName,
    columns: &Columns,
) -> Result<bool, NoMemory>
    requires fits { op_fits (op.CreateTable table.now columns.now) databases.old ≡ true }
    requires within { is_within_rows databases.old ≡ true }
    ensures { IsCarriedOut (op.CreateTable table.now columns.now) databases.old result databases.new }
{
    let version = TableVersion::empty(alloc, columns)?;
    let Some(tables) = databases.get_mut(table.db.bytes()) else {
        unreachable!()
    };
    tables.insert(alloc, table.name.bytes(), version)?;
    Ok(true)
}

fn drop_table(databases: &mut Databases, table: &TableName) -> bool
    requires fits { op_fits (op.DropTable table.now) databases.old ≡ true }
    requires within { is_within_rows databases.old ≡ true }
    ensures { IsCarriedOut (op.DropTable table.now) databases.old (Ok result) databases.new }
{
    let Some(tables) = databases.get_mut(table.db.bytes()) else {
        unreachable!()
    };
    tables.remove(table.name.bytes());
    true
}

fn create_db(databases: &mut Databases, alloc: Global, name: &Text) -> Result<bool, NoMemory>
    requires fits { op_fits (op.CreateDb name.now) databases.old ≡ true }
    requires within { is_within_rows databases.old ≡ true }
    ensures { IsCarriedOut (op.CreateDb name.now) databases.old result databases.new }
{
    let tables = NameMap::new(alloc);
    databases.insert(alloc, name.bytes(), tables)?;
    Ok(true)
}

fn drop_db(databases: &mut Databases, name: &Text) -> bool
    requires within { is_within_rows databases.old ≡ true }
    ensures { IsCarriedOut (op.DropDb name.now) databases.old (Ok result) databases.new }
{
    databases.remove(name.bytes());
    true
}

impl TableVersion {
    /// A table without rows. Linear in what the columns hold.
    fn empty(alloc: Global, columns: &Columns) -> Result<TableVersion, NoMemory>
        requires { columns_fit columns.now ≡ true }
        ensures { IfOk result (λ t. t ≡ record { columns = columns.now; rows = [] }) }
    {
        TableVersion::new(alloc, empty(alloc, columns)?)
    }

    /// Puts a copy of the row, in the place of the one that its key may have. Answers `false`, and leaves all as it was, where there would be too many rows.
    /// Linear in what the rows hold.
    fn put(&mut self, alloc: Global, row: &StoredRow) -> Result<bool, NoMemory>
        requires { row_fits self.old.columns row.now ≡ true }
        ensures { IsChanged (with_row row.now self.old) self.old result self.new }
    {
        let mut draft = DraftTable::of(alloc, self)?;
        draft.put(alloc, row)?;
        self.become_draft(alloc, &draft)
    }

    /// Takes out the row that the key may have. Linear in what the rows hold.
    fn del(&mut self, alloc: Global, key: i64) -> Result<bool, NoMemory>
        ensures { IsChanged (without_row key self.old) self.old result self.new }
    {
        let mut draft = DraftTable::of(alloc, self)?;
        draft.del(key)?;
        self.become_draft(alloc, &draft)
    }

    /// Takes the changes of a draft, or leaves all as it was where there would be too many rows.
    fn become_draft(&mut self, alloc: Global, draft: &DraftTable) -> Result<bool, NoMemory>
        ensures { IsChanged draft.now self.old result self.new }
    {
        match draft.version(alloc)? {
            None => Ok(false),
            Some(version) => {
                *self = version;
                Ok(true)
            }
        }
    }
}
