//! An index of the first own operation that writes each row, or a row of each table, or of each database.

ghost use Rattle.std.specs.Prelude.{◌≡◌, ◌+◌, ◌<◌, ◌≤◌, ◌&&◌, true, bytes_eq, is_some, length, IfOk, OnOk, OnErr, Some};
ghost use Rattle.std.specs.List.{slice_get};
ghost use Rattle.qc_trx.specs.Writes.{is_own};
ghost use Rattle.qc_trx.specs.Sites as sites;
ghost use Rattle.qc_trx.specs.Sites.{at_site, first_from, scope, IsIndex, KeepsEntered, OfDatabase, OfRow, OfTable};

use crate::writes::OwnRow;
use qc_types::{NoMemory, TableName};
use std::alloc::Global;
use std::collections::BTreeMap;

/// What the index finds numbers for.
#[derive(Drop, PartialEq, Eq, PartialOrd, Ord)]
pub(crate) enum Site {
    /// A database, by its name.
    Database(Vec<u8>),
    /// A table, by the name of its database and its own.
    Table {
        db: Vec<u8>,
        name: Vec<u8>,
    },
    /// A row, by its key and its table.
    Row {
        key: i64,
        db: Vec<u8>,
        name: Vec<u8>,
    },
}

/// The number of the first operation for each site, from 0.
pub(crate) type Firsts = BTreeMap<Site, usize>;

/// The site of a database.
pub(crate) fn database_site(alloc: Global, db: &[u8]) -> Result<Site, NoMemory>
    ensures { IfOk result (λ s. scope s ≡ OfDatabase db.now) }
{
    Ok(Site::Database(Vec::from_slice(alloc, db)?))
}

/// The site of a table.
pub(crate) fn table_site(alloc: Global, table: &TableName) -> Result<Site, NoMemory>
    ensures { IfOk result (λ s. scope s ≡ OfTable table.now) }
{
    Ok(Site::Table {
        db: Vec::from_slice(alloc, table.db.bytes())?,
        name: Vec::from_slice(alloc, table.name.bytes())?,
    })
}

/// The site of a row.
pub(crate) fn row_site(alloc: Global, table: &TableName, key: i64) -> Result<Site, NoMemory>
    ensures { IfOk result (λ s. scope s ≡ OfRow table.now key) }
{
    Ok(Site::Row {
        key,
        db: Vec::from_slice(alloc, table.db.bytes())?,
        name: Vec::from_slice(alloc, table.name.bytes())?,
    })
}

/// Whether a site is that of a row, of its table or of its database.
fn is_site_of(site: &Site, row: &OwnRow) -> bool
    ensures { result ≡ sites.is_site_of site.now row.now }
{
    match site {
        Site::Database(db) => row.table.db.bytes() == db.as_slice(),
        Site::Table { db, name } => has_names(&row.table, db, name),
        Site::Row { key, db, name } => has_names(&row.table, db, name) && row.key == *key,
    }
}

/// Whether a table has this name, in a database of that one.
fn has_names(table: &TableName, db: &[u8], name: &[u8]) -> bool
    ensures { result ≡ (bytes_eq table.now.db db.now && bytes_eq table.now.name name.now) }
{
    table.db.bytes() == db && table.name.bytes() == name
}

/// The number of the first row from one on that has the site. Linear in how many there are from there on.
pub(crate) fn first_from(rows: &[Option<OwnRow>], from: usize, site: &Site) -> Option<usize>
    requires { from ≤ length rows.now }
    ensures { result ≡ first_from site.now from rows.now }
{
    for i in from..rows.len() {
        if has_site(&rows[i], site) {
            return Some(i);
        }
    }
    None
}

fn has_site(row: &Option<OwnRow>, site: &Site) -> bool
    ensures { result ≡ is_own (sites.is_site_of site.now) row.now }
{
    match row {
        None => false,
        Some(row) => is_site_of(site, row),
    }
}

/// Enters the rows from one on, and answers how many rows are entered then. Where memory lacks, those behind are left out. Costs the logarithm of how many
/// there are for each.
pub(crate) fn enter_from(
    alloc: Global,
    rows: &[Option<OwnRow>],
    firsts: &mut Firsts,
    from: usize,
) -> usize
    requires { IsIndex firsts.old.entries from rows.now }
    ensures { IsIndex firsts.new.entries result rows.now }
{
    for number in from..rows.len() {
        if enter(alloc, rows, firsts, number).is_err() {
            return number;
        }
    }
    rows.len()
}

/// Enters one row.
fn enter(
    alloc: Global,
    rows: &[Option<OwnRow>],
    firsts: &mut Firsts,
    number: usize,
) -> Result<(), NoMemory>
    requires index { IsIndex firsts.old.entries number rows.now }
    requires within { number < length rows.now }
    ensures ok { OnOk result (IsIndex firsts.new.entries (number + 1) rows.now) }
    ensures err { OnErr result (IsIndex firsts.new.entries number rows.now) }
{
    match &rows[number] {
        None => Ok(()),
        Some(row) => enter_row(alloc, rows, firsts, number, row),
    }
}

fn enter_row(
    alloc: Global,
    rows: &[Option<OwnRow>],
    firsts: &mut Firsts,
    number: usize,
    row: &OwnRow,
) -> Result<(), NoMemory>
    requires index { IsIndex firsts.old.entries number rows.now }
    requires at { slice_get rows.now number ≡ Some (Some row.now) }
    ensures ok { OnOk result (IsIndex firsts.new.entries (number + 1) rows.now) }
    ensures err { OnErr result (IsIndex firsts.new.entries number rows.now) }
{
    let database = database_site(alloc, row.table.db.bytes())?;
    let table = table_site(alloc, &row.table)?;
    let one = row_site(alloc, &row.table, row.key)?;
    enter_site(rows, firsts, number, row, database)?;
    enter_site(rows, firsts, number, row, table)?;
    enter_site(rows, firsts, number, row, one)
}

/// Enters one of the sites of a row, unless it is.
fn enter_site(
    rows: &[Option<OwnRow>],
    firsts: &mut Firsts,
    number: usize,
    row: &OwnRow,
    site: Site,
) -> Result<(), NoMemory>
    requires index { IsIndex firsts.old.entries number rows.now }
    requires at { slice_get rows.now number ≡ Some (Some row.now) }
    requires of { sites.is_site_of site row.now ≡ true }
    ensures index { IsIndex firsts.new.entries number rows.now }
    ensures has { OnOk result (is_some (at_site site firsts.new.entries) ≡ true) }
    ensures keeps { KeepsEntered firsts.old.entries firsts.new.entries }
{
    if firsts.contains_key(&site) {
        return Ok(());
    }
    firsts.insert(site, number)?;
    Ok(())
}
