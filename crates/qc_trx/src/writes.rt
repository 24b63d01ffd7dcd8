//! The rows that a transaction's own operations write.

ghost use Rattle.std.specs.Prelude.{◌≡◌, ◌++◌, [], length, take, IfOk, OnOk, OnErr, option_copied, option_and_then};
ghost use Rattle.std.specs.List.{slice_get, position_from};
ghost use Rattle.qc_trx.specs.Writes.{first_own, is_own, is_row_of, is_of_table, is_of_database};

use crate::sites::{Firsts, Site, database_site, enter_from, first_from, row_site, table_site};
use qc_types::{NoMemory, TableName};
use std::alloc::Global;
use std::collections::BTreeMap;
use std::marker::Model;

/// A row that an operation writes.
#[derive(Drop)]
pub(crate) struct OwnRow {
    /// Its table.
    pub(crate) table: TableName,
    /// Its primary key.
    pub(crate) key: i64,
}

/// The row that each own operation writes, or none, in the order of the operations. An index finds the first of each row, table and database.
#[derive(Drop)]
pub(crate) struct Writes {
    alloc: Global,
    rows: Vec<Option<OwnRow>>,
    firsts: Firsts,
    /// How many rows are entered in the index. Where memory lacked, some are not; they are looked through one by one.
    entered: usize,
}

impl Model for Writes {
    ghost use Rattle.std.specs.Prelude.{List, Option};
    ghost use Rattle.qc_trx.specs.declared.writes.OwnRow.{OwnRow};

    ghost Value = { List (Option OwnRow) };

    ghost use Rattle.qc_trx.specs.Sites.{IsIndex};

    ghost view = { λ w. w.rows.items };

    ghost invariant = { λ w. IsIndex w.firsts.entries w.entered w.rows.items };
}

impl Writes {
    ghost use Rattle.qc_trx.specs.Sites.{is_site_of};

    /// Those of no operations.
    pub(crate) fn new(alloc: Global) -> Writes
        ensures { result ≡ [] }
    {
        Writes {
            alloc,
            rows: Vec::new(alloc),
            firsts: BTreeMap::new(alloc),
            entered: 0,
        }
    }

    /// How many operations there are.
    pub(crate) fn len(&self) -> usize
        ensures { result ≡ length self.now }
    {
        self.rows.len()
    }

    /// Notes what more operations write, all of them or none. Costs the logarithm of how many there are for each.
    pub(crate) fn append(&mut self, rows: Vec<Option<OwnRow>>) -> Result<(), NoMemory>
        ensures ok { OnOk result (self.new ≡ self.old ++ rows.items) }
        ensures err { OnErr result (self.new ≡ self.old) }
    {
        let mut rows = rows;
        self.rows.append(&mut rows)?;
        self.entered = enter_from(
            self.alloc,
            self.rows.as_slice(),
            &mut self.firsts,
            self.entered,
        );
        Ok(())
    }

    /// The row that the operation with this number writes, if there is such an operation and it writes one.
    pub(crate) fn row(&self, number: usize) -> Option<&OwnRow>
        ensures { option_copied result ≡ option_and_then (λ row. row) (slice_get self.now number) }
    {
        self.rows.as_slice().get(number)?.as_ref()
    }

    /// Forgets the operations behind the first so many, and with them the index, which the next ones make again.
    pub(crate) fn truncate(&mut self, count: usize)
        ensures { self.new ≡ take count self.old }
    {
        self.rows.truncate(count);
        self.firsts = BTreeMap::new(self.alloc);
        self.entered = 0;
    }

    /// The number of the first operation that writes this row. Costs the logarithm of how many there are.
    pub(crate) fn first_of_row(
        &self,
        alloc: Global,
        table: &TableName,
        key: i64,
    ) -> Result<Option<usize>, NoMemory>
        ensures { IfOk result (λ first. first ≡ first_own (is_row_of table.now key) self.now) }
    {
        let site = row_site(alloc, table, key)?;
        Ok(self.first_at(&site))
    }

    /// The number of the first operation that writes a row of this table. Costs the logarithm of how many there are.
    pub(crate) fn first_of_table(
        &self,
        alloc: Global,
        table: &TableName,
    ) -> Result<Option<usize>, NoMemory>
        ensures { IfOk result (λ first. first ≡ first_own (is_of_table table.now) self.now) }
    {
        let site = table_site(alloc, table)?;
        Ok(self.first_at(&site))
    }

    /// The number of the first operation that writes a row of a table of this database. Costs the logarithm of how many there are.
    pub(crate) fn first_of_database(
        &self,
        alloc: Global,
        db: &[u8],
    ) -> Result<Option<usize>, NoMemory>
        ensures { IfOk result (λ first. first ≡ first_own (is_of_database db.now) self.now) }
    {
        let site = database_site(alloc, db)?;
        Ok(self.first_at(&site))
    }

    /// The number of the first operation that writes a row with this site.
    fn first_at(&self, site: &Site) -> Option<usize>
        ensures { result ≡ position_from (is_own (is_site_of site.now)) 0 self.now }
    {
        match self.firsts.get(site).copied() {
            Some(number) => Some(number),
            None => first_from(self.rows.as_slice(), self.entered, site),
        }
    }
}
