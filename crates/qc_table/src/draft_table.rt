//! A table with changes.

ghost use Rattle.std.specs.Prelude.{◌≡◌, [], true, IfOk, OnOk};
ghost use Rattle.qc_sql.specs.Database.{with_row, without_row};
ghost use Rattle.qc_model.specs.Licence.{columns_fit, row_fits};
ghost use Rattle.qc_table.specs.Fitting.{fitting_table};

use crate::keys::key_of_row;
use crate::merge::{empty, merge};
use crate::table_rows::MOST_ROWS;
use crate::table_version::TableVersion;
use qc_sql::tables::{Columns, StoredRow};
use qc_types::NoMemory;
use std::alloc::Global;
use std::collections::BTreeMap;
use std::marker::Model;

/// A version of a table, and the rows to be put or, where there is none, taken out, by key. Contracts see the table with the changes.
#[derive(Drop)]
pub(crate) struct DraftTable {
    base: TableVersion,
    changes: BTreeMap<i64, Option<StoredRow>>,
}

impl Model for DraftTable {
    ghost use Rattle.qc_sql.specs.Database.{Table};
    ghost use Rattle.qc_table.specs.Tables.{IsDraft, with_changes};

    ghost Value = { Table };

    ghost view = { λ t. with_changes t.base t.changes.entries };

    ghost invariant = { λ t. IsDraft t.base t.changes.entries };
}

impl DraftTable {
    /// A version without changes. Constant time.
    pub(crate) fn of(alloc: Global, version: &TableVersion) -> Result<DraftTable, NoMemory>
        ensures { IfOk result (λ t. t ≡ version.now) }
    {
        let base = version.share()?;
        let _rows = base.rows();
        Ok(DraftTable {
            base,
            changes: BTreeMap::new(alloc),
        })
    }

    /// A table without rows. Linear in what the columns hold.
    pub(crate) fn new(alloc: Global, columns: &Columns) -> Result<DraftTable, NoMemory>
        requires { columns_fit columns.now ≡ true }
        ensures { IfOk result (λ t. t ≡ record { columns = columns.now; rows = [] }) }
    {
        let rows = empty(alloc, columns)?;
        DraftTable::of(alloc, &TableVersion::new(alloc, rows)?)
    }

    /// Puts a copy of the row, in the place of the one that its key may have. Costs the logarithm of how many changes there are, and what the row holds.
    pub(crate) fn put(&mut self, alloc: Global, row: &StoredRow) -> Result<(), NoMemory>
        requires { row_fits self.old.columns row.now ≡ true }
        ensures { OnOk result (self.new ≡ with_row row.now self.old) }
    {
        let key = key_of_row(self.base.columns(), row);
        let row = row.copy(alloc)?;
        self.changes.insert(key, Some(row))?;
        Ok(())
    }

    /// Takes out the row that the key may have. Costs the logarithm of how many changes there are.
    pub(crate) fn del(&mut self, key: i64) -> Result<(), NoMemory>
        ensures { OnOk result (self.new ≡ without_row key self.old) }
    {
        self.changes.insert(key, None)?;
        Ok(())
    }

    /// The version that the changes make, or `None` where it has too many rows. Constant time where there are no changes, and else linear in what the
    /// rows hold.
    pub(crate) fn version(&self, alloc: Global) -> Result<Option<TableVersion>, NoMemory>
        ensures { IfOk result (λ made. made ≡ fitting_table self.now) }
    {
        if self.changes.is_empty() {
            return Ok(Some(self.base.share()?));
        }
        let rows = merge(alloc, self.base.rows(), &self.changes)?;
        if rows.keys().len() > MOST_ROWS {
            return Ok(None);
        }
        Ok(Some(TableVersion::new(alloc, rows)?))
    }
}
