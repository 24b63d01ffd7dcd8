//! Versions of tables.

ghost use Rattle.std.specs.Prelude.{◌≡◌, true, ◌+◌, ◌<◌, ◌≤◌, length, None, Some, Ok, IfOk, MatchOption};
ghost use Rattle.std.specs.List.{list_all, slice_get};
ghost use Rattle.std.specs.Ordering.{int_cmp};
ghost use Rattle.std.specs.BTreeMap.{is_at};
ghost use Rattle.std.specs.Map.{keys_of, lookup};
ghost use Rattle.qc_sql.specs.Order.{RowsRise};
ghost use Rattle.qc_model.specs.Licence.{row_fits};
ghost use Rattle.qc_model.specs.Sound.{IsSoundTable};
ghost use Rattle.qc_table.specs.Dels.{without_rows};
ghost use Rattle.qc_table.specs.Fitting.{IsChanged};
ghost use Rattle.qc_table.specs.Puts.{with_rows};
ghost use Rattle.qc_table.specs.Tables.{IsStored};
ghost use Rattle.qc_table.specs.Views.{kind_at, column_values, row_values};

use crate::dels::Dels;
use crate::puts::Puts;
use crate::table_rows::TableRows;
use crate::views::{ColumnView, RowView};
use qc_sql::tables::Columns;
use qc_types::{NoMemory, Steps};
use std::alloc::Global;
use std::marker::Model;
use std::sync::Arc;
use std::sync::ledger::Ledger;

/// A version of a table. It may be shared, and changes only in a database that is alone in having it. Contracts see its columns and its rows, by rising
/// key. Its rows are read through views, each of which counts a step.
#[derive(Drop)]
pub struct TableVersion {
    stored: Arc<TableRows>,
}

impl Model for TableVersion {
    ghost use Rattle.qc_sql.specs.Database.{Table};
    ghost use Rattle.qc_table.specs.Tables.{IsStored};

    ghost Value = { Table };

    ghost view = { λ t. t.stored.value };

    ghost invariant = { λ t. IsStored t.stored.value };
}

impl TableVersion {
    /// A version of these rows.
    pub(crate) fn new(alloc: Global, rows: TableRows) -> Result<TableVersion, NoMemory>
        requires { IsStored rows }
        ensures { IfOk result (λ t. t ≡ rows) }
    {
        Ok(TableVersion {
            stored: Arc::new(alloc, rows)?,
        })
    }

    /// Its rows as they are stored.
    pub(crate) fn rows(&self) -> &TableRows
        ensures value { result.now ≡ self.now }
        ensures stored { IsStored self.now }
    {
        &self.stored
    }

    /// Its rows as they are stored, to be read once. Counts one step.
    fn read<L: Ledger>(&self, steps: &mut Steps<L>) -> &TableRows
        ensures value { result.now ≡ self.now }
        ensures stored { IsStored self.now }
        ensures tick { steps.new ≡ steps.old + 1 }
    {
        steps.tick();
        self.rows()
    }

    /// The same version once more. Constant time. Fails where memory runs out.
    pub fn share(&self) -> Result<TableVersion, NoMemory>
        ensures same { IfOk result (λ t. t ≡ self.now) }
        ensures sound { IsSoundTable self.now }
        ensures ordered { RowsRise self.now }
    {
        Ok(TableVersion {
            stored: Arc::try_clone(&self.stored)?,
        })
    }

    /// Puts copies of the rows in their places, where the others stand. Answers `false`, and leaves all as it was, where another one shares the version, where
    /// there would be too many rows, and where they are many that neither all come behind the others nor all replace some with the same texts. Costs what the
    /// rows hold over many calls, the logarithm of how many rows there are for each that doesn't come behind them all, and a move of the rows behind it where
    /// it comes between others or changes a text.
    pub(crate) fn put_rows(&mut self, alloc: Global, puts: &Puts<'_>) -> Result<bool, NoMemory>
        requires { list_all (row_fits self.old.columns) puts.now.rows ≡ true }
        ensures { IsChanged (with_rows puts.now.rows self.old) self.old result self.new }
    {
        match Arc::get_mut(&mut self.stored) {
            Some(rows) => rows.put(alloc, puts),
            None => Ok(false),
        }
    }

    /// Takes out the rows that a few keys may have, where the others stand. Answers `false`, and leaves all as it was, where another one shares the version and
    /// where they are more than a few. Costs for each the logarithm of how many rows there are, and a move of the rows behind it.
    pub(crate) fn remove_rows(&mut self, dels: &Dels<'_>) -> bool
        ensures { IsChanged (without_rows dels.now.keys self.old) self.old (Ok result) self.new }
    {
        match Arc::get_mut(&mut self.stored) {
            Some(rows) => rows.remove_each(dels),
            None => false,
        }
    }

    /// How many rows it has. Constant time.
    pub fn count(&self) -> u32
        ensures value { result ≡ length self.now.rows }
        ensures within { result ≤ 1048576 }
    {
        self.stored.keys().len() as u32
    }

    /// Its columns, from left to right. Constant time.
    pub fn columns(&self) -> &Columns
        ensures value { result.now ≡ self.now.columns }
        ensures few { length result.now ≤ 64 }
        ensures sound { IsSoundTable self.now }
    {
        self.stored.columns()
    }

    /// The column at this index, in all rows. Counts one step. Constant time.
    pub fn column<L: Ledger>(&self, column: u8, steps: &mut Steps<L>) -> ColumnView<'_>
        requires { column < length self.now.columns }
        ensures view { result ≡ column_values self.now column }
        ensures kind { kind_at self.now.columns column ≡ Some result.kind }
        ensures tick { steps.new ≡ steps.old + 1 }
    {
        ColumnView::new(self.read(steps), column)
    }

    /// The row at this index, by rising key. Counts one step. Constant time.
    pub fn row<L: Ledger>(&self, row: u32, steps: &mut Steps<L>) -> RowView<'_>
        requires { row < length self.now.rows }
        ensures view { result ≡ row_values self.now row }
        ensures full { length result.values ≡ length self.now.columns }
        ensures tick { steps.new ≡ steps.old + 1 }
    {
        RowView::new(self.read(steps), row)
    }

    /// The index of the row with this primary key, where there is one. Counts one step. Costs the logarithm of how many rows there are.
    pub fn find<L: Ledger>(&self, key: i64, steps: &mut Steps<L>) -> Option<u32>
        ensures found { MatchOption result (lookup (is_at (int_cmp key)) self.now.rows ≡ None) (λ i. (i < length self.now.rows) × (Some key ≡ slice_get (keys_of self.now.rows) i)) }
        ensures tick { steps.new ≡ steps.old + 1 }
    {
        steps.tick();
        match self.place(key) {
            Some(place) => Some(place as u32),
            None => None,
        }
    }

    /// The index of the row with this primary key.
    fn place(&self, key: i64) -> Option<usize>
        ensures found { MatchOption result (lookup (is_at (int_cmp key)) self.now.rows ≡ None) (λ i. (i < length self.now.rows) × (Some key ≡ slice_get (keys_of self.now.rows) i)) }
        ensures within { length self.now.rows ≤ 1048576 }
    {
        self.stored.keys().binary_search(&key).ok()
    }
}
