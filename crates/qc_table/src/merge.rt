//! Changes merged with the rows of a table.

ghost use Rattle.std.specs.Prelude.{◌≡◌, ◌≤◌, [], ◌++◌, true, length, drop, IfOk, IfSome, OnOk, Some, ◌<◌};
ghost use Rattle.std.specs.List.{AllByRecursion};
ghost use Rattle.std.specs.List.Sorted.{IsStrictlySortedBy};
ghost use Rattle.std.specs.Ordering.{int_cmp};
ghost use Rattle.std.specs.Map.{keys_of};
ghost use Rattle.qc_model.specs.Licence.{columns_fit};
ghost use Rattle.qc_table.specs.Changes.{above, below, left_by, merged};
ghost use Rattle.qc_table.specs.Stored.{column_of, is_ints, values_of, IsCells, IsFilled};
ghost use Rattle.qc_sql.specs.Database.{is_int};
ghost use Rattle.qc_table.specs.Tables.{IsChange, with_changes};
ghost use Rattle.qc_table.specs.Views.{kind_at};

use crate::cells::Cells;
use crate::keys::{copy_of_columns, value_of_row};
use crate::table_rows::TableRows;
use qc_sql::tables::{Columns, Kind, StoredRow};
use qc_types::NoMemory;
use std::alloc::Global;
use std::collections::BTreeMap;

/// A table without rows. Linear in what the columns hold.
pub(crate) fn empty(alloc: Global, columns: &Columns) -> Result<TableRows, NoMemory>
    requires { columns_fit columns.now ≡ true }
    ensures { IfOk result (λ t. t ≡ record { columns = columns.now; rows = [] }) }
{
    let mut cells = Vec::with_capacity(alloc, columns.items().len())?;
    for column in columns.items() {
        cells.push(Cells::new(alloc, column.kind))?;
    }
    let columns = copy_of_columns(alloc, columns)?;
    Ok(TableRows::new(columns, Vec::new(alloc), cells))
}

/// The rows with the changes, which are put or, where there is none, taken out, by key. Linear in what they hold.
pub(crate) fn merge(
    alloc: Global,
    base: &TableRows,
    changes: &BTreeMap<i64, Option<StoredRow>>,
) -> Result<TableRows, NoMemory>
    requires fit { AllByRecursion (IsChange base.now.columns) changes.now.entries }
    requires ordered { IsStrictlySortedBy int_cmp (keys_of changes.now.entries) }
    ensures { IfOk result (λ t. t ≡ with_changes base.now changes.now.entries) }
{
    let columns = base.columns();
    let mut cells = Vec::with_capacity(alloc, columns.items().len())?;
    for (i, column) in columns.items().iter().enumerate() {
        cells.push(merge_column(alloc, base, changes, i, column.kind)?)?;
    }
    let keys = merge_keys(alloc, base, changes)?;
    Ok(TableRows::new(copy_of_columns(alloc, columns)?, keys, cells))
}

fn merge_keys(
    alloc: Global,
    base: &TableRows,
    changes: &BTreeMap<i64, Option<StoredRow>>,
) -> Result<Vec<i64>, NoMemory>
    ensures { IfOk result (λ keys. keys.items ≡ keys_of (merged base.now.rows changes.now.entries)) }
{
    let mut keys = Vec::new(alloc);
    let mut next = 0;
    for (key, change) in changes {
        next = merge_key(&mut keys, base, next, *key, change)?;
    }
    keys.extend_from_slice(&base.keys()[next..])?;
    Ok(keys)
}

/// Puts the keys of the rows from an index on that stand below this one at the end, and this one where the change leaves a row. Gives the index of the
/// first row above it.
fn merge_key(
    keys: &mut Vec<i64>,
    base: &TableRows,
    from: usize,
    key: i64,
    change: &Option<StoredRow>,
) -> Result<usize, NoMemory>
    requires { from ≤ length base.now.rows }
    ensures next { IfOk result (λ next. (next ≤ length base.now.rows) × (drop next base.now.rows ≡ above key (drop from base.now.rows))) }
    ensures keys { OnOk result (keys.new.items ≡ keys.old.items ++ keys_of (below key (drop from base.now.rows) ++ left_by key change.now)) }
{
    let cut = base.cut(from, key);
    keys.extend_from_slice(&base.keys()[from..cut.end])?;
    if change.is_some() {
        keys.push(key)?;
    }
    Ok(cut.next)
}

fn merge_column(
    alloc: Global,
    base: &TableRows,
    changes: &BTreeMap<i64, Option<StoredRow>>,
    column: usize,
    kind: Kind,
) -> Result<Cells, NoMemory>
    requires column { kind_at base.now.columns column ≡ Some kind }
    requires fit { AllByRecursion (IsChange base.now.columns) changes.now.entries }
    ensures { IfOk result (IsFilled (Some kind) (column_of column (merged base.now.rows changes.now.entries))) }
{
    let mut cells = Cells::new(alloc, kind);
    let mut next = 0;
    for (key, change) in changes {
        next = merge_value(&mut cells, base, column, next, *key, change)?;
    }
    base.append_to(&mut cells, column, next, base.keys().len())?;
    Ok(cells)
}

/// Puts the values of the rows from an index on that stand below the key at the end, and that of the row that the change leaves. Gives the index of the
/// first row above it.
fn merge_value(
    cells: &mut Cells,
    base: &TableRows,
    column: usize,
    from: usize,
    key: i64,
    change: &Option<StoredRow>,
) -> Result<usize, NoMemory>
    requires ready { IsCells cells.old }
    requires kind { IfSome (kind_at base.now.columns column) (λ k. is_ints cells.old ≡ is_int k) }
    requires column { column < length base.now.columns }
    requires within { from ≤ length base.now.rows }
    requires fits { IsChange base.now.columns (key, change.now) }
    ensures next { IfOk result (λ next. (next ≤ length base.now.rows) × (drop next base.now.rows ≡ above key (drop from base.now.rows))) }
    ensures ready { OnOk result (IsCells cells.new) }
    ensures kind { OnOk result (is_ints cells.new ≡ is_ints cells.old) }
    ensures values { OnOk result (values_of cells.new ≡ values_of cells.old ++ column_of column (below key (drop from base.now.rows) ++ left_by key change.now)) }
{
    let cut = base.cut(from, key);
    base.append_to(cells, column, from, cut.end)?;
    if let Some(row) = change {
        cells.push(value_of_row(row, column))?;
    }
    Ok(cut.next)
}
