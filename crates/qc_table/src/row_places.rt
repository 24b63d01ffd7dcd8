//! Rows in the place of others.

ghost use Rattle.std.specs.Prelude.{◌≡◌, length, IfOk, IfSome, Some, true};
ghost use Rattle.std.specs.List.{list_all, slice_get};
ghost use Rattle.qc_model.specs.Licence.{row_fits};
ghost use Rattle.qc_table.specs.Puts.{values_at};
ghost use Rattle.qc_table.specs.Stored.{with_one, with_values, AreMade, AreReplaced, CanPutRow, HaveAt, HaveKeys, IsReplaced, IsStore, TakeRow};
ghost use Rattle.qc_table.specs.Views.{value_at};

use crate::cells::Cells;
use crate::keys::key_of_row;
use crate::puts::Puts;
use qc_sql::tables::Columns;
use qc_types::{NoMemory, Value};
use std::alloc::Global;

/// Where the rows stand that those of the same keys can replace, where there is one for each of them, and the texts are the same. Costs the logarithm of how
/// many keys there are for each row, and what the rows hold.
pub(crate) fn places_of(
    alloc: Global,
    columns: &Columns,
    keys: &[i64],
    cells: &[Cells],
    puts: &Puts<'_>,
) -> Result<Option<Vec<usize>>, NoMemory>
    requires store { IsStore columns.now (length keys.now) cells.now }
    requires fits { list_all (row_fits columns.now) puts.now.rows ≡ true }
    ensures { IfOk result (λ found. IfSome found (λ places. HaveKeys columns.now keys.now places.items puts.now.rows × AreReplaced places.items puts.now.rows cells.now)) }
{
    let mut places = Vec::with_capacity(alloc, puts.len())?;
    let mut next = 0;
    for index in 0..puts.len() {
        let row = puts.row(index);
        let Some(at) = place_of(keys, key_of_row(columns, row), next) else {
            return Ok(None);
        };
        if !can_put_row(cells, at, row.items()) {
            return Ok(None);
        }
        places.push(at)?;
        next = at + 1;
    }
    Ok(Some(places))
}

/// Where a key stands. Constant time where that is the index that is tried first, and else the logarithm of how many keys there are.
fn place_of(keys: &[i64], key: i64, first: usize) -> Option<usize>
    ensures { IfSome result (λ at. slice_get keys.now at ≡ Some key) }
{
    if first < keys.len() && keys[first] == key {
        return Some(first);
    }
    keys.binary_search(&key).ok()
}

/// Whether a row can be put in the place of the one at an index: each text has to be the same. Linear in what the row holds.
fn can_put_row(cells: &[Cells], at: usize, row: &[Value]) -> bool
    requires takes { TakeRow row.now cells.now }
    requires there { HaveAt at cells.now }
    ensures { result ≡ true → CanPutRow at row.now cells.now }
{
    for index in 0..row.len() {
        if !cells[index].can_put(at, &row[index]) {
            return false;
        }
    }
    true
}

/// Puts each row in its place, the first of them first. Linear in their number and that of the columns.
pub(crate) fn put_rows(cells: &mut Vec<Cells>, places: &[usize], puts: &Puts<'_>)
    requires { AreReplaced places.now puts.now.rows cells.old.items }
    ensures { AreMade (λ j. with_values places.now (values_at j puts.now.rows)) cells.old.items cells.new.items }
{
    for index in 0..puts.len() {
        put_row(cells, places[index], puts.row(index).items());
    }
}

/// Puts a row in the place of the one at an index. Linear in the number of columns.
fn put_row(cells: &mut Vec<Cells>, at: usize, row: &[Value])
    requires { IsReplaced at row.now cells.old.items }
    ensures { AreMade (λ j. with_one at (value_at row.now j)) cells.old.items cells.new.items }
{
    for index in 0..row.len() {
        cells[index].put(at, &row[index]);
    }
}
