//! What aggregates give over the rows of one table, by whole columns.

ghost use Rattle.std.specs.Prelude.{◌≡◌, ◌+◌, ◌≤◌, List, pos, length, map, filter, IfOk, IfSome};
ghost use Rattle.qc_types.specs.declared.names.Value.{Value};
ghost use Rattle.qc_types.specs.declared.names.Value.TheVariants as value;
ghost use Rattle.qc_sql.specs.Rows.{best, sum_value};
ghost use Rattle.qc_lane.specs.Lanes.{words_for, EndsAt};
ghost use Rattle.qc_resolve.specs.declared.resolved.Fold.TheVariants as aggregate;
ghost use Rattle.qc_table.specs.Views.{int_value};
ghost use Rattle.qc_resolve.specs.Meaning.{all_combinations, fold_value};
ghost use Rattle.qc_eval.specs.Folds.{higher, lower};
ghost use Rattle.qc_eval.specs.Lanes.{picked, seen, singles, window_rows, AreMasks, IsLane, IsMask, IsWindow};
ghost use Rattle.qc_eval.specs.Values.{stored_value};
ghost use Rattle.qc_eval.specs.Walk as walk;

use crate::masks::{mask_of, without_nulls};
use crate::matching::range_in;
use crate::range::column_of;
use crate::truth::Sides;
use crate::window::{Lane, Window, lane_of, window_of};
use qc_lane::{mask_count, max_masked, min_masked, sum_masked};
use qc_resolve::{Fold, Formula, Place, Test, Tests};
use qc_sql::cells::StoredCell;
use qc_table::TableVersion;
use qc_types::{NoMemory, Steps};
use std::alloc::Global;
use std::sync::ledger::Ledger;

/// What each aggregate gives over the kept rows of the only table; none: there are several tables, or something else than columns of numbers is aggregated or
/// compared with numbers. Costs, for each column that is named, a few words of a mask and a read of each number between the bounds that the tests give for the
/// key; memory is taken for two masks.
pub fn fold_lanes<L: Ledger>(
    alloc: Global,
    tables: &[TableVersion],
    filters: &[Tests],
    folds: &[Fold],
    sides: &mut Sides,
    steps: &mut Steps<L>,
) -> Result<Option<Vec<StoredCell>>, NoMemory>
    requires { length filters.now ≡ length tables.now + 1 }
    ensures { IfOk result (λ found. IfSome found (λ totals. map stored_value totals.items ≡ map (fold_value (filter (walk.passes_all filters.now) (all_combinations tables.now))) folds.now)) }
{
    if tables.len() != 1 {
        return Ok(None);
    }
    // Tests of no row at all are left to the walk.
    if !filters[0].items().is_empty() {
        return Ok(None);
    }
    let range = range_in(tables, filters, sides, steps);
    let table = &tables[0];
    let window = window_of(range, table.count());
    fold_window(alloc, table, window, filters[1].items(), folds, steps)
}

/// The same over the rows of a window that pass some tests.
fn fold_window<L: Ledger>(
    alloc: Global,
    table: &TableVersion,
    window: Window,
    tests: &[Test],
    folds: &[Fold],
    steps: &mut Steps<L>,
) -> Result<Option<Vec<StoredCell>>, NoMemory>
    requires window { IsWindow table.now window }
    ensures { IfOk result (λ found. IfSome found (λ totals. map stored_value totals.items ≡ map (fold_value (filter (λ c. walk.passes c tests.now) (singles (window_rows table.now window)))) folds.now)) }
{
    // The count tells that there are few rows.
    let _count = table.count();
    let mut other = vec![in alloc; 0; window.count.div_ceil(64)]?;
    let found = mask_of(alloc, table, window, tests, &mut other, steps)?;
    match found {
        Some(mask) => fold_each(alloc, table, window, folds, &mask, &mut other, steps),
        None => Ok(None),
    }
}

/// The same over the rows that a mask has.
fn fold_each<L: Ledger>(
    alloc: Global,
    table: &TableVersion,
    window: Window,
    folds: &[Fold],
    mask: &[u64],
    other: &mut [u64],
    steps: &mut Steps<L>,
) -> Result<Option<Vec<StoredCell>>, NoMemory>
    requires window { IsWindow table.now window }
    requires masks { AreMasks window.count mask.now other.old }
    ensures { (keep : _) → IsMask (window_rows table.now window) keep mask.now → IfOk result (λ found. IfSome found (λ totals. map stored_value totals.items ≡ map (fold_value (filter keep (singles (window_rows table.now window)))) folds.now)) }
{
    let mut totals = Vec::new(alloc);
    for fold in folds {
        let Some(total) = fold_one(table, window, fold, mask, other, steps) else {
            return Ok(None);
        };
        totals.push(total)?;
    }
    Ok(Some(totals))
}

/// The same for one aggregate.
fn fold_one<L: Ledger>(
    table: &TableVersion,
    window: Window,
    fold: &Fold,
    mask: &[u64],
    other: &mut [u64],
    steps: &mut Steps<L>,
) -> Option<StoredCell>
    requires window { IsWindow table.now window }
    requires masks { AreMasks window.count mask.now other.old }
    ensures { (keep : _) → IsMask (window_rows table.now window) keep mask.now → IfSome result (λ total. stored_value total ≡ fold_value (filter keep (singles (window_rows table.now window))) fold.now) }
{
    match fold {
        Fold::CountAll => Some(counted(mask)),
        Fold::Count(formula) => count_at(table, window, formula, mask, other, steps),
        Fold::Sum(place) => sum_at(table, window, *place, mask, other, steps),
        Fold::Least(place) => least_at(table, window, *place, mask, other, steps),
        Fold::Greatest(place) => greatest_at(table, window, *place, mask, other, steps),
        Fold::First(_) => None,
    }
}

fn count_at<L: Ledger>(
    table: &TableVersion,
    window: Window,
    formula: &Formula,
    mask: &[u64],
    other: &mut [u64],
    steps: &mut Steps<L>,
) -> Option<StoredCell>
    requires window { IsWindow table.now window }
    requires masks { AreMasks window.count mask.now other.old }
    ensures { (keep : _) → IsMask (window_rows table.now window) keep mask.now → IfSome result (λ total. stored_value total ≡ fold_value (filter keep (singles (window_rows table.now window))) (aggregate.Count formula.now)) }
{
    let Some(place) = column_of(formula) else {
        return None;
    };
    let Some(lane) = lane_of(table, window, place, steps) else {
        return None;
    };
    Some(count_lane(&lane, mask, other))
}

fn sum_at<L: Ledger>(
    table: &TableVersion,
    window: Window,
    place: Place,
    mask: &[u64],
    other: &mut [u64],
    steps: &mut Steps<L>,
) -> Option<StoredCell>
    requires window { IsWindow table.now window }
    requires masks { AreMasks window.count mask.now other.old }
    ensures { (keep : _) → IsMask (window_rows table.now window) keep mask.now → IfSome result (λ total. stored_value total ≡ fold_value (filter keep (singles (window_rows table.now window))) (aggregate.Sum place)) }
{
    let Some(lane) = lane_of(table, window, place, steps) else {
        return None;
    };
    Some(sum_lane(&lane, mask, other))
}

fn least_at<L: Ledger>(
    table: &TableVersion,
    window: Window,
    place: Place,
    mask: &[u64],
    other: &mut [u64],
    steps: &mut Steps<L>,
) -> Option<StoredCell>
    requires window { IsWindow table.now window }
    requires masks { AreMasks window.count mask.now other.old }
    ensures { (keep : _) → IsMask (window_rows table.now window) keep mask.now → IfSome result (λ total. stored_value total ≡ fold_value (filter keep (singles (window_rows table.now window))) (aggregate.Least place)) }
{
    let Some(lane) = lane_of(table, window, place, steps) else {
        return None;
    };
    Some(least_in_lane(&lane, mask, other))
}

fn greatest_at<L: Ledger>(
    table: &TableVersion,
    window: Window,
    place: Place,
    mask: &[u64],
    other: &mut [u64],
    steps: &mut Steps<L>,
) -> Option<StoredCell>
    requires window { IsWindow table.now window }
    requires masks { AreMasks window.count mask.now other.old }
    ensures { (keep : _) → IsMask (window_rows table.now window) keep mask.now → IfSome result (λ total. stored_value total ≡ fold_value (filter keep (singles (window_rows table.now window))) (aggregate.Greatest place)) }
{
    let Some(lane) = lane_of(table, window, place, steps) else {
        return None;
    };
    Some(greatest_in_lane(&lane, mask, other))
}

/// How many bits of a mask are set.
fn counted(mask: &[u64]) -> StoredCell
    requires { length mask.now ≤ 16384 }
    ensures { (cells : List Value) → length mask.now ≡ words_for (length cells) → EndsAt mask.now (length cells) → stored_value result ≡ value.Int (pos (length (picked mask.now cells))) }
{
    StoredCell::Wide(mask_count(mask) as i128)
}

/// How many values of a column are there, of those whose bit is set.
fn count_lane(lane: &Lane<'_>, mask: &[u64], other: &mut [u64]) -> StoredCell
    requires nulls { length lane.now.nulls.now ≡ words_for (length lane.now.values.now) }
    requires masks { AreMasks (length lane.now.values.now) mask.now other.old }
    ensures { (cells : _) → IsLane cells lane.now → stored_value result ≡ value.Int (pos (length (seen mask.now cells))) }
{
    without_nulls(lane.nulls, mask, other);
    StoredCell::Wide(mask_count(other) as i128)
}

/// The sum of those values, NULL where there is none.
fn sum_lane(lane: &Lane<'_>, mask: &[u64], other: &mut [u64]) -> StoredCell
    requires nulls { length lane.now.nulls.now ≡ words_for (length lane.now.values.now) }
    requires masks { AreMasks (length lane.now.values.now) mask.now other.old }
    ensures { (cells : _) → IsLane cells lane.now → stored_value result ≡ sum_value (seen mask.now cells) }
{
    without_nulls(lane.nulls, mask, other);
    let count = mask_count(other);
    if count == 0 {
        return StoredCell::Null;
    }
    StoredCell::Wide(sum_masked(lane.values, other).0)
}

/// The least of them, NULL where there is none.
fn least_in_lane(lane: &Lane<'_>, mask: &[u64], other: &mut [u64]) -> StoredCell
    requires nulls { length lane.now.nulls.now ≡ words_for (length lane.now.values.now) }
    requires masks { AreMasks (length lane.now.values.now) mask.now other.old }
    ensures { (cells : _) → IsLane cells lane.now → stored_value result ≡ best lower (seen mask.now cells) }
{
    without_nulls(lane.nulls, mask, other);
    stored(min_masked(lane.values, other))
}

/// The greatest of them, NULL where there is none.
fn greatest_in_lane(lane: &Lane<'_>, mask: &[u64], other: &mut [u64]) -> StoredCell
    requires nulls { length lane.now.nulls.now ≡ words_for (length lane.now.values.now) }
    requires masks { AreMasks (length lane.now.values.now) mask.now other.old }
    ensures { (cells : _) → IsLane cells lane.now → stored_value result ≡ best higher (seen mask.now cells) }
{
    without_nulls(lane.nulls, mask, other);
    stored(max_masked(lane.values, other))
}

/// A number, or NULL where there is none.
fn stored(number: Option<i64>) -> StoredCell
    ensures { stored_value result ≡ int_value number }
{
    match number {
        Some(number) => StoredCell::Int(number),
        None => StoredCell::Null,
    }
}
