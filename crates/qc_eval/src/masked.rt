//! The rows of one table that pass, by their indexes, found by whole columns.

ghost use Rattle.std.specs.Prelude.{◌≡◌, ◌+◌, ◌*◌, ◌≤◌, [], length, IfOk, IfSome};
ghost use Rattle.qc_lane.specs.Lanes.{EndsAt};
ghost use Rattle.qc_eval.specs.Entries.{kept_indexes};
ghost use Rattle.qc_eval.specs.Lanes.{window_rows, AreKept, IsMask, IsWindow};
ghost use Rattle.qc_eval.specs.Walk as walk;

use crate::masks::mask_of;
use crate::matching::{RowNumbers, range_in};
use crate::truth::Sides;
use crate::window::{Window, window_of};
use qc_lane::{SetBits, mask_count};
use qc_resolve::{Test, Tests};
use qc_table::TableVersion;
use qc_types::{NoMemory, Steps};
use std::alloc::Global;
use std::sync::ledger::Ledger;

/// The rows of the only table that pass, by their indexes; none: there are several tables, more than `most` rows pass, or the tests aren't comparisons of
/// columns of numbers with numbers. Costs a comparison of each number between the bounds that the tests give for the key, and takes memory for two masks and
/// for the rows.
pub fn few_rows<L: Ledger>(
    alloc: Global,
    tables: &[TableVersion],
    filters: &[Tests],
    most: u64,
    sides: &mut Sides,
    steps: &mut Steps<L>,
) -> Result<Option<RowNumbers>, NoMemory>
    requires { length filters.now ≡ length tables.now + 1 }
    ensures { IfOk result (λ found. IfSome found (AreKept tables.now (walk.passes_all filters.now))) }
{
    if tables.len() != 1 {
        return Ok(None);
    }
    // Tests of no row at all are left to the walk, and so are all rows.
    if !filters[0].items().is_empty() {
        return Ok(None);
    }
    let tests = filters[1].items();
    if tests.is_empty() {
        return Ok(None);
    }
    let range = range_in(tables, filters, sides, steps);
    let table = &tables[0];
    let window = window_of(range, table.count());
    few_in_window(alloc, table, window, tests, most, steps)
}

/// The same of the rows up to the end of a window, before which no row passes.
fn few_in_window<L: Ledger>(
    alloc: Global,
    table: &TableVersion,
    window: Window,
    tests: &[Test],
    most: u64,
    steps: &mut Steps<L>,
) -> Result<Option<RowNumbers>, NoMemory>
    requires window { IsWindow table.now window }
    ensures { kept_indexes (λ c. walk.passes c tests.now) table.now.rows (64 * window.word) ≡ [] → IfOk result (λ found. IfSome found (λ is. is ≡ kept_indexes (λ c. walk.passes c tests.now) table.now.rows (64 * window.word + window.count))) }
{
    // The count tells that there are few rows.
    let _count = table.count();
    let mut other = vec![in alloc; 0; window.count.div_ceil(64)]?;
    let found = mask_of(alloc, table, window, tests, &mut other, steps)?;
    match found {
        Some(mask) => few_set(alloc, window, &mask, most),
        None => Ok(None),
    }
}

/// The rows whose bit is set in a mask, where they are at most so many.
fn few_set(
    alloc: Global,
    window: Window,
    mask: &[u64],
    most: u64,
) -> Result<Option<RowNumbers>, NoMemory>
    requires few { 64 * window.word + window.count ≤ 1048576 }
    requires words { length mask.now ≤ 16384 }
    requires ends { EndsAt mask.now window.count }
    ensures { (keep : _) (t : _) → IsWindow t window → IsMask (window_rows t window) keep mask.now → kept_indexes keep t.rows (64 * window.word) ≡ [] → IfOk result (λ found. IfSome found (λ is. is ≡ kept_indexes keep t.rows (64 * window.word + window.count))) }
{
    if mask_count(mask) > most {
        return Ok(None);
    }
    Ok(Some(set_rows(alloc, window, mask)?))
}

/// The rows whose bit is set in a mask.
fn set_rows(alloc: Global, window: Window, mask: &[u64]) -> Result<RowNumbers, NoMemory>
    requires few { 64 * window.word + window.count ≤ 1048576 }
    requires words { length mask.now ≤ 16384 }
    requires ends { EndsAt mask.now window.count }
    ensures { (keep : _) (t : _) → IsWindow t window → IsMask (window_rows t window) keep mask.now → kept_indexes keep t.rows (64 * window.word) ≡ [] → IfOk result (λ is. is ≡ kept_indexes keep t.rows (64 * window.word + window.count)) }
{
    let mut rows = RowNumbers::new(alloc);
    let mut bits = SetBits::of(mask);
    while let Some(i) = bits.next(mask) {
        rows.push((64 * window.word + i) as u32)?;
    }
    Ok(rows)
}
