//! The rows of one table that a condition keeps.

ghost use Rattle.std.specs.Prelude.{◌≡◌, ◌<◌, [], ◌∷◌, get_or, length, map, IfOk};
ghost use Rattle.std.specs.List.{AllByRecursion};
ghost use Rattle.std.specs.List.Sorted.{IsStrictlyIncreasing};
ghost use Rattle.qc_types.specs.Answers.{Gives};
ghost use Rattle.qc_resolve.specs.Kept.{kept_rows};
ghost use Rattle.qc_resolve.specs.Meaning as meaning;
ghost use Rattle.qc_eval.specs.Chosen.{AreRows, chosen};
ghost use Rattle.qc_eval.specs.Entries.{entry_at, kept_indexes};
ghost use Rattle.qc_eval.specs.Ranges.{LeavesOut, no_table};
ghost use Rattle.qc_eval.specs.Walk.{passes_all};
ghost use Rattle.qc_table.specs.Views.{row_at};

use crate::filters::filters_of;
use crate::masked::few_rows;
use crate::range::{RowRange, range_of};
use crate::scan::passes_each;
use crate::scene::Scene;
use crate::truth::Sides;
use qc_resolve::{Test, Tests, Versions, resolve_condition};
use qc_sql::statements::Cond;
use qc_table::TableVersion;
use qc_types::{NoMemory, Or, OwnedList, SqlError, Steps, TableName};
use std::alloc::Global;
use std::sync::ledger::Ledger;

/// Indexes of rows of a table.
pub type RowNumbers = OwnedList<u32>;

/// The rows of a table that a condition keeps, by their indexes, for a session with this current database (empty: none) and this number; or the
/// condition's refusal. They rise, as the keys do. Counts a step for each value that the condition reads of a row. Linear in the rows whose keys stand
/// within the bounds that the condition gives for the primary column, times the condition and the texts that it reads; such bounds cost the logarithm of how
/// many rows there are.
pub fn matching_rows<L: Ledger>(
    alloc: Global,
    name: &TableName,
    version: &TableVersion,
    cond: &Option<Cond>,
    db: &[u8],
    session: u8,
    steps: &mut Steps<L>,
) -> Result<RowNumbers, Or<SqlError>>
    ensures gives { Gives (λ is. map (entry_at version.now.rows) is) (λ e. e) result (kept_rows name.now version.now cond.now db.now session) }
    ensures within { IfOk result (λ is. AllByRecursion (λ i. i < length version.now.rows) is) }
    ensures rising { IfOk result (λ is. IsStrictlyIncreasing is) }
{
    let test = resolve_condition(alloc, name, version, cond, db, session)?;
    Ok(tested_rows(alloc, version, test, steps)?)
}

/// The rows that a test keeps, all of them where there is none.
fn tested_rows<L: Ledger>(
    alloc: Global,
    version: &TableVersion,
    test: Option<Test>,
    steps: &mut Steps<L>,
) -> Result<RowNumbers, NoMemory>
    ensures { IfOk result (λ is. is ≡ kept_indexes (meaning.keeps test) version.now.rows (length version.now.rows)) }
{
    let filters = filters_of(alloc, test, 1)?;
    let mut tables = Versions::new(alloc);
    tables.push(version.share()?)?;
    let mut sides = Sides::new(alloc)?;
    rows_in(
        alloc,
        version,
        tables.items(),
        filters.items(),
        &mut sides,
        steps,
    )
}

/// The rows that pass the tests of none and of one row, where the table is the only one: by whole columns of numbers where only these are compared with
/// numbers, and else one after another.
fn rows_in<L: Ledger>(
    alloc: Global,
    version: &TableVersion,
    tables: &[TableVersion],
    filters: &[Tests],
    sides: &mut Sides,
    steps: &mut Steps<L>,
) -> Result<RowNumbers, NoMemory>
    requires alone { tables.now ≡ version.now ∷ [] }
    requires levels { length filters.now ≡ 2 }
    ensures { IfOk result (λ is. is ≡ kept_indexes (passes_all filters.now) version.now.rows (length version.now.rows)) }
{
    let few = few_rows(alloc, tables, filters, u64::MAX, sides, steps)?;
    match few {
        Some(rows) => Ok(rows),
        None => walked_rows(alloc, version, tables, filters, sides, steps),
    }
}

/// The same, one row after another.
fn walked_rows<L: Ledger>(
    alloc: Global,
    version: &TableVersion,
    tables: &[TableVersion],
    filters: &[Tests],
    sides: &mut Sides,
    steps: &mut Steps<L>,
) -> Result<RowNumbers, NoMemory>
    requires alone { tables.now ≡ version.now ∷ [] }
    requires levels { length filters.now ≡ 2 }
    ensures { IfOk result (λ is. is ≡ kept_indexes (passes_all filters.now) version.now.rows (length version.now.rows)) }
{
    let range = range_in(tables, filters, sides, steps);
    let end = version.count().min(range.to);
    let from = end.min(range.from);
    let mut kept = RowNumbers::new(alloc);
    for row in from..end {
        if keeps(tables, row, filters, sides, steps) {
            kept.push(row)?;
        }
    }
    Ok(kept)
}

/// Between which rows of the only table those stand that may pass.
pub fn range_in<L: Ledger>(
    tables: &[TableVersion],
    filters: &[Tests],
    sides: &mut Sides,
    steps: &mut Steps<L>,
) -> RowRange
    requires alone { length tables.now ≡ 1 }
    requires levels { length filters.now ≡ 2 }
    ensures { let rows = (get_or tables.now 0 no_table).rows in LeavesOut (length rows) (λ i. passes_all filters.now (row_at rows i ∷ [])) result }
{
    let scene = Scene {
        tables,
        rows: &[],
        folded: &[],
    };
    let tests = filters[1].items();
    range_of(&scene, tests, sides, steps)
}

/// Whether a row of the only table passes.
fn keeps<L: Ledger>(
    tables: &[TableVersion],
    row: u32,
    filters: &[Tests],
    sides: &mut Sides,
    steps: &mut Steps<L>,
) -> bool
    requires { AreRows tables.now (row ∷ []) }
    ensures { result ≡ passes_all filters.now (chosen tables.now (row ∷ [])) }
{
    let scene = Scene {
        tables,
        rows: &[row],
        folded: &[],
    };
    for tests in filters {
        if !passes_each(&scene, tests.items(), sides, steps) {
            return false;
        }
    }
    true
}
