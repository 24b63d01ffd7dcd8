//! Rows that assignments change.

ghost use Rattle.std.specs.Prelude.{◌≡◌, ◌<◌, [], ◌++◌, length, map, IfOk, OnOk};
ghost use Rattle.std.specs.List.{AllByRecursion};
ghost use Rattle.qc_types.specs.Answers.{Gives};
ghost use Rattle.qc_resolve.specs.Steps.{run};
ghost use Rattle.qc_eval.specs.Entries.{entry_at};
ghost use Rattle.qc_write.specs.Placing.{IsOriginIn, IsPlacingIn, assigned_one, changed_row, origin_of, placed, placing_of, put_of, put_step, value_from};

use crate::assignments::{Placed, Source};
use crate::stored_rows::{same_values, stored_row};
use crate::target::Target;
use crate::values::check_stored;
use qc_sql::tables::{Ops, RowOp, StoredRow};
use qc_table::TableVersion;
use qc_types::{Duplicate, NoMemory, Or, SqlError, Steps, TableName, Value};
use std::alloc::Global;
use std::sync::ledger::Ledger;

/// A Put of each of these rows that the assignments change; or the first refusal.
pub(crate) fn put_rows<L: Ledger>(
    alloc: Global,
    target: &Target<'_>,
    sets: &[Placed<'_>],
    rows: &[u32],
    steps: &mut Steps<L>,
) -> Result<Ops, Or<SqlError>>
    requires rows { AllByRecursion (λ i. i < length target.now.version.now.rows) rows.now }
    requires places { AllByRecursion (IsPlacingIn (length target.now.version.now.columns)) (map placing_of sets.now) }
    ensures { Gives (λ ops. ops) (λ e. e) result (run (put_step target.now.name (map placing_of sets.now) target.now.version.now.rows) rows.now []) }
{
    let mut ops = Ops::new(alloc);
    for row in rows {
        let new = changed_row(alloc, target.version, *row, sets, steps)?;
        push_put(alloc, &mut ops, &target.name, new)?;
    }
    Ok(ops)
}

/// Puts the operation behind the others that puts a row, where there is one.
fn push_put(
    alloc: Global,
    ops: &mut Ops,
    table: &TableName,
    row: Option<StoredRow>,
) -> Result<(), NoMemory>
    ensures { OnOk result (ops.new ≡ ops.old ++ put_of table.now row) }
{
    match row {
        Some(row) => ops.push(RowOp::Put(table.duplicate(alloc)?, row)),
        None => Ok(()),
    }
}

/// The row with this index as the assignments make it, none where they change nothing; or the first refusal.
fn changed_row<L: Ledger>(
    alloc: Global,
    version: &TableVersion,
    row: u32,
    sets: &[Placed<'_>],
    steps: &mut Steps<L>,
) -> Result<Option<StoredRow>, Or<SqlError>>
    requires row { row < length version.now.rows }
    requires places { AllByRecursion (IsPlacingIn (length version.now.columns)) (map placing_of sets.now) }
    ensures { Gives (λ r. r) (λ e. e) result (changed_row (map placing_of sets.now) (entry_at version.now.rows row).1) }
{
    let old = stored_row(alloc, version, row, steps)?;
    let new = assigned(alloc, &old, sets)?;
    if same_values(old.items(), new.items()) {
        return Ok(None);
    }
    Ok(Some(new))
}

/// The row as the assignments make it, from left to right; or the first refusal.
fn assigned(alloc: Global, row: &StoredRow, sets: &[Placed<'_>]) -> Result<StoredRow, Or<SqlError>>
    requires { AllByRecursion (IsPlacingIn (length row.now)) (map placing_of sets.now) }
    ensures gives { Gives (λ r. r) (λ e. e) result (placed (map placing_of sets.now) row.now) }
    ensures full { IfOk result (λ r. length r ≡ length row.now) }
{
    let mut new = row.copy(alloc)?.into_vec();
    for set in sets {
        assign(alloc, set, &mut new)?;
    }
    Ok(StoredRow::from_vec(new))
}

/// Carries out one assignment.
fn assign(alloc: Global, set: &Placed<'_>, row: &mut Vec<Value>) -> Result<(), Or<SqlError>>
    requires { IsPlacingIn (length row.old.items) (placing_of set.now) }
    ensures gives { Gives (λ _. row.new.items) (λ e. e) result (assigned_one (placing_of set.now) row.old.items) }
    ensures full { IfOk result (λ _. length row.new.items ≡ length row.old.items) }
{
    let value = value_from(alloc, &set.source, row)?;
    check_stored(alloc, set.column, &value)?;
    row[set.place] = value;
    Ok(())
}

/// The value that an assignment gives in a row.
fn value_from(alloc: Global, source: &Source<'_>, row: &[Value]) -> Result<Value, NoMemory>
    requires { IsOriginIn (length row.now) (origin_of source.now) }
    ensures { IfOk result (λ v. v ≡ value_from (origin_of source.now) row.now) }
{
    match source {
        Source::Literal(value) => value.duplicate(alloc),
        Source::Column(index) => row[*index].duplicate(alloc),
    }
}
