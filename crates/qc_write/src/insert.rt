//! INSERT.

ghost use Rattle.std.specs.Prelude.{◌≡◌, ◌+◌, ◌||◌, length, nat_lt, IfOk, OnOk};
ghost use Rattle.std.specs.Ordering.{int_cmp, is_eq};
ghost use Rattle.std.specs.BTreeSet.{contains};
ghost use Rattle.qc_types.specs.Answers.{Gives};
ghost use Rattle.qc_sql.specs.Database.{key_of, most_rows};
ghost use Rattle.qc_sql.specs.Effects as meant;
ghost use Rattle.qc_sql.specs.Errors as errors;
ghost use Rattle.qc_sql.specs.Rows.{refuse_if};
ghost use Rattle.qc_write.specs.Inserts.{insert_validated, key_validated, named_in, row_from, row_validated, rows_validated, tuple_validated, value_checked, value_from, values_checked, IsShapeOf};
ghost use Rattle.qc_write.specs.Lists.{borrowed};
ghost use Rattle.qc_write.specs.Targets.{bound_of};

use crate::outcome::Effect;
use crate::shape::{Shape, shape_of};
use crate::target::{Target, bind_target};
use crate::values::{check_stored, is_other_sort};
use qc_sql::errors::{duplicate_entry, not_supported, table_full, wrong_value_count};
use qc_sql::statements::{Insert, Tuple};
use qc_sql::tables::{Column, Ops, RowOp, StoredRow};
use qc_table::{Database, TableVersion, key_of_row};
use qc_types::{Duplicate, NoMemory, Or, SqlError, Steps, Value};
use std::alloc::Global;
use std::collections::BTreeSet;
use std::sync::ledger::Ledger;

/// The most rows of a table.
const MOST_ROWS: u64 = 1_048_576;

/// What INSERT does: a Put for each tuple, in order. Refused with 1046, 1049 and 1146; name by name with 1054 and 1110; with 1364; and then tuple by
/// tuple with 1136, column by column with 1235, 1048 and 1406, with 1062 where the key is in the table or in an earlier tuple, and with 1114. Each tuple
/// counts one step. Costs n log n + n log m for n tuples and m rows of the table, and is linear in the values and, for each tuple, in the columns.
pub(crate) fn insert_effect<L: Ledger>(
    alloc: Global,
    insert: &Insert,
    database: &Database,
    db: &[u8],
    steps: &mut Steps<L>,
) -> Result<Effect, Or<SqlError>>
    ensures { Gives (λ e. e) (λ e. e) result (meant.insert_effect database.now db.now insert.now) }
{
    let target = bind_target(alloc, database, db, &insert.table)?;
    insert_into(alloc, insert, &target, steps)
}

fn insert_into<L: Ledger>(
    alloc: Global,
    insert: &Insert,
    target: &Target<'_>,
    steps: &mut Steps<L>,
) -> Result<Effect, Or<SqlError>>
    ensures { Gives (λ e. e) (λ e. e) result (insert_validated (bound_of target.now) insert.now) }
{
    let columns = target.version.columns().items();
    let shape = shape_of(alloc, columns, &insert.names)?;
    let ops = put_rows(alloc, target, &shape, insert.rows.items(), steps)?;
    Ok(Effect::of_rows(ops))
}

/// A Put for each tuple, or the first refusal.
fn put_rows<L: Ledger>(
    alloc: Global,
    target: &Target<'_>,
    shape: &Shape<'_>,
    tuples: &[Tuple],
    steps: &mut Steps<L>,
) -> Result<Ops, Or<SqlError>>
    requires { IsShapeOf target.now.version.now.columns shape.now }
    ensures { Gives (λ ops. ops) (λ e. e) result (rows_validated (bound_of target.now) (named_in shape.now) tuples.now) }
{
    let mut ops = Ops::new(alloc);
    let mut taken = BTreeSet::new(alloc);
    for (i, tuple) in tuples.iter().enumerate() {
        let number = i as u64 + 1;
        let tuple = tuple.items();
        let row = put_row(alloc, target, shape, &mut taken, number, tuple, steps)?;
        ops.push(RowOp::Put(target.name.duplicate(alloc)?, row))?;
    }
    Ok(ops)
}

/// The row of the tuple with this number, from 1, whose key is taken then; or the first refusal.
fn put_row<L: Ledger>(
    alloc: Global,
    target: &Target<'_>,
    shape: &Shape<'_>,
    taken: &mut BTreeSet<i64>,
    number: u64,
    tuple: &[Value],
    steps: &mut Steps<L>,
) -> Result<StoredRow, Or<SqlError>>
    requires { IsShapeOf target.now.version.now.columns shape.now }
    ensures gives { Gives (λ row. row) (λ e. e) result (row_validated (bound_of target.now) (named_in shape.now) (contains int_cmp taken.old) number tuple.now) }
    ensures taken { IfOk result (λ row. (q : _) → contains int_cmp taken.new q ≡ (is_eq (int_cmp (key_of target.now.version.now.columns row) q) || contains int_cmp taken.old q)) }
{
    let row = row_of_tuple(alloc, target, shape, number, tuple)?;
    let key = key_of_row(target.version.columns(), &row);
    take_key(alloc, target, taken, number, key, steps)?;
    Ok(row)
}

/// The row of the tuple with this number, in the order of the table's columns.
fn row_of_tuple(
    alloc: Global,
    target: &Target<'_>,
    shape: &Shape<'_>,
    number: u64,
    tuple: &[Value],
) -> Result<StoredRow, Or<SqlError>>
    requires { IsShapeOf target.now.version.now.columns shape.now }
    ensures { Gives (λ row. row) (λ e. e) result (tuple_validated (named_in shape.now) target.now.version.now.columns number tuple.now) }
{
    if tuple.len() != shape.named.len() {
        return Err(Or::Other(wrong_value_count(alloc, number)?));
    }
    check_values(alloc, shape.named.as_slice(), tuple)?;
    Ok(row_from(alloc, tuple, shape.places.as_slice())?)
}

/// Takes the key of the row with this number, which neither the table nor an earlier row may have, and for which there must be room.
fn take_key<L: Ledger>(
    alloc: Global,
    target: &Target<'_>,
    taken: &mut BTreeSet<i64>,
    number: u64,
    key: i64,
    steps: &mut Steps<L>,
) -> Result<(), Or<SqlError>>
    ensures gives { Gives (λ _. tt) (λ e. e) result (key_validated (bound_of target.now) (contains int_cmp taken.old) number key) }
    ensures taken { OnOk result ((q : _) → contains int_cmp taken.new q ≡ (is_eq (int_cmp key q) || contains int_cmp taken.old q)) }
{
    check_key(alloc, target.version, taken, key, steps)?;
    check_room(alloc, target, number)?;
    taken.insert(key)?;
    Ok(())
}

/// Refuses the first value that its column doesn't take.
fn check_values(alloc: Global, named: &[&Column], tuple: &[Value]) -> Result<(), Or<SqlError>>
    requires { length tuple.now ≡ length named.now }
    ensures { Gives (λ _. tt) (λ e. e) result (values_checked (borrowed named.now) tuple.now) }
{
    for (i, value) in tuple.iter().enumerate() {
        check_value(alloc, named[i], value)?;
    }
    Ok(())
}

fn check_value(alloc: Global, column: &Column, value: &Value) -> Result<(), Or<SqlError>>
    ensures { Gives (λ _. tt) (λ e. e) result (value_checked column.now value.now) }
{
    if is_other_sort(column.kind, value) {
        return Err(Or::Other(not_supported(alloc, b"mixed value")?));
    }
    check_stored(alloc, column, value)
}

/// The values of a tuple at these places, and NULL where there is none.
fn row_from(alloc: Global, tuple: &[Value], places: &[Option<usize>]) -> Result<StoredRow, NoMemory>
    ensures { IfOk result (λ row. row ≡ row_from tuple.now places.now) }
{
    let mut row = StoredRow::new(alloc);
    for place in places {
        row.push(value_from(alloc, tuple, *place)?)?;
    }
    Ok(row)
}

fn value_from(alloc: Global, tuple: &[Value], place: Option<usize>) -> Result<Value, NoMemory>
    ensures { IfOk result (λ v. v ≡ value_from tuple.now place) }
{
    let Some(place) = place else {
        return Ok(Value::Null);
    };
    match tuple.get(place) {
        Some(value) => value.duplicate(alloc),
        None => Ok(Value::Null),
    }
}

/// Refuses a key that the table or an earlier tuple has.
fn check_key<L: Ledger>(
    alloc: Global,
    version: &TableVersion,
    taken: &BTreeSet<i64>,
    key: i64,
    steps: &mut Steps<L>,
) -> Result<(), Or<SqlError>>
    ensures { Gives (λ _. tt) (λ e. e) result (refuse_if (meant.has_key version.now key || contains int_cmp taken.now key) (errors.duplicate_entry key)) }
{
    if has_key(version, key, steps) || taken.contains(&key) {
        return Err(Or::Other(duplicate_entry(alloc, key)?));
    }
    Ok(())
}

fn has_key<L: Ledger>(version: &TableVersion, key: i64, steps: &mut Steps<L>) -> bool
    ensures { result ≡ meant.has_key version.now key }
{
    version.find(key, steps).is_some()
}

/// Refuses the first row that the table has no room for, by its number in the statement.
fn check_room(alloc: Global, target: &Target<'_>, number: u64) -> Result<(), Or<SqlError>>
    ensures { Gives (λ _. tt) (λ e. e) result (refuse_if (nat_lt most_rows (length target.now.version.now.rows + number)) (errors.table_full target.now.name)) }
{
    if number > MOST_ROWS - u64::from(target.version.count()) {
        return Err(Or::Other(table_full(alloc, &target.name)?));
    }
    Ok(())
}
