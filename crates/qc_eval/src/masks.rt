//! Masks of the rows that pass: a bit for each row of a window.

ghost use Rattle.std.specs.Prelude.{◌≡◌, ◌==◌, ◌&&◌, ◌+◌, ◌-◌, ◌*◌, ◌^◌, ◌<◌, ◌≤◌, ℕ, not, nat_lt, true, false, length, get_or, IfOk, IfSome};
ghost use Rattle.std.specs.Int.{bit_at};
ghost use Rattle.qc_types.specs.declared.names.Value.TheVariants as value;
ghost use Rattle.qc_sql.specs.declared.statements.Op.TheVariants as op;
ghost use Rattle.qc_sql.specs.Rows as meant;
ghost use Rattle.qc_lane.specs.Lanes.{is_set, words_for};
ghost use Rattle.qc_resolve.specs.Meaning as meaning;
ghost use Rattle.qc_resolve.specs.Meaning.{row_value};
ghost use Rattle.qc_eval.specs.Lanes as lanes;
ghost use Rattle.qc_eval.specs.Lanes.{window_rows, IsLane, IsMask, IsWindow, Leaves};
ghost use Rattle.qc_eval.specs.Walk as walk;

use crate::range::{column_of, mirrored};
use crate::window::{Lane, Window, lane_of};
use qc_lane::{Cmp, compare_mask, mask_and};
use qc_resolve::{Formula, Test};
use qc_sql::statements::Op;
use qc_table::TableVersion;
use qc_types::{NoMemory, Steps, Value};
use std::alloc::Global;
use std::sync::ledger::Ledger;

/// The rows of a window that pass some tests, as a mask; none: a test isn't a comparison of a column of numbers with a number. `other` has room for one mask
/// more. Costs, for each test, a comparison of each row's number.
pub fn mask_of<L: Ledger>(
    alloc: Global,
    table: &TableVersion,
    window: Window,
    tests: &[Test],
    other: &mut [u64],
    steps: &mut Steps<L>,
) -> Result<Option<Vec<u64>>, NoMemory>
    requires window { IsWindow table.now window }
    requires other { length other.old ≡ words_for window.count }
    ensures { IfOk result (λ found. IfSome found (λ mask. IsMask (window_rows table.now window) (λ c. walk.passes c tests.now) mask.items)) }
{
    let mut mask = full_mask(alloc, window.count)?;
    if narrow_each(table, window, tests, other, &mut mask, steps) {
        Ok(Some(mask))
    } else {
        Ok(None)
    }
}

/// A set bit for each of so many rows.
fn full_mask(alloc: Global, count: usize) -> Result<Vec<u64>, NoMemory>
    ensures long { IfOk result (λ mask. length mask.items ≡ words_for count) }
    ensures bits { IfOk result (λ mask. (i : _) → is_set mask.items i ≡ nat_lt i count) }
{
    let mut mask = vec![in alloc; u64::MAX; count.div_ceil(64)]?;
    let rest = count % 64;
    if rest > 0 {
        mask[count / 64] = low_bits(rest);
    }
    Ok(mask)
}

/// A word of which so many of the lowest bits are set.
fn low_bits(count: usize) -> u64
    requires { count < 64 }
    ensures { result ≡ 2 ^ count - 1 }
{
    (1 << count) - 1
}

/// Clears the bits of the rows that fail one of some tests. `false`: a test isn't of the form, and the mask is of no use.
fn narrow_each<L: Ledger>(
    table: &TableVersion,
    window: Window,
    tests: &[Test],
    other: &mut [u64],
    mask: &mut [u64],
    steps: &mut Steps<L>,
) -> bool
    requires window { IsWindow table.now window }
    requires other { length other.old ≡ words_for window.count }
    requires mask { length mask.old ≡ words_for window.count }
    requires ends { (i : ℕ) → window.count ≤ i → is_set mask.old i ≡ false }
    ensures { result ≡ true → Leaves (window_rows table.now window) (λ c. walk.passes c tests.now) mask.old mask.new }
{
    for test in tests {
        if !narrow(table, window, test, other, mask, steps) {
            return false;
        }
    }
    true
}

/// The same for one test.
fn narrow<L: Ledger>(
    table: &TableVersion,
    window: Window,
    test: &Test,
    other: &mut [u64],
    mask: &mut [u64],
    steps: &mut Steps<L>,
) -> bool
    requires window { IsWindow table.now window }
    requires other { length other.old ≡ words_for window.count }
    requires mask { length mask.old ≡ words_for window.count }
    ensures { result ≡ true → Leaves (window_rows table.now window) (λ c. meant.is_true (meaning.truth c test.now)) mask.old mask.new }
{
    match test {
        Test::Compare(a, op, b) => {
            narrow_by_comparison(table, window, a, *op, b, other, mask, steps)
        }
        Test::Between(a, low, high) => {
            narrow_between(table, window, a, low, high, other, mask, steps)
        }
        _ => false,
    }
}

fn narrow_by_comparison<L: Ledger>(
    table: &TableVersion,
    window: Window,
    a: &Formula,
    op: Op,
    b: &Formula,
    other: &mut [u64],
    mask: &mut [u64],
    steps: &mut Steps<L>,
) -> bool
    requires window { IsWindow table.now window }
    requires other { length other.old ≡ words_for window.count }
    requires mask { length mask.old ≡ words_for window.count }
    ensures { result ≡ true → Leaves (window_rows table.now window) (λ c. meant.is_true (meant.compared op (row_value c a.now) (row_value c b.now))) mask.old mask.new }
{
    match number_of(b) {
        Some(number) => narrow_column(table, window, a, op, number, other, mask, steps),
        None => narrow_by_mirrored(table, window, a, op, b, other, mask, steps),
    }
}

/// The same where the number stands first.
fn narrow_by_mirrored<L: Ledger>(
    table: &TableVersion,
    window: Window,
    a: &Formula,
    op: Op,
    b: &Formula,
    other: &mut [u64],
    mask: &mut [u64],
    steps: &mut Steps<L>,
) -> bool
    requires window { IsWindow table.now window }
    requires other { length other.old ≡ words_for window.count }
    requires mask { length mask.old ≡ words_for window.count }
    ensures { result ≡ true → Leaves (window_rows table.now window) (λ c. meant.is_true (meant.compared op (row_value c a.now) (row_value c b.now))) mask.old mask.new }
{
    match number_of(a) {
        Some(number) => narrow_column(table, window, b, mirrored(op), number, other, mask, steps),
        None => false,
    }
}

fn narrow_between<L: Ledger>(
    table: &TableVersion,
    window: Window,
    a: &Formula,
    low: &Formula,
    high: &Formula,
    other: &mut [u64],
    mask: &mut [u64],
    steps: &mut Steps<L>,
) -> bool
    requires window { IsWindow table.now window }
    requires other { length other.old ≡ words_for window.count }
    requires mask { length mask.old ≡ words_for window.count }
    ensures { result ≡ true → Leaves (window_rows table.now window) (λ c. meant.is_true (meant.both (meant.compared op.Ge (row_value c a.now) (row_value c low.now)) (meant.compared op.Le (row_value c a.now) (row_value c high.now)))) mask.old mask.new }
{
    if !narrow_by_comparison(table, window, a, Op::Ge, low, other, mask, steps) {
        return false;
    }
    narrow_by_comparison(table, window, a, Op::Le, high, other, mask, steps)
}

/// The number of a formula, where it is a literal one.
fn number_of(formula: &Formula) -> Option<i64>
    ensures { result ≡ lanes.number_of formula.now }
{
    match formula {
        Formula::Literal(Value::Int(number)) => Some(*number),
        _ => None,
    }
}

/// Clears the bits of the rows in which a column doesn't stand in a relation to a number. `false`: the formula isn't a column of numbers.
fn narrow_column<L: Ledger>(
    table: &TableVersion,
    window: Window,
    formula: &Formula,
    op: Op,
    number: i64,
    other: &mut [u64],
    mask: &mut [u64],
    steps: &mut Steps<L>,
) -> bool
    requires window { IsWindow table.now window }
    requires other { length other.old ≡ words_for window.count }
    requires mask { length mask.old ≡ words_for window.count }
    ensures { result ≡ true → Leaves (window_rows table.now window) (λ c. meant.is_true (meant.compared op (row_value c formula.now) (value.Int number))) mask.old mask.new }
{
    let Some(place) = column_of(formula) else {
        return false;
    };
    let Some(lane) = lane_of(table, window, place, steps) else {
        return false;
    };
    narrow_lane(&lane, op, number, other, mask);
    true
}

fn narrow_lane(lane: &Lane<'_>, op: Op, number: i64, other: &mut [u64], mask: &mut [u64])
    requires nulls { length lane.now.nulls.now ≡ words_for (length lane.now.values.now) }
    requires other { length other.old ≡ words_for (length lane.now.values.now) }
    requires mask { length mask.old ≡ words_for (length lane.now.values.now) }
    ensures { (cells : _) → IsLane cells lane.now → (i : _) → is_set mask.new i ≡ (is_set mask.old i && (nat_lt i (length cells) && meant.is_true (meant.compared op (get_or cells i value.Null) (value.Int number)))) }
{
    compare_mask(lane.values, lane.nulls, relation(op), number, other);
    mask_and(other, mask);
}

fn relation(op: Op) -> Cmp
    ensures { result ≡ lanes.relation op }
{
    match op {
        Op::Eq => Cmp::Eq,
        Op::Ne => Cmp::Ne,
        Op::Lt => Cmp::Lt,
        Op::Le => Cmp::Le,
        Op::Gt => Cmp::Gt,
        Op::Ge => Cmp::Ge,
    }
}

/// Sets in `out` the bits of a mask whose values aren't NULL.
pub fn without_nulls(nulls: &[u64], mask: &[u64], out: &mut [u64])
    requires nulls { length nulls.now ≡ length out.old }
    requires mask { length mask.now ≡ length out.old }
    ensures { (i : ℕ) → is_set out.new i ≡ (is_set mask.now i && not (is_set nulls.now i)) }
{
    for (k, word) in out.iter_mut().enumerate() {
        *word = without(mask[k], nulls[k]);
    }
}

/// The bits of a word that aren't set in another one.
fn without(word: u64, other: u64) -> u64
    ensures { (i : ℕ) → i < 64 → (bit_at result i == 1) ≡ ((bit_at word i == 1) && not (bit_at other i == 1)) }
{
    word & !other
}
