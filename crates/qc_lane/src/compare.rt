//! Comparisons of a column with a number.

ghost use Rattle.std.specs.Prelude.{◌≡◌, ℕ, ◌+◌, ◌*◌, ◌<◌, ◌≤◌, ◌^◌, ◌==◌, ◌&&◌, not, nat_lt, length, map, slice_index_or, pos, int_le, int_lt, FitsSigned};
ghost use Rattle.std.specs.Ordering.{int_eq};
ghost use Rattle.std.specs.Simd.Lanes.{mask_l};
ghost use Rattle.std.specs.Int.{bit_at, w64};
ghost use Rattle.qc_lane.specs.Lanes as lanes;
ghost use Rattle.qc_lane.specs.Lanes.{is_set, words_for};

use std::simd::prelude::*;

/// A relation of a value to a bound.
#[derive(Clone, Copy, Debug, PartialEq, Eq)]
pub enum Cmp {
    Eq,
    Ne,
    Lt,
    Le,
    Gt,
    Ge,
}

/// How many values are compared at a time, which is how many bits a word of a mask has.
pub(crate) const LANES: usize = 64;

/// Sets in `out` the bit of each value that isn't NULL and stands in the relation to the bound, and clears all other bits. `nulls` has a set bit for each
/// value that is NULL; its bits behind the last value may be anything. Linear in how many values there are.
pub fn compare_mask(values: &[i64], nulls: &[u64], op: Cmp, bound: i64, out: &mut [u64])
    requires nulls { length nulls.now ≡ words_for (length values.now) }
    requires out { length out.old ≡ words_for (length values.now) }
    ensures { (i : ℕ) → is_set out.new i ≡ (nat_lt i (length values.now) && (not (is_set nulls.now i) && lanes.stands op (slice_index_or values.now i (pos 0)) bound)) }
{
    for (k, word) in out.iter_mut().enumerate() {
        *word = without(compared(&values[k * LANES..], op, bound), nulls[k]);
    }
}

/// The bits of a word that aren't set in another one.
fn without(word: u64, other: u64) -> u64
    ensures { (i : ℕ) → i < 64 → (bit_at result i == 1) ≡ ((bit_at word i == 1) && not (bit_at other i == 1)) }
{
    word & !other
}

/// A bit for each of the first 64 values, set where it stands in the relation to the bound.
pub(crate) fn compared(values: &[i64], op: Cmp, bound: i64) -> u64
    ensures { (i : ℕ) → i < 64 → (bit_at result i == 1) ≡ (nat_lt i (length values.now) && lanes.stands op (slice_index_or values.now i (pos 0)) bound) }
{
    if values.len() < LANES {
        return compared_rest(values, op, bound);
    }
    compared_lanes(values, op, bound)
}

fn compared_lanes(values: &[i64], op: Cmp, bound: i64) -> u64
    requires { 64 ≤ length values.now }
    ensures { (i : ℕ) → i < 64 → (bit_at result i == 1) ≡ lanes.stands op (slice_index_or values.now i (pos 0)) bound }
{
    match op {
        Cmp::Eq => equal(values, bound),
        Cmp::Ne => other(values, bound),
        Cmp::Lt => less(values, bound),
        Cmp::Le => at_most(values, bound),
        Cmp::Gt => greater(values, bound),
        Cmp::Ge => at_least(values, bound),
    }
}

/// Each of the first 64 values fits 64 bits, which the prover knows of a value that was read. It does nothing else.
fn read_lanes(values: &[i64])
    requires { 64 ≤ length values.now }
    ensures { (i : ℕ) → i < 64 → FitsSigned w64 (slice_index_or values.now i (pos 0)) }
{
    for i in 0..LANES {
        let _ = values[i];
    }
}

fn equal(values: &[i64], bound: i64) -> u64
    requires { 64 ≤ length values.now }
    ensures { (i : ℕ) → i < 64 → (bit_at result i == 1) ≡ int_eq (slice_index_or values.now i (pos 0)) bound }
{
    read_lanes(values);
    i64x64::from_slice(values)
        .simd_eq(i64x64::splat(bound))
        .to_bitmask()
}

fn less(values: &[i64], bound: i64) -> u64
    requires { 64 ≤ length values.now }
    ensures { (i : ℕ) → i < 64 → (bit_at result i == 1) ≡ int_lt (slice_index_or values.now i (pos 0)) bound }
{
    read_lanes(values);
    i64x64::from_slice(values)
        .simd_lt(i64x64::splat(bound))
        .to_bitmask()
}

fn greater(values: &[i64], bound: i64) -> u64
    requires { 64 ≤ length values.now }
    ensures { (i : ℕ) → i < 64 → (bit_at result i == 1) ≡ int_lt bound (slice_index_or values.now i (pos 0)) }
{
    read_lanes(values);
    i64x64::splat(bound)
        .simd_lt(i64x64::from_slice(values))
        .to_bitmask()
}

fn other(values: &[i64], bound: i64) -> u64
    requires { 64 ≤ length values.now }
    ensures { (i : ℕ) → i < 64 → (bit_at result i == 1) ≡ not (int_eq (slice_index_or values.now i (pos 0)) bound) }
{
    !equal(values, bound)
}

fn at_most(values: &[i64], bound: i64) -> u64
    requires { 64 ≤ length values.now }
    ensures { (i : ℕ) → i < 64 → (bit_at result i == 1) ≡ int_le (slice_index_or values.now i (pos 0)) bound }
{
    !greater(values, bound)
}

fn at_least(values: &[i64], bound: i64) -> u64
    requires { 64 ≤ length values.now }
    ensures { (i : ℕ) → i < 64 → (bit_at result i == 1) ≡ int_le bound (slice_index_or values.now i (pos 0)) }
{
    !less(values, bound)
}

/// The same of fewer values, from the last to the first.
fn compared_rest(values: &[i64], op: Cmp, bound: i64) -> u64
    requires { length values.now < 64 }
    ensures { result ≡ mask_l (map (λ x. lanes.stands op x bound) values.now) }
{
    let mut word = 0;
    for i in (0..values.len()).rev() {
        word = 2 * word + u64::from(stands(op, values[i], bound));
    }
    word
}

fn stands(op: Cmp, value: i64, bound: i64) -> bool
    ensures { result ≡ lanes.stands op value bound }
{
    match op {
        Cmp::Eq => value == bound,
        Cmp::Ne => value != bound,
        Cmp::Lt => value < bound,
        Cmp::Le => value <= bound,
        Cmp::Gt => value > bound,
        Cmp::Ge => value >= bound,
    }
}
