//! The sum, the least and the greatest of the values that a mask leaves.

ghost use Rattle.std.specs.Prelude.{◌≡◌, ◌==◌, ◌*◌, ◌^◌, ◌<◌, ◌≤◌, ◌≤ℤ◌, ◌+ℤ◌, ◌∷◌, [], ℕ, true, false, if◌then◌else◌, length, take, drop, slice_index_or, neg_ℤ, pos};
ghost use Rattle.std.specs.Int.{bit_at, int_max, int_min};
ghost use Rattle.qc_lane.specs.Lanes.{greatest, least, masked, or_greater, or_smaller, stands, total, words_for, EndsAt};

use crate::bits::SetBits;
use crate::compare::{Cmp, LANES, compared};
use qc_types::Wide;

/// The sum of the values whose bit is set, and 0 where there is none. Linear in how many values there are.
pub fn sum_masked(values: &[i64], mask: &[u64]) -> Wide
    requires few { length values.now ≤ 1048576 }
    requires words { length mask.now ≡ words_for (length values.now) }
    requires ends { EndsAt mask.now (length values.now) }
    ensures { result.0 ≡ total (masked mask.now values.now) }
{
    let mut sum = 0i128;
    for (k, word) in mask.iter().enumerate() {
        sum = word_sum(sum, values_of(values, k), *word);
    }
    Wide(sum)
}

/// The least of the values whose bit is set, `None` exactly where there is none. Linear in how many values there are.
pub fn min_masked(values: &[i64], mask: &[u64]) -> Option<i64>
    requires few { length values.now ≤ 1048576 }
    requires words { length mask.now ≡ words_for (length values.now) }
    requires ends { EndsAt mask.now (length values.now) }
    ensures { result ≡ least (masked mask.now values.now) }
{
    let first = SetBits::of(mask).next(mask)?;
    let mut least = values[first];
    for (k, word) in mask.iter().enumerate() {
        least = word_least(least, values_of(values, k), *word);
    }
    Some(least)
}

/// The greatest of the values whose bit is set, `None` exactly where there is none. Linear in how many values there are.
pub fn max_masked(values: &[i64], mask: &[u64]) -> Option<i64>
    requires few { length values.now ≤ 1048576 }
    requires words { length mask.now ≡ words_for (length values.now) }
    requires ends { EndsAt mask.now (length values.now) }
    ensures { result ≡ greatest (masked mask.now values.now) }
{
    let first = SetBits::of(mask).next(mask)?;
    let mut greatest = values[first];
    for (k, word) in mask.iter().enumerate() {
        greatest = word_greatest(greatest, values_of(values, k), *word);
    }
    Some(greatest)
}

/// The values whose bits a word of a mask has.
fn values_of(values: &[i64], word: usize) -> &[i64]
    requires { 64 * word ≤ length values.now }
    ensures values { result.now ≡ take 64 (drop (64 * word) values.now) }
    ensures few { length result.now ≤ 64 }
{
    let first = LANES * word;
    let count = LANES.min(values.len() - first);
    &values[first..first + count]
}

/// A sum with those values whose bit of a word is set.
fn word_sum(start: i128, values: &[i64], word: u64) -> i128
    requires few { length values.now ≤ 64 }
    requires least { neg_ℤ (pos (2 ^ 83)) ≤ℤ start }
    requires most { start ≤ℤ pos (2 ^ 83) }
    ensures sum { result ≡ start +ℤ total (masked (word ∷ []) values.now) }
    ensures low { start ≤ℤ (result +ℤ pos (2 ^ 69)) }
    ensures high { result ≤ℤ (start +ℤ pos (2 ^ 69)) }
{
    if word == 0 {
        return start;
    }
    let mut sum = start;
    let mut bits = word;
    for value in values {
        sum = added(sum, kept(*value, bits % 2));
        bits /= 2;
    }
    sum
}

/// A sum with one more value.
fn added(sum: i128, value: i64) -> i128
    requires low { neg_ℤ (pos (2 ^ 84)) ≤ℤ sum }
    requires high { sum ≤ℤ pos (2 ^ 84) }
    ensures { result ≡ value +ℤ sum }
{
    value as i128 + sum
}

/// A value whose bit is set, and else 0: a product, since no processor foretells which bits are set.
fn kept(value: i64, bit: u64) -> i64
    requires { bit < 2 }
    ensures { result ≡ if bit == 1 then value else pos 0 }
{
    value * bit as i64
}

/// Whether none of the values whose bit of a word is set stands in the relation to a bound.
fn none_stands(values: &[i64], word: u64, op: Cmp, bound: i64) -> bool
    requires few { length values.now ≤ 64 }
    ensures { result ≡ true → (i : ℕ) → i < length values.now → bit_at word i ≡ 1 → stands op (slice_index_or values.now i (pos 0)) bound ≡ false }
{
    word == 0 || word & compared(values, op, bound) == 0
}

/// The least of a number and those whose bit of a word is set.
fn word_least(number: i64, values: &[i64], word: u64) -> i64
    requires few { length values.now ≤ 64 }
    ensures { result ≡ or_smaller number (least (masked (word ∷ []) values.now)) }
{
    if none_stands(values, word, Cmp::Lt, number) {
        return number;
    }
    let mut least = number;
    let mut bits = word;
    for value in values {
        least = smaller(least, *value, bits % 2);
        bits /= 2;
    }
    least
}

/// The smaller of a number and of a value whose bit is set.
fn smaller(number: i64, value: i64, bit: u64) -> i64
    ensures { result ≡ if bit == 1 then int_min number value else number }
{
    let other = if bit == 1 { value } else { i64::MAX };
    number.min(other)
}

/// The greatest of a number and those whose bit of a word is set.
fn word_greatest(number: i64, values: &[i64], word: u64) -> i64
    requires few { length values.now ≤ 64 }
    ensures { result ≡ or_greater number (greatest (masked (word ∷ []) values.now)) }
{
    if none_stands(values, word, Cmp::Gt, number) {
        return number;
    }
    let mut greatest = number;
    let mut bits = word;
    for value in values {
        greatest = greater(greatest, *value, bits % 2);
        bits /= 2;
    }
    greatest
}

/// The greater of a number and of a value whose bit is set.
fn greater(number: i64, value: i64, bit: u64) -> i64
    ensures { result ≡ if bit == 1 then int_max number value else number }
{
    let other = if bit == 1 { value } else { i64::MIN };
    number.max(other)
}
