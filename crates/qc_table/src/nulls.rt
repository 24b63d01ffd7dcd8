//! Bits that tell which values are NULL.

ghost use Rattle.std.specs.Prelude.{◌≡◌, ◌+◌, ◌*◌, ◌-◌, ◌/◌, ◌<◌, ◌≤◌, ◌^◌, ◌==◌, ℕ, false, true, length, IsOk, OnOk, if◌then◌else◌};
ghost use Rattle.std.specs.Vec.{vec_capacity};
ghost use Rattle.qc_table.specs.Bits.{bit_at, bit_of, HasBitAt, IsPacked};

use qc_types::NoMemory;

/// Makes room for more bits behind those that there are so far. Linear in their number over many calls.
pub(crate) fn reserve_bits(words: &mut Vec<u64>, more: usize) -> Result<(), NoMemory>
    ensures same { words.new.items ≡ words.old.items }
    ensures room { (at : ℕ) → IsPacked words.old.items at → OnOk result ((at + more + 63) / 64 ≤ vec_capacity words.new) }
{
    words.reserve(more / 64 + 1)?;
    Ok(())
}

/// Puts a bit behind those that there are so far, in words of 64 whose other bits are 0. Constant time over many calls.
pub(crate) fn push_bit(words: &mut Vec<u64>, at: usize, bit: bool) -> Result<(), NoMemory>
    requires packed { IsPacked words.old.items at }
    requires small { at < 2 ^ 63 }
    ensures packed { OnOk result (IsPacked words.new.items (at + 1)) }
    ensures bits { OnOk result ((i : ℕ) → bit_at words.new.items i ≡ (if i == at then bit else bit_at words.old.items i)) }
    ensures succeeds { (at + 64) / 64 ≤ vec_capacity words.old → IsOk result }
    ensures capacity { vec_capacity words.old ≤ vec_capacity words.new }
{
    make_room(words, at)?;
    if bit {
        set_bit(words, at);
    }
    Ok(())
}

/// Puts another word at the end where one is begun.
fn make_room(words: &mut Vec<u64>, at: usize) -> Result<(), NoMemory>
    requires { IsPacked words.old.items at }
    ensures enough { OnOk result (length words.new.items ≡ at / 64 + 1) }
    ensures same { OnOk result ((i : ℕ) → bit_at words.new.items i ≡ bit_at words.old.items i) }
    ensures succeeds { (at + 64) / 64 ≤ vec_capacity words.old → IsOk result }
    ensures capacity { vec_capacity words.old ≤ vec_capacity words.new }
{
    if at % 64 == 0 {
        words.push(0)?;
    }
    Ok(())
}

/// Sets a bit that is 0, by adding it.
fn set_bit(words: &mut [u64], at: usize)
    requires there { at / 64 < length words.old }
    requires clear { bit_at words.old at ≡ false }
    ensures { (i : ℕ) → bit_at words.new i ≡ (if i == at then true else bit_at words.old i) }
{
    let word = words[at / 64];
    words[at / 64] = word + (1 << (at % 64));
}

/// Clears a bit that is 1, by taking it away.
fn clear_bit(words: &mut [u64], at: usize)
    requires there { at / 64 < length words.old }
    requires set { bit_at words.old at ≡ true }
    ensures { (i : ℕ) → bit_at words.new i ≡ (if i == at then false else bit_at words.old i) }
{
    let word = words[at / 64];
    words[at / 64] = word - (1 << (at % 64));
}

/// Puts a bit in the place of the one that stands there.
pub(crate) fn put_bit(words: &mut Vec<u64>, at: usize, bit: bool)
    requires { at / 64 < length words.old.items }
    ensures bits { (i : ℕ) → bit_at words.new.items i ≡ (if i == at then bit else bit_at words.old.items i) }
    ensures len { length words.new.items ≡ length words.old.items }
    ensures capacity { vec_capacity words.new ≡ vec_capacity words.old }
{
    if has_bit(words, at) == bit {
        return;
    }
    if bit {
        set_bit(words, at);
    } else {
        clear_bit(words, at);
    }
}

/// Whether a bit is set.
pub(crate) fn has_bit(words: &[u64], at: usize) -> bool
    requires { at / 64 < length words.now }
    ensures { result ≡ bit_at words.now at }
{
    (words[at / 64] >> (at % 64)) % 2 == 1
}

/// Puts a bit between those that there are so far, in words of 64 whose other bits are 0, and moves those behind it up. Linear in the number of words behind it.
pub(crate) fn insert_bit(
    words: &mut Vec<u64>,
    at: usize,
    count: usize,
    bit: bool,
) -> Result<(), NoMemory>
    requires packed { IsPacked words.old.items count }
    requires within { at ≤ count }
    requires small { count < 2 ^ 63 }
    ensures packed { OnOk result (IsPacked words.new.items (count + 1)) }
    ensures bits { OnOk result (HasBitAt at bit words.old.items words.new.items) }
    ensures succeeds { (count + 64) / 64 ≤ vec_capacity words.old → IsOk result }
    ensures capacity { vec_capacity words.old ≤ vec_capacity words.new }
{
    make_room(words, count)?;
    move_up(words, at, bit);
    Ok(())
}

/// Puts a bit in front of the one at an index and moves that one and those behind it up, of which the last is lost.
fn move_up(words: &mut [u64], at: usize, bit: bool)
    requires { at / 64 < length words.old }
    ensures len { length words.new ≡ length words.old }
    ensures front { (i : ℕ) → i < at → bit_at words.new i ≡ bit_at words.old i }
    ensures here { bit_at words.new at ≡ bit }
    ensures behind { (i : ℕ) → at ≤ i → i + 1 < length words.old * 64 → bit_at words.new (i + 1) ≡ bit_at words.old i }
{
    let mut bit = bit;
    let mut place = at % 64;
    for index in at / 64..words.len() {
        let word = words[index];
        words[index] = with_bit(word, place, bit);
        bit = has_last(word);
        place = 0;
    }
}

/// A word with a bit between its others, of which the last is lost.
fn with_bit(word: u64, at: usize, bit: bool) -> u64
    requires { at < 64 }
    ensures front { (i : ℕ) → i < at → bit_of result i ≡ bit_of word i }
    ensures here { bit_of result at ≡ bit }
    ensures behind { (i : ℕ) → at ≤ i → i < 63 → bit_of result (i + 1) ≡ bit_of word i }
{
    let high = (word % (1 << 63)) >> at;
    ((high * 2 + u64::from(bit)) << at) + word % (1 << at)
}

/// Whether the last bit of a word is set.
fn has_last(word: u64) -> bool
    ensures { result ≡ bit_of word 63 }
{
    (word >> 63) % 2 == 1
}

/// Takes the bit at an index out, and moves those behind it down. Linear in the number of words behind it.
pub(crate) fn remove_bit(words: &mut Vec<u64>, at: usize, count: usize)
    requires packed { IsPacked words.old.items count }
    requires within { at < count }
    requires small { count < 2 ^ 63 }
    ensures packed { IsPacked words.new.items (count - 1) }
    ensures bits { HasBitAt at (bit_at words.old.items at) words.new.items words.old.items }
    ensures capacity { vec_capacity words.new ≡ vec_capacity words.old }
{
    move_down(words, at);
    words.truncate((count + 62) / 64);
}

/// Moves the bits behind the one at an index down by one, in its place; the last is 0 then.
fn move_down(words: &mut [u64], at: usize)
    requires { at / 64 < length words.old }
    ensures len { length words.new ≡ length words.old }
    ensures front { (i : ℕ) → i < at → bit_at words.new i ≡ bit_at words.old i }
    ensures behind { (i : ℕ) → at ≤ i → bit_at words.new i ≡ bit_at words.old (i + 1) }
{
    let mut place = at % 64;
    for index in at / 64..words.len() {
        let next = has_first(words, index + 1);
        words[index] = without_bit(words[index], place, next);
        place = 0;
    }
}

/// A word without the bit at an index, with another one behind its last.
fn without_bit(word: u64, at: usize, next: bool) -> u64
    requires { at < 64 }
    ensures front { (i : ℕ) → i < at → bit_of result i ≡ bit_of word i }
    ensures behind { (i : ℕ) → at ≤ i → i < 63 → bit_of result i ≡ bit_of word (i + 1) }
    ensures last { bit_of result 63 ≡ next }
{
    let high = (word >> at) / 2;
    (u64::from(next) << 63) + ((high << at) + word % (1 << at))
}

/// Whether the first bit of the word at an index is set, where there is one.
fn has_first(words: &[u64], index: usize) -> bool
    ensures { result ≡ bit_at words.now (index * 64) }
{
    index < words.len() && words[index] % 2 == 1
}
