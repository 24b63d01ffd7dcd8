//! Keys without values, found by their first number.

ghost use Rattle.std.specs.Prelude.{◌≡◌, ℕ, ◌+◌, ◌<◌, ◌≤◌, ◌^◌, [], false, true, Some, IfOk, MatchOption, length};
ghost use Rattle.qc_chain.specs.declared.keys.Key.{Key};
ghost use Rattle.qc_chain.specs.Counts.{count};
ghost use Rattle.qc_chain.specs.Filed.{in_slot, contents, IsFiled};
ghost use Rattle.qc_dir.specs.Keys.{times, bit, same_key, IsAnyUnder, is_key, pair_of, pair_home};

use crate::minors::Minors;
use qc_chain::{Key, Lists, all_free, bucket, empty_slots, mask_for};
use qc_types::NoMemory;
use std::alloc::Global;
use std::marker::Model;

/// An odd number by which the second numbers are told apart.
const PAIRS: u64 = 10123456789012345679;

/// Keys in slots, with room for a number of them that is taken once. Each slot stands in a list of its key's first number, and in a list of both numbers.
/// Contracts see the keys, and the room for more. Each call but `new` costs the keys of one list.
#[derive(Drop)]
pub(crate) struct KeySet {
    slots: Vec<Option<Key>>,
    by_major: Lists,
    by_key: Lists,
    mask: u32,
}

impl Model for KeySet {
    ghost use Rattle.std.specs.Prelude.{◌<◌, ◌^◌, length};
    ghost use Rattle.qc_chain.specs.Linked.{nodes_of};
    ghost use Rattle.qc_chain.specs.Filed.{contents};
    ghost use Rattle.qc_dir.specs.Keys.{Keys, IsKeySet};

    ghost Value = { Keys };

    ghost view = { λ s. record { keys = contents s.slots.items; room = length (nodes_of 0 s.by_major.lists) } };

    ghost invariant = { λ s. IsKeySet s.slots.items s.by_major s.by_key s.mask × (s.mask < 2 ^ 29) };
}

impl KeySet {
    /// No keys yet, and room for so many, in so many lists of each kind at least.
    pub(crate) fn new(alloc: Global, room: u32, lists: u32) -> Result<KeySet, NoMemory>
        requires room { room ≤ 2 ^ 28 }
        requires lists { lists ≤ 2 ^ 28 }
        ensures { IfOk result (λ s. s ≡ record { keys = []; room = room }) }
    {
        let mask = mask_for(lists);
        let slots = empty_slots(alloc, room)?;
        let by_major = all_free(alloc, mask + 2, room)?;
        let by_key = all_free(alloc, mask + 2, room)?;
        Ok(KeySet {
            slots,
            by_major,
            by_key,
            mask,
        })
    }

    /// One key more.
    pub(crate) fn insert(&mut self, major: u64, minor: u64)
        requires { 0 < self.old.room }
        ensures keys { (k : Key) → times k self.new.keys ≡ times k self.old.keys + bit (same_key k (record { major = major; minor = minor })) }
        ensures room { self.new.room + 1 ≡ self.old.room }
    {
        let Some(slot) = self.by_major.first(0) else {
            unreachable!()
        };
        let key = Key { major, minor };
        self.by_major.put_last(slot, bucket(self.mask, major));
        self.by_key.put_last(slot, bucket(self.mask, pair(key)));
        self.slots[slot as usize] = Some(key);
    }

    /// One key less.
    pub(crate) fn remove(&mut self, key: Key)
        requires { 0 < times key self.old.keys }
        ensures keys { (k : Key) → times k self.new.keys + bit (same_key k key) ≡ times k self.old.keys }
        ensures room { self.new.room ≡ self.old.room + 1 }
    {
        let Some(slot) = slot_of(&self.slots, &self.by_key, self.mask, key) else {
            unreachable!()
        };
        self.by_major.put_last(slot, 0);
        self.by_key.put_last(slot, 0);
        self.slots[slot as usize] = None;
    }

    /// The second numbers of the keys with this first number, in any order.
    pub(crate) fn under(&self, major: u64) -> Minors<'_>
        ensures { (n : ℕ) → count n result ≡ times (record { major = major; minor = n }) self.now.keys }
    {
        let list = self.by_major.walk(bucket(self.mask, major));
        Minors::new(&self.slots, list, major)
    }

    /// The second number of a key with this first one, if any.
    pub(crate) fn any_under(&self, major: u64) -> Option<u64>
        ensures { IsAnyUnder major self.now.keys result }
    {
        let mut minors = self.under(major);
        minors.next()
    }
}

/// One number for both of a key.
fn pair(key: Key) -> u64
    ensures { result ≡ pair_of key }
{
    key.major.wrapping_add(key.minor.wrapping_mul(PAIRS))
}

/// The slot with a key, if any.
fn slot_of(slots: &[Option<Key>], by_key: &Lists, mask: u32, key: Key) -> Option<u32>
    requires mask { mask < 2 ^ 29 }
    requires filed { IsFiled (pair_home mask) (mask + 2) slots.now by_key.now }
    ensures { MatchOption result (times key (contents slots.now) ≡ 0) (λ n. (n < length slots.now) × (is_key key (in_slot n slots.now) ≡ true)) }
{
    let mut list = by_key.walk(bucket(mask, pair(key)));
    while let Some(slot) = list.next() {
        if has_key(slots, slot, key) {
            return Some(slot);
        }
    }
    None
}

/// Whether a key stands in a slot.
fn has_key(slots: &[Option<Key>], slot: u32, key: Key) -> bool
    requires { slot < length slots.now }
    ensures { result ≡ is_key key (in_slot slot slots.now) }
{
    match &slots[slot as usize] {
        Some(found) => key.major == found.major && key.minor == found.minor,
        None => false,
    }
}
