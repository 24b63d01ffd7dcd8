//! Walks over the keys with the same first number.

ghost use Rattle.std.specs.Prelude.{◌≡◌, ◌<◌, ◌∷◌, [], MatchOption, length, option_to_list};
ghost use Rattle.std.specs.List.{AllByRecursion};
ghost use Rattle.qc_chain.specs.Filed.{in_slot};
ghost use Rattle.qc_dir.specs.Keys.{minor_under, minors_under};

use qc_chain::{Key, Walk};
use std::marker::Model;

/// The second numbers of the keys with a first one that were not given yet. Contracts see their list.
#[derive(Drop)]
pub(crate) struct Minors<'a> {
    slots: &'a [Option<Key>],
    list: Walk<'a>,
    major: u64,
}

impl<'a> Model for Minors<'a> {
    ghost use Rattle.std.specs.Prelude.{ℕ, ◌<◌, List, length};
    ghost use Rattle.std.specs.List.{AllByRecursion};
    ghost use Rattle.qc_dir.specs.Keys.{minors_under};

    ghost Value = { List ℕ };

    ghost view = { λ c. minors_under c.major c.slots.now c.list };

    ghost invariant = { λ c. AllByRecursion (λ n. n < length c.slots.now) c.list };
}

impl<'a> Minors<'a> {
    /// The second numbers of the keys with this first number, of those in the slots of a list.
    pub(crate) fn new(slots: &'a [Option<Key>], list: Walk<'a>, major: u64) -> Minors<'a>
        requires { AllByRecursion (λ n. n < length slots.now) list }
        ensures { result ≡ minors_under major slots.now list.entry }
    {
        Minors { slots, list, major }
    }

    /// The next number. None exactly after the last.
    pub(crate) fn next(&mut self) -> Option<u64>
        ensures { MatchOption result ((self.old ≡ []) × (self.new ≡ [])) (λ n. self.old ≡ n ∷ self.new) }
    {
        while let Some(slot) = self.list.next() {
            let found = minor_in(self.slots, slot, self.major);
            if found.is_some() {
                return found;
            }
        }
        None
    }
}

/// The second number of the key in a slot, where it has this first one.
fn minor_in(slots: &[Option<Key>], slot: u32, major: u64) -> Option<u64>
    requires { slot < length slots.now }
    ensures { option_to_list result ≡ minor_under major (in_slot slot slots.now) }
{
    match &slots[slot as usize] {
        Some(key) => {
            if key.major == major {
                Some(key.minor)
            } else {
                None
            }
        }
        None => None,
    }
}
