//! Walks over the entries under a hash.

ghost use Rattle.std.specs.Prelude.{◌≡◌, ◌<◌, ◌∷◌, [], MatchOption, length};
ghost use Rattle.std.specs.List.{AllByRecursion};
ghost use Rattle.qc_dir.specs.Directory.{serials_under};
ghost use Rattle.qc_chain.specs.Filed.{in_slots};

use crate::entries::{Entry, serial_in};
use crate::entry_slots::{By, next_with};
use qc_chain::Walk;
use std::marker::Model;

/// The serials of the entries under a hash that were not given yet. Contracts see their list.
#[derive(Drop)]
pub struct Candidates<'a> {
    slots: &'a [Option<Entry>],
    list: Walk<'a>,
    hash: u64,
}

impl<'a> Model for Candidates<'a> {
    ghost use Rattle.std.specs.Prelude.{ℕ, ◌<◌, List, length};
    ghost use Rattle.std.specs.List.{AllByRecursion};
    ghost use Rattle.qc_dir.specs.Directory.{serials_under};
    ghost use Rattle.qc_chain.specs.Filed.{in_slots};

    ghost Value = { List ℕ };

    ghost view = { λ c. serials_under c.hash (in_slots c.slots.now c.list) };

    ghost invariant = { λ c. AllByRecursion (λ n. n < length c.slots.now) c.list };
}

impl<'a> Candidates<'a> {
    /// The serials of the entries under this hash, of those in the slots of a list.
    pub(crate) fn new(slots: &'a [Option<Entry>], list: Walk<'a>, hash: u64) -> Candidates<'a>
        requires { AllByRecursion (λ n. n < length slots.now) list }
        ensures { result ≡ serials_under hash (in_slots slots.now list.entry) }
    {
        Candidates { slots, list, hash }
    }

    /// The next serial, each once. None exactly after the last.
    pub fn next(&mut self) -> Option<u64>
        ensures { MatchOption result ((self.old ≡ []) × (self.new ≡ [])) (λ n. self.old ≡ n ∷ self.new) }
    {
        let Some(slot) = next_with(self.slots, &mut self.list, By::Hash, self.hash) else {
            return None;
        };
        serial_in(&self.slots[slot as usize])
    }
}
