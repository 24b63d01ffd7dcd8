//! The entries in the order of their use.

ghost use Rattle.std.specs.Prelude.{◌≡◌, ℕ, ◌+◌, ◌-◌, ◌<◌, ◌≤◌, ◌^◌, [], ◌∷◌, ◌++◌, length, slice_get, IfOk, IsSome, IsSomeAnd, MatchOption, IsPermutation, Some, None};
ghost use Rattle.std.specs.Option.{option_copied, option_map};
ghost use Rattle.qc_dir.specs.Directory.{entry_at, serials_under, oldest_idle, incomplete, without, changed, after_touch, after_complete, after_enter, after_leave};
ghost use Rattle.qc_dir.specs.Uses.{entries_of, placed_text, texts_at};

use crate::candidates::Candidates;
use crate::entries::{Entry, idle_in, missing_in, serial_in};
use crate::entry_slots::EntrySlots;
use qc_chain::{Lists, all_free};
use qc_types::NoMemory;
use std::alloc::Global;
use std::marker::Model;

/// The list of the free slots.
const FREE: u32 = 0;

/// The list of the slots with an entry, in the order of use.
const USED: u32 = 1;

/// Entries in slots, with room for a number of them that is taken once. An entry keeps its slot from `insert` to `remove`, and a use moves none. Contracts
/// see the entries in the order of their use. Each call but `new` and `oldest_idle` costs the entries of one list of the serials, of which there is about
/// one where the serials follow each other, and `candidates` and `text_at` those of a list of the hashes and of the places.
#[derive(Drop)]
pub(crate) struct Uses {
    slots: EntrySlots,
    order: Lists,
    count: u32,
    incomplete: u32,
}

impl Model for Uses {
    ghost use Rattle.std.specs.Prelude.{length};
    ghost use Rattle.qc_chain.specs.Linked.{nodes_of};
    ghost use Rattle.qc_chain.specs.Filed.{in_slots};
    ghost use Rattle.qc_dir.specs.Uses.{Used, IsUses};

    ghost Value = { Used };

    ghost view = { λ u. record { entries = in_slots u.slots (nodes_of 1 u.order.lists); room = length (nodes_of 0 u.order.lists) } };

    ghost invariant = { λ u. IsUses u.slots u.order u.count u.incomplete };
}

impl Uses {
    /// No entries, and room for so many.
    pub(crate) fn new(alloc: Global, room: u32) -> Result<Uses, NoMemory>
        requires { room ≤ 2 ^ 28 }
        ensures { IfOk result (λ u. u ≡ record { entries = []; room = room }) }
    {
        let slots = EntrySlots::new(alloc, room)?;
        let order = all_free(alloc, 2, room)?;
        Ok(Uses {
            slots,
            order,
            count: 0,
            incomplete: 0,
        })
    }

    /// How many more entries there is room for.
    pub(crate) fn room(&self) -> u32
        ensures { result ≡ self.now.room }
    {
        self.slots.len() - self.count
    }

    /// How many entries there are.
    pub(crate) fn len(&self) -> u32
        ensures { result ≡ length (entries_of self.now) }
    {
        self.count
    }

    /// How many entries aren't complete.
    pub(crate) fn incomplete(&self) -> u32
        ensures { result ≡ incomplete (entries_of self.now) }
    {
        self.incomplete
    }

    /// Puts an entry in as the most recently used one.
    pub(crate) fn insert(&mut self, entry: Entry)
        requires serial { entry_at entry.serial (entries_of self.old) ≡ None }
        requires room { 0 < self.old.room }
        ensures entries { entries_of self.new ≡ entries_of self.old ++ entry ∷ [] }
        ensures room { self.new.room + 1 ≡ self.old.room }
    {
        let Some(slot) = self.order.first(FREE) else {
            unreachable!()
        };
        self.order.put_last(slot, USED);
        let missing = entry.missing();
        self.slots.put(slot, entry);
        self.count += 1;
        self.incomplete += missing;
    }

    /// Takes an entry out.
    pub(crate) fn remove(&mut self, serial: u64) -> Entry
        requires { IsSome (entry_at serial (entries_of self.old)) }
        ensures entry { entry_at serial (entries_of self.old) ≡ Some result }
        ensures entries { entries_of self.new ≡ without serial (entries_of self.old) }
        ensures room { self.new.room ≡ self.old.room + 1 }
    {
        let slot = self.slots.slot_of(serial);
        self.order.put_last(slot, FREE);
        let Some(entry) = self.slots.take(slot) else {
            unreachable!()
        };
        self.count -= 1;
        self.incomplete -= entry.missing();
        entry
    }

    /// Makes an entry the most recently used one.
    pub(crate) fn touch(&mut self, serial: u64)
        requires { IsSome (entry_at serial (entries_of self.old)) }
        ensures entries { entries_of self.new ≡ after_touch serial (entries_of self.old) }
        ensures room { self.new.room ≡ self.old.room }
    {
        let slot = self.slots.slot_of(serial);
        self.order.put_last(slot, USED);
    }

    /// Makes an entry complete, and the most recently used one.
    pub(crate) fn complete(&mut self, serial: u64)
        requires { IsSome (entry_at serial (entries_of self.old)) }
        ensures entries { entries_of self.new ≡ after_complete serial (entries_of self.old) }
        ensures room { self.new.room ≡ self.old.room }
    {
        let slot = self.slots.slot_of(serial);
        self.incomplete -= missing_in(self.slots.at(slot));
        self.slots.complete(slot);
        self.order.put_last(slot, USED);
    }

    /// Gives an entry one user more.
    pub(crate) fn enter(&mut self, serial: u64)
        requires { IsSomeAnd (entry_at serial (entries_of self.old)) (λ e. e.users < 2 ^ 32 - 1) }
        ensures entries { entries_of self.new ≡ after_enter serial (entries_of self.old) }
        ensures room { self.new.room ≡ self.old.room }
    {
        let slot = self.slots.slot_of(serial);
        self.slots.enter(slot);
    }

    /// Gives an entry one user less.
    pub(crate) fn leave(&mut self, serial: u64)
        requires { IsSomeAnd (entry_at serial (entries_of self.old)) (λ e. 0 < e.users) }
        ensures entries { entries_of self.new ≡ after_leave serial (entries_of self.old) }
        ensures room { self.new.room ≡ self.old.room }
    {
        let slot = self.slots.slot_of(serial);
        self.slots.leave(slot);
    }

    /// Gives an entry's text block another place.
    pub(crate) fn place(&mut self, serial: u64, first: u32)
        requires { IsSome (entry_at serial (entries_of self.old)) }
        ensures entries { entries_of self.new ≡ changed serial (placed_text first) (entries_of self.old) }
        ensures room { self.new.room ≡ self.old.room }
    {
        let slot = self.slots.slot_of(serial);
        self.slots.place(slot, first);
    }

    /// The entry with a serial, borrowed, if any.
    pub(crate) fn entry(&self, serial: u64) -> Option<&Entry>
        ensures { option_copied result ≡ entry_at serial (entries_of self.now) }
    {
        let Some(slot) = self.slots.find(serial) else {
            return None;
        };
        self.slots.at(slot).as_ref()
    }

    /// The serials of the entries under a hash, each once, in any order.
    pub(crate) fn candidates(&self, hash: u64) -> Candidates<'_>
        ensures { IsPermutation result (serials_under hash (entries_of self.now)) }
    {
        self.slots.candidates(hash)
    }

    /// The serial of an entry whose text block stands at a place. None exactly where there is none.
    pub(crate) fn text_at(&self, place: u32) -> Option<u64>
        ensures { MatchOption result (texts_at place (entries_of self.now) ≡ 0) (λ n. IsSomeAnd (entry_at n (entries_of self.now)) (λ e. e.text.first ≡ place)) }
    {
        let Some(slot) = self.slots.text_at(place) else {
            return None;
        };
        serial_in(self.slots.at(slot))
    }

    /// The serial of the least recently used entry, if any. Constant time.
    pub(crate) fn oldest(&self) -> Option<u64>
        ensures { result ≡ option_map (λ e. e.serial) (slice_get (entries_of self.now) 0) }
    {
        let Some(slot) = self.order.first(USED) else {
            return None;
        };
        serial_in(self.slots.at(slot))
    }

    /// The serial of the least recently used entry that is complete and without users, if any. It passes the entries before it that are in use or not
    /// complete.
    pub(crate) fn oldest_idle(&self) -> Option<u64>
        ensures { result ≡ oldest_idle (entries_of self.now) }
    {
        let mut order = self.order.walk(USED);
        while let Some(slot) = order.next() {
            let serial = idle_in(self.slots.at(slot));
            if serial.is_some() {
                return serial;
            }
        }
        None
    }
}
