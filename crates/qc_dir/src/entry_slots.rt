//! Entries in slots, found by three of their numbers.

ghost use Rattle.std.specs.Prelude.{◌≡◌, ℕ, ◌-◌, ◌+◌, ◌<◌, ◌≤◌, ◌^◌, [], ◌∷◌, true, false, length, replicate, slice_set, Option, Some, None, IfOk, IfSome, IsSome, IsSomeAnd, MatchOption, IsPermutation};
ghost use Rattle.std.specs.List.{AllByRecursion};
ghost use Rattle.std.specs.Option.{option_map};
ghost use Rattle.qc_dir.specs.declared.entries.Entry.{Entry};
ghost use Rattle.qc_dir.specs.declared.entry_slots.By.TheVariants.{Serial, Place};
ghost use Rattle.qc_dir.specs.Directory.{serials_under};
ghost use Rattle.qc_chain.specs.Filed.{in_slot, contents};
ghost use Rattle.qc_dir.specs.Keys.{total, bit};
ghost use Rattle.qc_dir.specs.Uses.{placed_text, number_by, is_numbered, having};

use crate::candidates::Candidates;
use crate::entries::Entry;
use qc_chain::{Lists, Walk, all_free, bucket, empty_slots, mask_for};
use qc_types::NoMemory;
use std::alloc::Global;
use std::marker::Model;

/// What entries are looked up by.
#[derive(Clone, Copy)]
pub(crate) enum By {
    /// Their serial.
    Serial,
    /// Their hash.
    Hash,
    /// The place of their text's block.
    Place,
}

/// Slots for entries, of which there are as many as were made. Each stands in a list of its entry's serial, in one of its hash and in one of its text's
/// place. Contracts see what the slots have. Each call but `new` costs the entries of one list.
#[derive(Drop)]
pub(crate) struct EntrySlots {
    slots: Vec<Option<Entry>>,
    serials: Lists,
    hashes: Lists,
    places: Lists,
    mask: u32,
}

impl Model for EntrySlots {
    ghost use Rattle.std.specs.Prelude.{◌<◌, ◌^◌, List, Option, length};
    ghost use Rattle.qc_dir.specs.declared.entries.Entry.{Entry};
    ghost use Rattle.qc_dir.specs.Uses.{IsEntrySlots};

    ghost Value = { List (Option Entry) };

    ghost view = { λ s. s.slots.items };

    ghost invariant = { λ s. IsEntrySlots s.slots.items s.serials s.hashes s.places s.mask × (s.mask < 2 ^ 29) × (length s.slots.items < 2 ^ 32) };
}

impl EntrySlots {
    /// So many slots with nothing in them.
    pub(crate) fn new(alloc: Global, slots: u32) -> Result<EntrySlots, NoMemory>
        requires { slots ≤ 2 ^ 28 }
        ensures { IfOk result (λ s. s ≡ replicate slots None) }
    {
        let mask = mask_for(slots);
        let empty = empty_slots(alloc, slots)?;
        let serials = all_free(alloc, mask + 2, slots)?;
        let hashes = all_free(alloc, mask + 2, slots)?;
        let places = all_free(alloc, mask + 2, slots)?;
        Ok(EntrySlots {
            slots: empty,
            serials,
            hashes,
            places,
            mask,
        })
    }

    /// How many slots there are.
    pub(crate) fn len(&self) -> u32
        ensures { result ≡ length self.now }
    {
        self.slots.len() as u32
    }

    /// What a slot has.
    pub(crate) fn at(&self, slot: u32) -> &Option<Entry>
        requires { slot < length self.now }
        ensures { result.now ≡ in_slot slot self.now }
    {
        &self.slots[slot as usize]
    }

    /// The slot with the entry of a serial, if any.
    pub(crate) fn find(&self, serial: u64) -> Option<u32>
        ensures none { result ≡ None → total (λ s. bit (is_numbered Serial serial s)) self.now ≡ 0 }
        ensures some { IfSome result (λ n. (n < length self.now) × (is_numbered Serial serial (in_slot n self.now) ≡ true)) }
    {
        let mut list = self.serials.walk(bucket(self.mask, serial));
        next_with(&self.slots, &mut list, By::Serial, serial)
    }

    /// The slot with the entry of a serial, which is there.
    pub(crate) fn slot_of(&self, serial: u64) -> u32
        requires { 0 < total (λ s. bit (is_numbered Serial serial s)) self.now }
        ensures within { result < length self.now }
        ensures entry { is_numbered Serial serial (in_slot result self.now) ≡ true }
    {
        let Some(slot) = self.find(serial) else {
            unreachable!()
        };
        slot
    }

    /// A slot with an entry whose text stands at a place, if any.
    pub(crate) fn text_at(&self, place: u32) -> Option<u32>
        ensures none { result ≡ None → total (λ s. bit (is_numbered Place place s)) self.now ≡ 0 }
        ensures some { IfSome result (λ n. (n < length self.now) × (is_numbered Place place (in_slot n self.now) ≡ true)) }
    {
        let number = u64::from(place);
        let mut list = self.places.walk(bucket(self.mask, number));
        next_with(&self.slots, &mut list, By::Place, number)
    }

    /// The serials of the entries under a hash, each once, in any order.
    pub(crate) fn candidates(&self, hash: u64) -> Candidates<'_>
        ensures { IsPermutation result (serials_under hash (contents self.now)) }
    {
        let list = self.hashes.walk(bucket(self.mask, hash));
        Candidates::new(&self.slots, list, hash)
    }

    /// Puts an entry into a slot.
    pub(crate) fn put(&mut self, slot: u32, entry: Entry)
        requires { slot < length self.old }
        ensures { self.new ≡ slice_set self.old slot (Some entry) }
    {
        self.serials.put_last(slot, bucket(self.mask, entry.serial));
        self.hashes.put_last(slot, bucket(self.mask, entry.hash));
        self.places
            .put_last(slot, bucket(self.mask, u64::from(entry.text.first)));
        self.slots[slot as usize] = Some(entry);
    }

    /// Takes what a slot has.
    pub(crate) fn take(&mut self, slot: u32) -> Option<Entry>
        requires { slot < length self.old }
        ensures entry { result ≡ in_slot slot self.old }
        ensures slots { self.new ≡ slice_set self.old slot None }
    {
        self.serials.put_last(slot, 0);
        self.hashes.put_last(slot, 0);
        self.places.put_last(slot, 0);
        self.slots[slot as usize].take()
    }

    /// Makes a slot's entry complete.
    pub(crate) fn complete(&mut self, slot: u32)
        requires { slot < length self.old }
        ensures { self.new ≡ slice_set self.old slot (option_map (λ (e : Entry). record e { complete = true }) (in_slot slot self.old)) }
    {
        complete_in(&mut self.slots[slot as usize]);
    }

    /// Gives a slot's entry one user more.
    pub(crate) fn enter(&mut self, slot: u32)
        requires within { slot < length self.old }
        requires few { IsSomeAnd (in_slot slot self.old) (λ e. e.users < 2 ^ 32 - 1) }
        ensures { self.new ≡ slice_set self.old slot (option_map (λ (e : Entry). record e { users = e.users + 1 }) (in_slot slot self.old)) }
    {
        enter_in(&mut self.slots[slot as usize]);
    }

    /// Gives a slot's entry one user less.
    pub(crate) fn leave(&mut self, slot: u32)
        requires within { slot < length self.old }
        requires some { IsSomeAnd (in_slot slot self.old) (λ e. 0 < e.users) }
        ensures { self.new ≡ slice_set self.old slot (option_map (λ (e : Entry). record e { users = e.users - 1 }) (in_slot slot self.old)) }
    {
        leave_in(&mut self.slots[slot as usize]);
    }

    /// Gives the text of a slot's entry another place.
    pub(crate) fn place(&mut self, slot: u32, first: u32)
        requires within { slot < length self.old }
        requires entry { IsSome (in_slot slot self.old) }
        ensures { self.new ≡ slice_set self.old slot (option_map (placed_text first) (in_slot slot self.old)) }
    {
        self.places
            .put_last(slot, bucket(self.mask, u64::from(first)));
        place_in(&mut self.slots[slot as usize], first);
    }
}

/// The next slot of a list whose entry has a number.
pub(crate) fn next_with(
    slots: &[Option<Entry>],
    list: &mut Walk<'_>,
    by: By,
    number: u64,
) -> Option<u32>
    requires { AllByRecursion (λ n. n < length slots.now) list.old }
    ensures next { MatchOption result ((having by number slots.now list.old ≡ []) × (list.new ≡ [])) (λ n. having by number slots.now list.old ≡ n ∷ having by number slots.now list.new) }
    ensures entry { IfSome result (λ n. (n < length slots.now) × (is_numbered by number (in_slot n slots.now) ≡ true)) }
    ensures below { AllByRecursion (λ n. n < length slots.now) list.new }
{
    while let Some(slot) = list.next() {
        if has_number(&slots[slot as usize], by, number) {
            return Some(slot);
        }
    }
    None
}

/// Whether a slot has an entry with a number.
fn has_number(slot: &Option<Entry>, by: By, number: u64) -> bool
    ensures { result ≡ is_numbered by number slot.now }
{
    match slot {
        Some(entry) => number_by(entry, by) == number,
        None => false,
    }
}

/// The number of an entry.
fn number_by(entry: &Entry, by: By) -> u64
    ensures { result ≡ number_by by entry.now }
{
    match by {
        By::Serial => entry.serial,
        By::Hash => entry.hash,
        By::Place => u64::from(entry.text.first),
    }
}

fn complete_in(slot: &mut Option<Entry>)
    ensures { slot.new ≡ option_map (λ (e : Entry). record e { complete = true }) slot.old }
{
    if let Some(entry) = slot {
        entry.complete = true;
    }
}

fn enter_in(slot: &mut Option<Entry>)
    requires { IsSomeAnd slot.old (λ e. e.users < 2 ^ 32 - 1) }
    ensures { slot.new ≡ option_map (λ (e : Entry). record e { users = e.users + 1 }) slot.old }
{
    if let Some(entry) = slot {
        entry.users += 1;
    }
}

fn leave_in(slot: &mut Option<Entry>)
    requires { IsSomeAnd slot.old (λ e. 0 < e.users) }
    ensures { slot.new ≡ option_map (λ (e : Entry). record e { users = e.users - 1 }) slot.old }
{
    if let Some(entry) = slot {
        entry.users -= 1;
    }
}

fn place_in(slot: &mut Option<Entry>, first: u32)
    ensures { slot.new ≡ option_map (placed_text first) slot.old }
{
    if let Some(entry) = slot {
        entry.text.first = first;
    }
}
