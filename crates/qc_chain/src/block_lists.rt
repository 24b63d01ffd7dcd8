//! The blocks of chains, each chain's in their order.

ghost use Rattle.std.specs.Prelude.{◌≡◌, ◌≢◌, ℕ, ◌+◌, ◌<◌, ◌^◌, List, [], ◌∷◌, ◌++◌, true, false, map, length, replicate, Some, None, IfOk, MatchOption};
ghost use Rattle.std.specs.List.{AllByRecursion};
ghost use Rattle.std.specs.Option.{IsSome, option_map};
ghost use Rattle.qc_tiles.specs.declared.blocks.Block.{Block};
ghost use Rattle.qc_chain.specs.Filed.{in_slot, in_slots, IsFiled};
ghost use Rattle.qc_tiles.specs.Tiles.{moved};
ghost use Rattle.qc_chain.specs.Views.{blocks_of, Appends, TakesFirst, Cuts};
ghost use Rattle.qc_chain.specs.Listed.{place_home, is_at, blocks_at, moved_in};

use crate::lists::{Lists, Walk};
use crate::slot_lists::{all_free, bucket, empty_slots, mask_for};
use qc_tiles::{Block, Move};
use qc_types::NoMemory;
use std::alloc::Global;
use std::marker::Model;

/// The list of the free slots.
const FREE: u32 = 0;

/// The most blocks that there may be room for, which no region has.
const MOST: u32 = 268_435_456;

/// Blocks in slots, with room for a number of them that is taken once. A slot with a block stands in a list of the block's chain, and in a list of its place.
/// Contracts see the blocks of each chain, and the room for more. Each call but `new` takes constant time, as far as the places spread over their lists:
/// `shift` so much for each block that stood at the place.
#[derive(Drop)]
pub(crate) struct BlockLists {
    slots: Vec<Option<Block>>,
    by_chain: Lists,
    by_place: Lists,
    mask: u32,
    room: u32,
}

impl Model for BlockLists {
    ghost use Rattle.std.specs.Prelude.{◌<◌, ◌^◌};
    ghost use Rattle.qc_chain.specs.Listed.{Listed, lists_in, IsListed};

    ghost Value = { Listed };

    ghost view = { λ b. record { lists = lists_in b.slots.items b.by_chain.lists; room = b.room } };

    ghost invariant = { λ b. IsListed b.slots.items b.by_chain b.by_place b.mask b.room × (b.mask < 2 ^ 29) };
}

impl BlockLists {
    /// No blocks, and room for so many, in as many chains. Fails where memory lacks, and where there are more than any region has.
    pub(crate) fn new(alloc: Global, room: u32) -> Result<BlockLists, NoMemory>
        ensures { IfOk result (λ b. b ≡ record { lists = replicate room []; room = room }) }
    {
        if room > MOST {
            return Err(NoMemory);
        }
        let mask = mask_for(room);
        let slots = empty_slots(alloc, room)?;
        let by_chain = all_free(alloc, room + 1, room)?;
        let by_place = all_free(alloc, mask + 2, room)?;
        Ok(BlockLists {
            slots,
            by_chain,
            by_place,
            mask,
            room,
        })
    }

    /// How many more blocks there is room for.
    pub(crate) fn room(&self) -> u32
        ensures { result ≡ self.now.room }
    {
        self.room
    }

    /// Puts a block at the end of a chain.
    pub(crate) fn append(&mut self, chain: u32, block: Block)
        requires chain { chain < length self.old.lists }
        requires room { 0 < self.old.room }
        ensures appended { Appends chain block self.old.lists self.new.lists }
        ensures lists { length self.new.lists ≡ length self.old.lists }
        ensures room { self.new.room + 1 ≡ self.old.room }
        ensures few { length (blocks_of chain self.new.lists) < 2 ^ 32 }
    {
        let Some(slot) = self.by_chain.last(FREE) else {
            unreachable!()
        };
        self.by_chain.put_last(slot, chain + 1);
        self.by_place
            .put_last(slot, bucket(self.mask, u64::from(block.first)));
        self.room -= 1;
        self.slots[slot as usize] = Some(block);
    }

    /// Takes the first block of a chain out, if it has any.
    pub(crate) fn pop_first(&mut self, chain: u32) -> Option<Block>
        requires { chain < length self.old.lists }
        ensures taken { MatchOption result ((blocks_of chain self.old.lists ≡ []) × (self.new ≡ self.old)) (λ b. TakesFirst chain b self.old.lists self.new.lists × (self.new.room ≡ self.old.room + 1)) }
        ensures lists { length self.new.lists ≡ length self.old.lists }
    {
        let Some(slot) = self.by_chain.first(chain + 1) else {
            return None;
        };
        self.by_chain.put_last(slot, FREE);
        self.by_place.put_last(slot, FREE);
        self.room += 1;
        self.slots[slot as usize].take()
    }

    /// The last block of a chain, if it has any.
    pub(crate) fn last(&self, chain: u32) -> Option<Block>
        requires { chain < length self.now.lists }
        ensures { MatchOption result (blocks_of chain self.now.lists ≡ []) (λ b. (front : List Block) × (blocks_of chain self.now.lists ≡ front ++ b ∷ [])) }
    {
        let Some(slot) = self.by_chain.last(chain + 1) else {
            return None;
        };
        self.slots[slot as usize]
    }

    /// Makes the last block of a chain one of so many words.
    pub(crate) fn cut_last(&mut self, chain: u32, words: u32)
        requires chain { chain < length self.old.lists }
        requires some { 0 < length (blocks_of chain self.old.lists) }
        ensures cut { (front : List Block) (last : Block) → blocks_of chain self.old.lists ≡ front ++ last ∷ [] → Cuts chain front last (record { first = last.first; words = words }) self.old.lists self.new.lists }
        ensures lists { length self.new.lists ≡ length self.old.lists }
        ensures room { self.new.room ≡ self.old.room }
    {
        let Some(slot) = self.by_chain.last(chain + 1) else {
            unreachable!()
        };
        cut_in(&mut self.slots[slot as usize], words);
    }

    /// The blocks of a chain, one after another.
    pub(crate) fn walk(&self, chain: u32) -> BlockWalk<'_>
        requires { chain < length self.now.lists }
        ensures { result ≡ blocks_of chain self.now.lists }
    {
        let list = self.by_chain.walk(chain + 1);
        BlockWalk {
            slots: &self.slots,
            list,
        }
    }

    /// Follows a block that moved, in whatever chain it is.
    pub(crate) fn shift(&mut self, change: Move)
        requires { change.from ≢ change.to }
        ensures lists { self.new.lists ≡ map (map (moved change)) self.old.lists }
        ensures room { self.new.room ≡ self.old.room }
    {
        move_all(&mut self.slots, &mut self.by_place, self.mask, change);
    }
}

/// What is left of the blocks of a chain. Contracts see it as their list.
#[derive(Drop)]
pub(crate) struct BlockWalk<'a> {
    slots: &'a [Option<Block>],
    list: Walk<'a>,
}

impl<'a> Model for BlockWalk<'a> {
    ghost use Rattle.std.specs.Prelude.{◌<◌, List, length};
    ghost use Rattle.std.specs.List.{AllByRecursion};
    ghost use Rattle.std.specs.Option.{IsSome};
    ghost use Rattle.qc_tiles.specs.declared.blocks.Block.{Block};
    ghost use Rattle.qc_chain.specs.Filed.{in_slot, in_slots};

    ghost Value = { List Block };

    ghost view = { λ w. in_slots w.slots.now w.list };

    ghost invariant = { λ w. AllByRecursion (λ n. (n < length w.slots.now) × IsSome (in_slot n w.slots.now)) w.list };
}

impl<'a> BlockWalk<'a> {
    /// The next block, each in its turn. None exactly after the last.
    pub(crate) fn next(&mut self) -> Option<Block>
        ensures { MatchOption result ((self.old ≡ []) × (self.new ≡ [])) (λ block. self.old ≡ block ∷ self.new) }
    {
        let Some(slot) = self.list.next() else {
            return None;
        };
        block_in(self.slots, slot)
    }
}

/// The block of a slot, if it has one.
fn block_in(slots: &[Option<Block>], slot: u32) -> Option<Block>
    requires { slot < length slots.now }
    ensures { result ≡ in_slot slot slots.now }
{
    slots[slot as usize]
}

/// Moves each block that stands where something moved away.
fn move_all(slots: &mut [Option<Block>], by_place: &mut Lists, mask: u32, change: Move)
    requires mask { mask < 2 ^ 29 }
    requires placed { IsFiled (place_home mask) (mask + 2) slots.old by_place.old }
    requires other { change.from ≢ change.to }
    ensures slots { slots.new ≡ map (moved_in change) slots.old }
    ensures placed { IsFiled (place_home mask) (mask + 2) slots.new by_place.new }
{
    while move_one(slots, by_place, mask, change) {}
}

/// Moves one block that stands where something moved away. False, with nothing changed, where there is none.
fn move_one(slots: &mut [Option<Block>], by_place: &mut Lists, mask: u32, change: Move) -> bool
    requires mask { mask < 2 ^ 29 }
    requires placed { IsFiled (place_home mask) (mask + 2) slots.old by_place.old }
    requires other { change.from ≢ change.to }
    ensures slots { map (moved_in change) slots.new ≡ map (moved_in change) slots.old }
    ensures one { result ≡ true → blocks_at change.from slots.new + 1 ≡ blocks_at change.from slots.old }
    ensures none { result ≡ false → blocks_at change.from slots.new ≡ 0 }
    ensures placed { IsFiled (place_home mask) (mask + 2) slots.new by_place.new }
{
    let Some(slot) = slot_at(slots, by_place, mask, change.from) else {
        return false;
    };
    let block = block_in(slots, slot);
    slots[slot as usize] = placed(block, change.to);
    by_place.put_last(slot, bucket(mask, u64::from(change.to)));
    true
}

/// A slot with a block at a place, if any.
fn slot_at(slots: &[Option<Block>], by_place: &Lists, mask: u32, place: u32) -> Option<u32>
    requires mask { mask < 2 ^ 29 }
    requires placed { IsFiled (place_home mask) (mask + 2) slots.now by_place.now }
    ensures { MatchOption result (blocks_at place slots.now ≡ 0) (λ n. (n < length slots.now) × (is_at place (in_slot n slots.now) ≡ true)) }
{
    let mut list = by_place.walk(bucket(mask, u64::from(place)));
    while let Some(slot) = list.next() {
        if stands_at(slots, slot, place) {
            return Some(slot);
        }
    }
    None
}

/// Whether a slot has a block at a place.
fn stands_at(slots: &[Option<Block>], slot: u32, place: u32) -> bool
    requires { slot < length slots.now }
    ensures { result ≡ is_at place (in_slot slot slots.now) }
{
    match &slots[slot as usize] {
        Some(block) => block.first == place,
        None => false,
    }
}

/// The block at another place.
fn placed(block: Option<Block>, first: u32) -> Option<Block>
    ensures { result ≡ option_map (λ (b : Block). record b { first = first }) block }
{
    match block {
        Some(block) => Some(Block {
            first,
            words: block.words,
        }),
        None => None,
    }
}

fn cut_in(slot: &mut Option<Block>, words: u32)
    ensures { slot.new ≡ option_map (λ (b : Block). record b { words = words }) slot.old }
{
    if let Some(block) = slot {
        block.words = words;
    }
}
