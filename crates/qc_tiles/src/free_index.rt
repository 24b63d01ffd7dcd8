//! The free blocks by their size.

ghost use Rattle.std.specs.Prelude.{◌≡◌, ℕ, ◌+◌, ◌*◌, ◌-◌, ◌<◌, ◌≤◌, ◌^◌, [], List, length, vec_len, vec_capacity, IfOk};
ghost use Rattle.qc_tiles.specs.declared.blocks.Block.{Block};
ghost use Rattle.qc_tiles.specs.Sizes.{IsBySize, Indexed, Parts, block_words, first_of, insert_block, last_of, words_or_none};
ghost use Rattle.qc_tiles.specs.Pieces.{Filled, IsEdited, IsLocated, gathered, is_below};

use crate::blocks::Block;
use crate::piece::{Piece, is_smaller};
use qc_types::NoMemory;
use std::alloc::Global;
use std::marker::Model;

/// A piece with so many blocks is cut in two.
const LONG: usize = 256;

/// A piece with fewer blocks is joined with the one below it.
const SHORT: usize = 128;

/// The free blocks by size and place, with room for a number of blocks that is taken once. They stand in pieces: each call but `new` costs the logarithm of
/// how many there are, and the moves within a piece or two, and takes no memory.
#[derive(Drop)]
pub(crate) struct FreeIndex {
    pieces: Vec<Piece>,
    /// Pieces whose blocks don't count.
    spare: Vec<Piece>,
    room: u32,
    count: u32,
    words: u32,
}

impl Model for FreeIndex {
    ghost use Rattle.qc_tiles.specs.Sizes.{Indexed};
    ghost use Rattle.qc_tiles.specs.Pieces.{IsIndex, gathered};

    ghost Value = { Indexed };

    ghost view = { λ i. record { blocks = gathered i.pieces.items; room = i.room } };

    ghost invariant = { λ i. IsIndex i.pieces i.spare i.room i.count i.words };
}

impl FreeIndex {
    /// No blocks yet, and room for so many.
    pub(crate) fn new(alloc: Global, room: u32) -> Result<FreeIndex, NoMemory>
        requires { room ≤ 131072 }
        ensures { IfOk result (λ i. i ≡ record { blocks = []; room = room }) }
    {
        let most = room as usize / SHORT + 1;
        let mut pieces = Vec::with_capacity(alloc, most)?;
        let mut spare = Vec::with_capacity(alloc, most)?;
        pieces.push_reserved(Piece::new(alloc)?);
        for _count in 1..most {
            spare.push_reserved(Piece::new(alloc)?);
        }
        Ok(FreeIndex {
            pieces,
            spare,
            room,
            count: 0,
            words: 0,
        })
    }

    /// One more block.
    pub(crate) fn insert(&mut self, block: Block)
        requires room { 0 < self.old.room }
        requires sorted { IsBySize self.old.blocks }
        requires fits { block_words self.old.blocks + block.words < 2 ^ 32 }
        ensures { self.new ≡ record { blocks = insert_block block self.old.blocks; room = self.old.room - 1 } }
    {
        let at = place(&self.pieces, block);
        self.pieces[at].insert(block);
        keep_short(&mut self.pieces, &mut self.spare, at);
        self.room -= 1;
        self.count += 1;
        self.words += block.words;
    }

    /// One block less.
    pub(crate) fn remove(&mut self, block: Block)
        requires { (others : List Block) × (self.old.blocks ≡ insert_block block others) × IsBySize others }
        ensures { (others : List Block) → self.old.blocks ≡ insert_block block others → IsBySize others → self.new ≡ record { blocks = others; room = self.old.room + 1 } }
    {
        let at = place(&self.pieces, block);
        self.pieces[at].remove_from(block);
        keep_long(&mut self.pieces, &mut self.spare, at);
        self.room += 1;
        self.count -= 1;
        self.words -= block.words;
    }

    /// The smallest block of so many words or more, and of equal ones the lowest.
    pub(crate) fn first_from(&self, words: u32) -> Option<Block>
        ensures { Parts 0 words self.now.blocks (λ low high. result ≡ first_of high) }
    {
        let least = Block { first: 0, words };
        self.pieces[place(&self.pieces, least)].first_from(least)
    }

    /// The words of the largest block, or 0.
    pub(crate) fn largest(&self) -> u32
        ensures { result ≡ words_or_none (last_of self.now.blocks) }
    {
        match self.pieces[self.pieces.len() - 1].last() {
            Some(block) => block.words,
            None => 0,
        }
    }

    /// How many blocks there are.
    pub(crate) fn count(&self) -> u32
        ensures { result ≡ length self.now.blocks }
    {
        self.count
    }

    /// Their words together.
    pub(crate) fn words(&self) -> u32
        ensures { result ≡ block_words self.now.blocks }
    {
        self.words
    }
}

/// The first piece that has a block that isn't smaller, or the last of all.
fn place(pieces: &[Piece], block: Block) -> usize
    requires { 0 < length pieces.now }
    ensures { IsBySize (gathered pieces.now) → Filled 0 pieces.now → IsLocated block pieces.now result }
{
    let below = pieces.partition_point(
        |piece: &Piece| -> bool
            ensures { result ≡ is_below block piece.now }
        {
            match piece.last() {
                Some(last) => is_smaller(last, block),
                None => true,
            }
        },
    );
    below.min(pieces.len() - 1)
}

/// Cuts a piece in two where it has become long.
fn keep_short(pieces: &mut Vec<Piece>, spare: &mut Vec<Piece>, at: usize)
    requires edited { (e : IsEdited at pieces.old.items) × (length e.was ≤ length e.now) × (length e.now < 384) }
    requires fits { length (gathered pieces.old.items) < 128 * (vec_len pieces.old + vec_len spare.old) }
    requires places { vec_len pieces.old + vec_len spare.old ≤ vec_capacity pieces.old }
    ensures blocks { gathered pieces.new.items ≡ gathered pieces.old.items }
    ensures filled { Filled 0 pieces.new.items }
    ensures some { 0 < vec_len pieces.new }
    ensures pieces { vec_len pieces.new + vec_len spare.new ≡ vec_len pieces.old + vec_len spare.old }
    ensures places { vec_capacity pieces.new ≡ vec_capacity pieces.old }
    ensures spare_places { vec_capacity spare.new ≡ vec_capacity spare.old }
{
    if pieces[at].len() < LONG {
        return;
    }
    let Some(mut upper) = spare.pop() else {
        unreachable!()
    };
    pieces[at].cut(&mut upper);
    let Ok(()) = pieces.insert(at + 1, upper) else {
        unreachable!()
    };
}

/// Joins a piece with the one below it where it has become short.
fn keep_long(pieces: &mut Vec<Piece>, spare: &mut Vec<Piece>, at: usize)
    requires edited { (e : IsEdited at pieces.old.items) × (length e.now ≤ length e.was) }
    requires fits { length (gathered pieces.old.items) < 128 * (vec_len pieces.old + vec_len spare.old) }
    requires places { vec_len pieces.old + vec_len spare.old ≤ vec_capacity pieces.old }
    requires spare_places { vec_len pieces.old + vec_len spare.old ≤ vec_capacity spare.old }
    ensures blocks { gathered pieces.new.items ≡ gathered pieces.old.items }
    ensures filled { Filled 0 pieces.new.items }
    ensures some { 0 < vec_len pieces.new }
    ensures pieces { vec_len pieces.new + vec_len spare.new ≡ vec_len pieces.old + vec_len spare.old }
    ensures places { vec_capacity pieces.new ≡ vec_capacity pieces.old }
    ensures spare_places { vec_capacity spare.new ≡ vec_capacity spare.old }
{
    if at == 0 || pieces[at].len() >= SHORT {
        return;
    }
    let upper = pieces.remove(at);
    pieces[at - 1].append(&upper);
    spare.push_reserved(upper);
    keep_short(pieces, spare, at - 1);
}
