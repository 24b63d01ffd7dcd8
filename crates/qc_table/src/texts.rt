//! VARCHAR columns as they are stored.

ghost use Rattle.std.specs.Prelude.{◌≡◌, ℕ, suc, ◌+◌, ◌-◌, ◌<◌, ◌≤◌, ◌^◌, [], ◌∷◌, ◌++◌, drop, length, map, option_copied, slice_index, slice_set, take, IsOk, OnOk};
ghost use Rattle.std.specs.List.{insert, insert_slice, remove, remove_range};
ghost use Rattle.std.specs.Vec.{vec_capacity, vec_len};
ghost use Rattle.qc_table.specs.Columns.{part_at, text_length, texts_of, HasTextRoom, IsTexts};
ghost use Rattle.qc_table.specs.Views.{text_value, value_at};

use crate::nulls::{has_bit, insert_bit, push_bit, remove_bit, reserve_bits};
use qc_types::NoMemory;
use std::alloc::Global;

/// The texts of a column in one buffer, none for each NULL, the end of each in it, and the bits that tell which are NULL.
#[derive(Drop)]
pub(crate) struct Texts {
    pub(crate) bytes: Vec<u8>,
    pub(crate) ends: Vec<usize>,
    pub(crate) nulls: Vec<u64>,
}

/// Where a text stands in the buffer.
#[derive(Clone, Copy)]
struct Span {
    from: usize,
    to: usize,
}

impl Texts {
    pub(crate) fn new(alloc: Global) -> Texts
        ensures none { texts_of result ≡ [] }
        ensures ready { IsTexts result }
    {
        Texts {
            bytes: Vec::new(alloc),
            ends: Vec::new(alloc),
            nulls: Vec::new(alloc),
        }
    }

    /// Makes room for more, of so many bytes together. Linear in both over many calls.
    pub(crate) fn reserve(&mut self, more: usize, byte_count: usize) -> Result<(), NoMemory>
        requires { IsTexts self.old }
        ensures same { texts_of self.new ≡ texts_of self.old }
        ensures ready { IsTexts self.new }
        ensures room { OnOk result (HasTextRoom more byte_count self.new) }
    {
        self.bytes.reserve(byte_count)?;
        self.ends.reserve(more)?;
        reserve_bits(&mut self.nulls, more)?;
        Ok(())
    }

    /// Puts a text or NULL at the end. Linear in its length over many calls. Can't fail where there is room.
    pub(crate) fn push(&mut self, text: Option<&[u8]>) -> Result<(), NoMemory>
        requires { IsTexts self.old }
        ensures ready { OnOk result (IsTexts self.new) }
        ensures values { OnOk result (texts_of self.new ≡ texts_of self.old ++ text_value (option_copied text.entry) ∷ []) }
        ensures room { (more count : ℕ) → HasTextRoom (suc more) (text_length (text_value (option_copied text.entry)) + count) self.old → IsOk result × HasTextRoom more count self.new }
    {
        push_bit(&mut self.nulls, self.ends.len(), text.is_none())?;
        self.bytes.extend_from_slice(text.unwrap_or(&[]))?;
        self.ends.push(self.bytes.len())?;
        Ok(())
    }

    /// Puts a text or NULL in front of the one at an index, or at the end. Linear in how many stand behind it and in their bytes. Can't fail where there is
    /// room.
    pub(crate) fn insert(&mut self, row: usize, text: Option<&[u8]>) -> Result<(), NoMemory>
        requires ready { IsTexts self.old }
        requires row { row ≤ length self.old.ends.items }
        ensures ready { OnOk result (IsTexts self.new) }
        ensures values { OnOk result (texts_of self.new ≡ insert (texts_of self.old) row (text_value (option_copied text.entry))) }
        ensures room { (more count : ℕ) → HasTextRoom (suc more) (text_length (text_value (option_copied text.entry)) + count) self.old → IsOk result × HasTextRoom more count self.new }
    {
        let start = self.start(row);
        let bytes = text.unwrap_or(&[]);
        insert_bit(&mut self.nulls, row, self.ends.len(), text.is_none())?;
        insert_bytes(&mut self.bytes, start, bytes)?;
        raise(&mut self.ends, row, bytes.len());
        self.ends.insert(row, start + bytes.len())?;
        Ok(())
    }

    /// Takes the text or NULL at an index out. Linear in how many stand behind it and in their bytes.
    pub(crate) fn remove(&mut self, row: usize)
        requires ready { IsTexts self.old }
        requires row { row < length self.old.ends.items }
        ensures ready { IsTexts self.new }
        ensures values { texts_of self.new ≡ remove (texts_of self.old) row }
        ensures count { length self.new.ends.items + 1 ≡ length self.old.ends.items }
        ensures room { (more count : ℕ) → HasTextRoom more count self.old → HasTextRoom more count self.new }
    {
        let span = self.span(row);
        remove_bit(&mut self.nulls, row, self.ends.len());
        remove_bytes(&mut self.bytes, span.from, span.to);
        self.ends.remove(row);
        lower(&mut self.ends, row, span.to - span.from);
    }

    /// Puts a text or NULL in the place of the one at an index. Linear in how many stand behind it and in their bytes. Can't fail where there is room.
    pub(crate) fn replace(&mut self, row: usize, text: Option<&[u8]>) -> Result<(), NoMemory>
        requires ready { IsTexts self.old }
        requires row { row < length self.old.ends.items }
        ensures ready { OnOk result (IsTexts self.new) }
        ensures values { OnOk result (texts_of self.new ≡ slice_set (texts_of self.old) row (text_value (option_copied text.entry))) }
        ensures room { (more count : ℕ) → HasTextRoom (suc more) (text_length (text_value (option_copied text.entry)) + count) self.old → IsOk result × HasTextRoom more count self.new }
    {
        self.remove(row);
        self.insert(row, text)
    }

    /// Where the text at an index begins.
    fn start(&self, row: usize) -> usize
        requires { row ≤ length self.now.ends.items }
        ensures { result ≡ slice_index (0 ∷ self.now.ends.items) row }
    {
        if row == 0 { 0 } else { self.ends[row - 1] }
    }

    /// Where the text at an index stands.
    fn span(&self, row: usize) -> Span
        requires ready { IsTexts self.now }
        requires row { row < length self.now.ends.items }
        ensures from { result.from ≡ slice_index (0 ∷ self.now.ends.items) row }
        ensures to { result.to ≡ slice_index self.now.ends.items row }
        ensures order { result.from ≤ result.to }
        ensures within { result.to ≤ length self.now.bytes.items }
    {
        Span {
            from: self.start(row),
            to: self.ends[row],
        }
    }

    /// The bytes at an index, none where it is NULL.
    fn part(&self, row: usize) -> &[u8]
        requires ready { IsTexts self.now }
        requires row { row < length self.now.ends.items }
        ensures { result.now ≡ part_at self.now.ends.items self.now.bytes.items row }
    {
        let span = self.span(row);
        &self.bytes[span.from..span.to]
    }

    /// The bytes at an index, or `None` where it is NULL.
    pub(crate) fn get(&self, row: usize) -> Option<&[u8]>
        requires ready { IsTexts self.now }
        requires row { row < length self.now.ends.items }
        ensures { text_value (option_copied result) ≡ value_at (texts_of self.now) row }
    {
        if has_bit(&self.nulls, row) {
            None
        } else {
            Some(self.part(row))
        }
    }
}

/// Puts bytes between others. Linear in how many they are and stand behind them, over many calls.
fn insert_bytes(bytes: &mut Vec<u8>, at: usize, more: &[u8]) -> Result<(), NoMemory>
    requires { at ≤ length bytes.old.items }
    ensures items { OnOk result (bytes.new.items ≡ insert_slice bytes.old.items at more.now) }
    ensures len { OnOk result (vec_len bytes.new ≡ vec_len bytes.old + length more.now) }
    ensures succeeds { vec_len bytes.old + length more.now ≤ vec_capacity bytes.old → IsOk result }
    ensures capacity { vec_capacity bytes.old ≤ vec_capacity bytes.new }
{
    bytes.extend_from_slice(more)?;
    bytes[at..].rotate_right(more.len());
    Ok(())
}

/// Takes the bytes from an index up to another one out. Linear in how many stand behind them.
fn remove_bytes(bytes: &mut Vec<u8>, from: usize, to: usize)
    requires order { from ≤ to }
    requires within { to ≤ length bytes.old.items }
    ensures items { bytes.new.items ≡ remove_range bytes.old.items from to }
    ensures capacity { vec_capacity bytes.new ≡ vec_capacity bytes.old }
{
    bytes.copy_within(to.., from);
    bytes.truncate(bytes.len() - (to - from));
}

/// Adds to the ends from an index on.
fn raise(ends: &mut [usize], from: usize, more: usize)
    requires from { from ≤ length ends.old }
    requires fits { (i : ℕ) → from ≤ i → i < length ends.old → slice_index ends.old i + more < 2 ^ 64 }
    ensures ends { ends.new ≡ take from ends.old ++ map (λ end. end + more) (drop from ends.old) }
    ensures len { length ends.new ≡ length ends.old }
{
    for index in from..ends.len() {
        ends[index] += more;
    }
}

/// Takes away from the ends from an index on.
fn lower(ends: &mut [usize], from: usize, less: usize)
    requires from { from ≤ length ends.old }
    requires fits { (i : ℕ) → from ≤ i → i < length ends.old → less ≤ slice_index ends.old i }
    ensures ends { ends.new ≡ take from ends.old ++ map (λ end. end - less) (drop from ends.old) }
    ensures len { length ends.new ≡ length ends.old }
{
    for index in from..ends.len() {
        ends[index] -= less;
    }
}
