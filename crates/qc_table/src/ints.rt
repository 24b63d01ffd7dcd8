//! BIGINT columns as they are stored.

ghost use Rattle.std.specs.Prelude.{◌≡◌, ℕ, suc, ◌<◌, [], ◌∷◌, ◌++◌, length, slice_set, IsOk, OnOk, ◌≤◌};
ghost use Rattle.std.specs.List.{insert, remove};
ghost use Rattle.qc_table.specs.Columns.{ints_of, HasIntRoom, IsInts};
ghost use Rattle.qc_table.specs.Views.{int_value, value_at};

use crate::nulls::{has_bit, insert_bit, push_bit, put_bit, remove_bit, reserve_bits};
use qc_types::NoMemory;
use std::alloc::Global;

/// The numbers of a column, 0 for each NULL, beside the bits that tell which are NULL.
#[derive(Drop)]
pub(crate) struct Ints {
    pub(crate) values: Vec<i64>,
    pub(crate) nulls: Vec<u64>,
}

impl Ints {
    pub(crate) fn new(alloc: Global) -> Ints
        ensures none { ints_of result ≡ [] }
        ensures ready { IsInts result }
    {
        Ints {
            values: Vec::new(alloc),
            nulls: Vec::new(alloc),
        }
    }

    /// Makes room for more. Linear in their number over many calls.
    pub(crate) fn reserve(&mut self, more: usize) -> Result<(), NoMemory>
        requires { IsInts self.old }
        ensures same { ints_of self.new ≡ ints_of self.old }
        ensures ready { IsInts self.new }
        ensures room { OnOk result (HasIntRoom more self.new) }
    {
        self.values.reserve(more)?;
        reserve_bits(&mut self.nulls, more)?;
        Ok(())
    }

    /// Puts a number or NULL at the end. Constant time over many calls. Can't fail where there is room.
    pub(crate) fn push(&mut self, value: Option<i64>) -> Result<(), NoMemory>
        requires { IsInts self.old }
        ensures ready { OnOk result (IsInts self.new) }
        ensures values { OnOk result (ints_of self.new ≡ ints_of self.old ++ int_value value ∷ []) }
        ensures room { (more : ℕ) → HasIntRoom (suc more) self.old → IsOk result × HasIntRoom more self.new }
    {
        push_bit(&mut self.nulls, self.values.len(), value.is_none())?;
        self.values.push(value.unwrap_or(0))?;
        Ok(())
    }

    /// Puts a number or NULL in front of the one at an index, or at the end. Linear in how many stand behind it. Can't fail where there is room.
    pub(crate) fn insert(&mut self, row: usize, value: Option<i64>) -> Result<(), NoMemory>
        requires ready { IsInts self.old }
        requires row { row ≤ length self.old.values.items }
        ensures ready { OnOk result (IsInts self.new) }
        ensures values { OnOk result (ints_of self.new ≡ insert (ints_of self.old) row (int_value value)) }
        ensures room { (more : ℕ) → HasIntRoom (suc more) self.old → IsOk result × HasIntRoom more self.new }
    {
        insert_bit(&mut self.nulls, row, self.values.len(), value.is_none())?;
        self.values.insert(row, value.unwrap_or(0))?;
        Ok(())
    }

    /// Takes the number or NULL at an index out. Linear in how many stand behind it.
    pub(crate) fn remove(&mut self, row: usize)
        requires ready { IsInts self.old }
        requires row { row < length self.old.values.items }
        ensures ready { IsInts self.new }
        ensures values { ints_of self.new ≡ remove (ints_of self.old) row }
    {
        remove_bit(&mut self.nulls, row, self.values.len());
        self.values.remove(row);
    }

    /// Puts a number or NULL in the place of the one at an index. Constant time.
    pub(crate) fn put(&mut self, row: usize, value: Option<i64>)
        requires ready { IsInts self.old }
        requires row { row < length self.old.values.items }
        ensures ready { IsInts self.new }
        ensures values { ints_of self.new ≡ slice_set (ints_of self.old) row (int_value value) }
        ensures room { (more : ℕ) → HasIntRoom (suc more) self.old → HasIntRoom more self.new }
    {
        put_bit(&mut self.nulls, row, value.is_none());
        self.values[row] = value.unwrap_or(0);
    }

    /// The number at an index, or `None` where it is NULL.
    pub(crate) fn get(&self, row: usize) -> Option<i64>
        requires ready { IsInts self.now }
        requires row { row < length self.now.values.items }
        ensures { int_value result ≡ value_at (ints_of self.now) row }
    {
        if has_bit(&self.nulls, row) {
            return None;
        }
        Some(self.values[row])
    }
}
