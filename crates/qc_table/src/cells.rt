//! Columns as they are stored.

ghost use Rattle.std.specs.Prelude.{◌≡◌, ◌-◌, ◌<◌, ◌≤◌, [], ◌∷◌, ◌++◌, List, length, take, drop, true, false, option_copied, slice_set, IsOk, OnOk, Some};
ghost use Rattle.std.specs.List.{insert};
ghost use Rattle.std.specs.List.Sorted.{IsSearchInRange};
ghost use Rattle.qc_types.specs.declared.names.Value.{Value};
ghost use Rattle.qc_table.specs.Puts.{values_at, AreWide};
ghost use Rattle.qc_table.specs.Stored.{and_more, is_ints, put_in, takes, values_of, with_one, without_one, CanPut, HasRoom, IsCells, IsMade, TakesAll};
ghost use Rattle.qc_sql.specs.Database.{is_int};
ghost use Rattle.qc_table.specs.Views.{int_value, text_value, value_at, IsNulls};

use crate::ints::Ints;
use crate::puts::Puts;
use crate::texts::Texts;
use qc_sql::tables::Kind;
use qc_types::{NoMemory, Value};
use std::alloc::Global;

/// The values of a column, by its kind.
#[derive(Drop)]
pub(crate) enum Cells {
    Ints(Ints),
    Texts(Texts),
}

impl Cells {
    /// A column of this kind without values.
    pub(crate) fn new(alloc: Global, kind: Kind) -> Cells
        ensures none { values_of result ≡ [] }
        ensures ready { IsCells result }
        ensures kind { is_ints result ≡ is_int kind }
    {
        match kind {
            Kind::Int => Cells::Ints(Ints::new(alloc)),
            Kind::Str(_) => Cells::Texts(Texts::new(alloc)),
        }
    }

    /// Makes room for the values of rows in a column. Linear in what they hold over many calls.
    pub(crate) fn reserve(&mut self, puts: &Puts<'_>, column: usize) -> Result<(), NoMemory>
        requires ready { IsCells self.old }
        requires wide { AreWide column puts.now.rows }
        ensures ready { IsCells self.new }
        ensures kind { is_ints self.new ≡ is_ints self.old }
        ensures values { values_of self.new ≡ values_of self.old }
        ensures room { OnOk result (HasRoom (values_at column puts.now.rows) self.new) }
    {
        match self {
            Cells::Ints(ints) => ints.reserve(puts.len()),
            Cells::Texts(texts) => texts.reserve(puts.len(), puts.byte_count(column)?),
        }
    }

    /// Puts a value of the column's kind at the end. Linear in its length over many calls. Can't fail where there is room.
    pub(crate) fn push(&mut self, value: &Value) -> Result<(), NoMemory>
        requires ready { IsCells self.old }
        requires takes { takes (is_ints self.old) value.now ≡ true }
        ensures ready { OnOk result (IsCells self.new) }
        ensures kind { OnOk result (is_ints self.new ≡ is_ints self.old) }
        ensures values { OnOk result (values_of self.new ≡ values_of self.old ++ value.now ∷ []) }
        ensures room { (rest : List Value) → HasRoom (value.now ∷ rest) self.old → IsOk result × HasRoom rest self.new }
    {
        match self {
            Cells::Ints(ints) => ints.push(number(value)),
            Cells::Texts(texts) => texts.push(bytes(value)),
        }
    }

    /// Puts the values of rows in a column of its kind at the end, for which there is room. Linear in what they hold.
    pub(crate) fn push_all(&mut self, puts: &Puts<'_>, column: usize)
        requires ready { IsCells self.old }
        requires wide { AreWide column puts.now.rows }
        requires takes { TakesAll column puts.now.rows (is_ints self.old) }
        requires room { HasRoom (values_at column puts.now.rows) self.old }
        ensures { IsMade (and_more (values_at column puts.now.rows)) (Some self.old) self.new }
    {
        for index in 0..puts.len() {
            if self.push(puts.value(index, column)).is_err() {
                unreachable!()
            }
        }
    }

    /// Puts the values from one index up to another of a column of the same kind at the end. Linear in what they hold over many calls.
    pub(crate) fn append(&mut self, other: &Cells, from: usize, to: usize) -> Result<(), NoMemory>
        requires ready { IsCells self.old }
        requires other { IsCells other.now }
        requires kind { is_ints self.old ≡ is_ints other.now }
        requires order { from ≤ to }
        requires within { to ≤ length (values_of other.now) }
        ensures ready { OnOk result (IsCells self.new) }
        ensures kind { OnOk result (is_ints self.new ≡ is_ints self.old) }
        ensures values { OnOk result (values_of self.new ≡ values_of self.old ++ take (to - from) (drop from (values_of other.now))) }
    {
        for row in from..to {
            self.push_from(other, row)?;
        }
        Ok(())
    }

    /// Puts the value at an index of a column of the same kind at the end. Linear in its length over many calls.
    fn push_from(&mut self, other: &Cells, row: usize) -> Result<(), NoMemory>
        requires ready { IsCells self.old }
        requires other { IsCells other.now }
        requires kind { is_ints self.old ≡ is_ints other.now }
        requires row { row < length (values_of other.now) }
        ensures ready { OnOk result (IsCells self.new) }
        ensures kind { OnOk result (is_ints self.new ≡ is_ints self.old) }
        ensures values { OnOk result (values_of self.new ≡ values_of self.old ++ value_at (values_of other.now) row ∷ []) }
    {
        match (self, other) {
            (Cells::Ints(ints), Cells::Ints(other)) => ints.push(other.get(row)),
            (Cells::Texts(texts), Cells::Texts(other)) => texts.push(other.get(row)),
            (Cells::Ints(_), Cells::Texts(_)) | (Cells::Texts(_), Cells::Ints(_)) => unreachable!(),
        }
    }

    /// Whether a value of the column's kind can be put in the place of the one at an index: a number and NULL can, a text where it is the same. Linear in
    /// the length of a text.
    pub(crate) fn can_put(&self, row: usize, value: &Value) -> bool
        requires ready { IsCells self.now }
        requires takes { takes (is_ints self.now) value.now ≡ true }
        requires row { row < length (values_of self.now) }
        ensures { result ≡ true → CanPut row value.now self.now }
    {
        match self {
            Cells::Ints(_) => true,
            Cells::Texts(texts) => is_same(texts.get(row), bytes(value)),
        }
    }

    /// Puts a value of the column's kind in the place of the one at an index. Constant time.
    pub(crate) fn put(&mut self, row: usize, value: &Value)
        requires ready { IsCells self.old }
        requires takes { takes (is_ints self.old) value.now ≡ true }
        requires row { row < length (values_of self.old) }
        requires fits { CanPut row value.now self.old }
        ensures { IsMade (with_one row value.now) (Some self.old) self.new }
    {
        match self {
            Cells::Ints(ints) => ints.put(row, number(value)),
            // It is the same text.
            Cells::Texts(_) => {}
        }
    }

    /// Puts a value of the column's kind in the place of the one at an index, or in front of it. Costs what the value holds, and a move of the values behind
    /// it where it isn't a number in the place of another. Can't fail where there is room.
    pub(crate) fn put_in(
        &mut self,
        place: Result<usize, usize>,
        value: &Value,
    ) -> Result<(), NoMemory>
        requires ready { IsCells self.old }
        requires takes { takes (is_ints self.old) value.now ≡ true }
        requires place { IsSearchInRange place (length (values_of self.old)) }
        ensures ready { OnOk result (IsCells self.new) }
        ensures kind { OnOk result (is_ints self.new ≡ is_ints self.old) }
        ensures values { OnOk result (values_of self.new ≡ put_in place value.now (values_of self.old)) }
        ensures room { (rest : List Value) → HasRoom (value.now ∷ rest) self.old → IsOk result × HasRoom rest self.new }
    {
        match place {
            Ok(row) => self.replace(row, value),
            Err(row) => self.insert(row, value),
        }
    }

    /// Puts a value of the column's kind in the place of the one at an index. Costs what it holds, and that of a text a move of the texts behind it. Can't
    /// fail where there is room.
    fn replace(&mut self, row: usize, value: &Value) -> Result<(), NoMemory>
        requires ready { IsCells self.old }
        requires takes { takes (is_ints self.old) value.now ≡ true }
        requires row { row < length (values_of self.old) }
        ensures ready { OnOk result (IsCells self.new) }
        ensures kind { OnOk result (is_ints self.new ≡ is_ints self.old) }
        ensures values { OnOk result (values_of self.new ≡ slice_set (values_of self.old) row value.now) }
        ensures room { (rest : List Value) → HasRoom (value.now ∷ rest) self.old → IsOk result × HasRoom rest self.new }
    {
        match self {
            Cells::Ints(ints) => {
                ints.put(row, number(value));
                Ok(())
            }
            Cells::Texts(texts) => texts.replace(row, bytes(value)),
        }
    }

    /// Puts a value of the column's kind in front of the one at an index, or at the end. Linear in how many stand behind it and what they hold. Can't fail
    /// where there is room.
    fn insert(&mut self, row: usize, value: &Value) -> Result<(), NoMemory>
        requires ready { IsCells self.old }
        requires takes { takes (is_ints self.old) value.now ≡ true }
        requires row { row ≤ length (values_of self.old) }
        ensures ready { OnOk result (IsCells self.new) }
        ensures kind { OnOk result (is_ints self.new ≡ is_ints self.old) }
        ensures values { OnOk result (values_of self.new ≡ insert (values_of self.old) row value.now) }
        ensures room { (rest : List Value) → HasRoom (value.now ∷ rest) self.old → IsOk result × HasRoom rest self.new }
    {
        match self {
            Cells::Ints(ints) => ints.insert(row, number(value)),
            Cells::Texts(texts) => texts.insert(row, bytes(value)),
        }
    }

    /// Takes the value at an index out. Linear in how many stand behind it and what they hold.
    pub(crate) fn remove(&mut self, row: usize)
        requires ready { IsCells self.old }
        requires row { row < length (values_of self.old) }
        ensures { IsMade (without_one row) (Some self.old) self.new }
    {
        match self {
            Cells::Ints(ints) => ints.remove(row),
            Cells::Texts(texts) => texts.remove(row),
        }
    }

    /// The bits that tell which values are NULL.
    pub(crate) fn nulls(&self) -> &[u64]
        requires { IsCells self.now }
        ensures { IsNulls result.now (values_of self.now) }
    {
        match self {
            Cells::Ints(ints) => ints.nulls.as_slice(),
            Cells::Texts(texts) => texts.nulls.as_slice(),
        }
    }
}

fn number(value: &Value) -> Option<i64>
    requires { takes true value.now ≡ true }
    ensures { int_value result ≡ value.now }
{
    match value {
        Value::Null => None,
        Value::Int(n) => Some(*n),
        Value::Str(_) => unreachable!(),
    }
}

fn bytes(value: &Value) -> Option<&[u8]>
    requires { takes false value.now ≡ true }
    ensures { text_value (option_copied result) ≡ value.now }
{
    match value {
        Value::Null => None,
        Value::Str(text) => Some(text.bytes()),
        Value::Int(_) => unreachable!(),
    }
}

/// Whether two texts, or their lack, are the same.
fn is_same(text: Option<&[u8]>, other: Option<&[u8]>) -> bool
    ensures { result ≡ true → option_copied text.entry ≡ option_copied other.entry }
{
    match (text, other) {
        (None, None) => true,
        (Some(text), Some(other)) => text == other,
        (None, Some(_)) | (Some(_), None) => false,
    }
}
