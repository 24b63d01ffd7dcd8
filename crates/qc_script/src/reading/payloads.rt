//! Rows and columns, from the bytes that the operations of a report have.

ghost use Rattle.std.specs.Prelude.{◌≡◌, ◌<◌, ◌≤◌, ◌+◌, drop, length, IfOk};
ghost use Rattle.std.specs.List.{All};
ghost use Rattle.qc_types.specs.Answers.{Gives};
ghost use Rattle.qc_script.specs.Told as told;
ghost use Rattle.qc_script.specs.Told.{Is};
ghost use Rattle.qc_script.specs.ShortNames.{HasShortName};

use crate::reading::fields::signed;
use crate::reading::misspelt::Misspelt;
use byteorder::{ByteOrder, LittleEndian};
use qc_sql::tables::{Column, Columns, Kind, StoredRow};
use qc_types::{NoMemory, Or, OwnedList, Text, Value};
use std::alloc::Global;

/// The cells of a row's payload, each with its column's kind where there is a column. A cell is a number where its column takes numbers and
/// its text is one. Linear in the payload.
pub fn row(alloc: Global, kinds: &[Kind], payload: &[u8]) -> Result<StoredRow, Or<Misspelt>>
    ensures { Gives (λ r. r) (λ e. e) result (told.row_told kinds.now payload.now) }
{
    let mut row = OwnedList::new(alloc);
    let mut kinds = kinds;
    let mut rest = payload;
    while !rest.is_empty() {
        let (cell, behind) = cell(rest)?;
        let (kind, others) = front_kind(kinds);
        row.push(value(alloc, kind, cell)?)?;
        kinds = others;
        rest = behind;
    }
    Ok(row)
}

/// The kind of the first column, which is none where there is no column, and those of the others.
fn front_kind(kinds: &[Kind]) -> (Option<Kind>, &[Kind])
    ensures first { result.0 ≡ told.first_kind kinds.now }
    ensures others { result.1.now ≡ drop 1 kinds.now }
{
    match kinds {
        [first, others @ ..] => (Some(*first), others),
        [] => (None, kinds),
    }
}

/// The value of a cell, of which no text is NULL.
fn value(alloc: Global, kind: Option<Kind>, cell: Option<&[u8]>) -> Result<Value, NoMemory>
    ensures { IfOk result (λ v. v ≡ told.value_told kind (told.now_of cell.entry)) }
{
    match (kind, cell) {
        (_, None) => Ok(Value::Null),
        (Some(Kind::Int), Some(text)) => number_or_text(alloc, text),
        (_, Some(text)) => Ok(Value::Str(Text::of(alloc, text)?)),
    }
}

/// The number that a text is, where a row writes it so, or else the text.
fn number_or_text(alloc: Global, text: &[u8]) -> Result<Value, NoMemory>
    ensures { IfOk result (λ v. v ≡ told.number_or_text text.now (told.signed_told text.now)) }
{
    match signed(text) {
        Ok(number) => Ok(Value::Int(number)),
        Err(_) => Ok(Value::Str(Text::of(alloc, text)?)),
    }
}

/// So many bytes, and what stands behind them.
fn taken(count: usize, bytes: &[u8]) -> Result<(&[u8], &[u8]), Misspelt>
    ensures value { Is (λ r. (r.0.now, r.1.now)) result (told.taken count bytes.now) }
    ensures shorter { IfOk result (λ r. length r.1.now + count ≡ length bytes.now) }
    ensures length { IfOk result (λ r. length r.0.now ≡ count) }
{
    match bytes.split_at_checked(count) {
        Some((front, behind)) => Ok((front, behind)),
        None => Err(Misspelt),
    }
}

/// The byte in front, and what stands behind it.
#[tactic(auto, unfolding(crate::specs::Told::little))]
fn byte(bytes: &[u8]) -> Result<(u8, &[u8]), Misspelt>
    ensures value { Is (λ r. (r.0, r.1.now)) result (told.little 1 bytes.now) }
    ensures shorter { IfOk result (λ r. length r.1.now < length bytes.now) }
{
    let (front, behind) = taken(1, bytes)?;
    Ok((front[0], behind))
}

/// The number of two bytes in front, the low one first, and what stands behind it.
#[tactic(auto, unfolding(crate::specs::Told::little))]
fn number_of_two(bytes: &[u8]) -> Result<(u16, &[u8]), Misspelt>
    ensures value { Is (λ r. (r.0, r.1.now)) result (told.little 2 bytes.now) }
    ensures shorter { IfOk result (λ r. length r.1.now < length bytes.now) }
{
    let (front, behind) = taken(2, bytes)?;
    Ok((LittleEndian::read_u16(front), behind))
}

#[tactic(auto, unfolding(crate::specs::Told::little))]
fn number_of_three(bytes: &[u8]) -> Result<(u32, &[u8]), Misspelt>
    ensures value { Is (λ r. (r.0, r.1.now)) result (told.little 3 bytes.now) }
    ensures shorter { IfOk result (λ r. length r.1.now < length bytes.now) }
{
    let (front, behind) = taken(3, bytes)?;
    Ok((LittleEndian::read_u24(front), behind))
}

#[tactic(auto, unfolding(crate::specs::Told::little))]
fn number_of_eight(bytes: &[u8]) -> Result<(u64, &[u8]), Misspelt>
    ensures value { Is (λ r. (r.0, r.1.now)) result (told.little 8 bytes.now) }
    ensures shorter { IfOk result (λ r. length r.1.now < length bytes.now) }
{
    let (front, behind) = taken(8, bytes)?;
    Ok((LittleEndian::read_u64(front), behind))
}

/// The length-encoded integer that begins with this byte, in any of its forms, and what stands behind it.
#[tactic(auto, unfolding(crate::specs::Told::integer_told))]
fn integer(first: u8, bytes: &[u8]) -> Result<(u64, &[u8]), Misspelt>
    ensures value { Is (λ r. (r.0, r.1.now)) result (told.integer_told first bytes.now) }
    ensures shorter { IfOk result (λ r. length r.1.now ≤ length bytes.now) }
{
    if first < 251 {
        return Ok((u64::from(first), bytes));
    }
    if first == 0xfc {
        let (number, behind) = number_of_two(bytes)?;
        return Ok((u64::from(number), behind));
    }
    if first == 0xfd {
        let (number, behind) = number_of_three(bytes)?;
        return Ok((u64::from(number), behind));
    }
    if first == 0xfe {
        return number_of_eight(bytes);
    }
    Err(Misspelt)
}

/// The cell in front, a length-encoded string or NULL, and what stands behind it.
#[tactic(auto, unfolding(crate::specs::Told::cell_told))]
fn cell(payload: &[u8]) -> Result<(Option<&[u8]>, &[u8]), Misspelt>
    ensures value { Is (λ r. (told.now_of r.0, r.1.now)) result (told.cell_told payload.now) }
    ensures shorter { IfOk result (λ r. length r.1.now < length payload.now) }
{
    let (first, behind) = byte(payload)?;
    cell_behind(first, behind)
}

/// The cell that begins with this byte.
#[tactic(auto, unfolding(crate::specs::Told::cell_behind))]
fn cell_behind(first: u8, bytes: &[u8]) -> Result<(Option<&[u8]>, &[u8]), Misspelt>
    ensures value { Is (λ r. (told.now_of r.0, r.1.now)) result (told.cell_behind first bytes.now) }
    ensures shorter { IfOk result (λ r. length r.1.now ≤ length bytes.now) }
{
    if first == 0xfb {
        return Ok((None, bytes));
    }
    let (length, behind) = integer(first, bytes)?;
    let (text, behind) = taken(length as usize, behind)?;
    Ok((Some(text), behind))
}

/// The columns of a table: of each its name behind its length, its kind and its flags. Linear in the bytes.
pub fn columns(alloc: Global, payload: &[u8]) -> Result<Columns, Or<Misspelt>>
    ensures short { IfOk result (All HasShortName) }
    ensures told { Gives (λ c. c) (λ e. e) result (told.columns_told payload.now) }
{
    let mut columns = OwnedList::new(alloc);
    let mut rest = payload;
    while !rest.is_empty() {
        let (column, behind) = first_column(alloc, rest)?;
        columns.push(column)?;
        rest = behind;
    }
    Ok(columns)
}

/// The column in front, and what stands behind it.
#[tactic(auto, unfolding(crate::specs::Told::column_told))]
fn first_column(alloc: Global, bytes: &[u8]) -> Result<(Column, &[u8]), Or<Misspelt>>
    ensures short { IfOk result (λ r. HasShortName r.0) }
    ensures shorter { IfOk result (λ r. length r.1.now < length bytes.now) }
    ensures told { Gives (λ r. (r.0, r.1.now)) (λ e. e) result (told.column_told bytes.now) }
{
    let (size, behind) = byte(bytes)?;
    let (name, behind) = taken(usize::from(size), behind)?;
    let (which, behind) = byte(behind)?;
    let (longest, behind) = number_of_two(behind)?;
    let (flags, behind) = byte(behind)?;
    let kind = kind_of(which, longest)?;
    Ok((column(alloc, name, kind, flags)?, behind))
}

/// The kind of a column, from its byte and its length.
#[tactic(auto, unfolding(crate::specs::Told::kind_told))]
fn kind_of(kind: u8, length: u16) -> Result<Kind, Misspelt>
    ensures { Is (λ k. k) result (told.kind_told kind length) }
{
    if kind == 0 {
        return Ok(Kind::Int);
    }
    if kind == 1 {
        return Ok(Kind::Str(length));
    }
    Err(Misspelt)
}

/// A column whose flags are 0, 1 for NOT NULL, or 3 for the primary key, which is NOT NULL too.
#[tactic(auto, unfolding(crate::specs::Told::column_of))]
fn column(alloc: Global, name: &[u8], kind: Kind, flags: u8) -> Result<Column, Or<Misspelt>>
    requires { length name.now ≤ 255 }
    ensures short { IfOk result HasShortName }
    ensures told { Gives (λ c. c) (λ e. e) result (told.column_of name.now kind flags) }
{
    let name = Text::of(alloc, name)?;
    if flags == 0 {
        return Ok(Column {
            name,
            kind,
            not_null: false,
            primary: false,
        });
    }
    if flags == 1 {
        return Ok(Column {
            name,
            kind,
            not_null: true,
            primary: false,
        });
    }
    if flags == 3 {
        return Ok(Column {
            name,
            kind,
            not_null: true,
            primary: true,
        });
    }
    Err(Or::Other(Misspelt))
}
