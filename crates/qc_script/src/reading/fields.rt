//! Fields of a line, from their bytes. More is taken than a report has, as capitals among hexadecimal digits: whether a line is one of a
//! report's, is tested when what was read is spelt again.

ghost use Rattle.std.specs.Prelude.{◌≡◌, ◌<◌, ◌^◌, ◌==◌, map, length, IfOk, IfSome};
ghost use Rattle.std.specs.List.{position};
ghost use Rattle.qc_types.specs.Answers.{Gives};
ghost use Rattle.qc_script.specs.Told as told;
ghost use Rattle.qc_script.specs.Told.{Is, front, behind};

use crate::reading::misspelt::Misspelt;
use hex::FromHexError;
use itoa::Buffer;
use qc_types::{NoMemory, Or, OwnedList, TableName, Tables, Text};
use std::alloc::Global;

/// What stands in front of the first such byte, and what stands behind it. Where there is none, all stands in front. Linear in the front.
pub fn cut(byte: u8, text: &[u8]) -> (&[u8], &[u8])
    ensures front { result.0.now ≡ front byte text.now }
    ensures behind { result.1.now ≡ behind byte text.now }
{
    match first_place(byte, text) {
        Some(end) => (&text[..end], &text[end + 1..]),
        None => (text, &[]),
    }
}

/// The place of the first such byte.
fn first_place(byte: u8, text: &[u8]) -> Option<usize>
    ensures place { result ≡ position (λ other. other == byte) text.now }
    ensures within { IfSome result (λ end. end < length text.now) }
{
    text.iter().position(|other| *other == byte)
}

/// The parts of a list between its commas. An empty list has none. Linear in the list.
pub fn members_of(alloc: Global, list: &[u8]) -> Result<Vec<&[u8]>, NoMemory>
    ensures { IfOk result (λ members. map (λ m. m.now) members.items ≡ told.members list.now) }
{
    if list.is_empty() {
        return Ok(Vec::new(alloc));
    }
    parts_of(alloc, list)
}

fn parts_of(alloc: Global, list: &[u8]) -> Result<Vec<&[u8]>, NoMemory>
    requires { 0 < length list.now }
    ensures { IfOk result (λ members. map (λ m. m.now) members.items ≡ told.members list.now) }
{
    Ok(list.split(|byte| *byte == b',').collect(alloc)?)
}

/// A number below 2^64 in decimal digits, without leading zeros.
pub fn number(field: &[u8]) -> Result<u64, Misspelt>
    ensures { Is (λ n. n) result (told.number_told field.now) }
{
    let Ok(digits) = str::from_utf8(field) else {
        return Err(Misspelt);
    };
    let Ok(number) = digits.parse::<u64>() else {
        return Err(Misspelt);
    };
    if Buffer::new().format(number).as_bytes() != field {
        return Err(Misspelt);
    }
    Ok(number)
}

/// A number below a limit.
#[tactic(auto, unfolding(crate::specs::Told::number_below))]
pub fn number_below(limit: u64, field: &[u8]) -> Result<u64, Misspelt>
    ensures value { Is (λ n. n) result (told.number_below limit field.now) }
    ensures below { IfOk result (λ n. n < limit) }
{
    let number = number(field)?;
    if number < limit {
        return Ok(number);
    }
    Err(Misspelt)
}

/// A number below 2^32.
pub fn number_of_32(field: &[u8]) -> Result<u32, Misspelt>
    ensures { Is (λ n. n) result (told.number_below (2 ^ 32) field.now) }
{
    Ok(number_below(1 << 32, field)? as u32)
}

/// A number below 2^16.
pub fn number_of_16(field: &[u8]) -> Result<u16, Misspelt>
    ensures { Is (λ n. n) result (told.number_below (2 ^ 16) field.now) }
{
    Ok(number_below(1 << 16, field)? as u16)
}

/// A number below 2^8.
pub fn number_of_8(field: &[u8]) -> Result<u8, Misspelt>
    ensures { Is (λ n. n) result (told.number_below (2 ^ 8) field.now) }
{
    Ok(number_below(1 << 8, field)? as u8)
}

/// A number from -2^63 to 2^63 - 1 without leading zeros, with a minus where it is below 0.
pub fn signed(field: &[u8]) -> Result<i64, Misspelt>
    ensures { Is (λ n. n) result (told.signed_told field.now) }
{
    let Ok(digits) = str::from_utf8(field) else {
        return Err(Misspelt);
    };
    let Ok(number) = digits.parse::<i64>() else {
        return Err(Misspelt);
    };
    if Buffer::new().format(number).as_bytes() != field {
        return Err(Misspelt);
    }
    Ok(number)
}

/// Bytes as two hexadecimal digits each, or `-` for no bytes.
#[tactic(auto, unfolding(crate::specs::Told::bytes_told))]
pub fn bytes(alloc: Global, field: &[u8]) -> Result<Text, Or<Misspelt>>
    ensures { Gives (λ t. t) (λ e. e) result (told.bytes_told field.now) }
{
    if field == b"-".as_slice() {
        return Ok(Text::of(alloc, &[])?);
    }
    match hex::decode(alloc, field) {
        Ok(bytes) => Ok(Text::from_vec(bytes)),
        Err(FromHexError::OutOfMemory) => Err(Or::Memory),
        Err(_) => Err(Or::Other(Misspelt)),
    }
}

/// The name of a table: its database and its own name, with a point between them.
#[tactic(auto, unfolding(crate::specs::Told::table_told))]
pub fn table(alloc: Global, field: &[u8]) -> Result<TableName, Or<Misspelt>>
    ensures { Gives (λ t. t) (λ e. e) result (told.table_told field.now) }
{
    let (db, name) = cut(b'.', field);
    Ok(TableName {
        db: bytes(alloc, db)?,
        name: bytes(alloc, name)?,
    })
}

/// Names of tables, with a comma between two.
pub fn tables(alloc: Global, field: &[u8]) -> Result<Tables, Or<Misspelt>>
    ensures { Gives (λ t. t) (λ e. e) result (told.tables_told field.now) }
{
    let mut tables = OwnedList::new(alloc);
    for member in &members_of(alloc, field)? {
        tables.push(table(alloc, member)?)?;
    }
    Ok(tables)
}

/// A key in decimal, or `-` where there is none.
#[tactic(auto, unfolding(crate::specs::Told::key_told))]
pub fn key(field: &[u8]) -> Result<Option<i64>, Misspelt>
    ensures { Is (λ k. k) result (told.key_told field.now) }
{
    if field == b"-".as_slice() {
        return Ok(None);
    }
    Ok(Some(signed(field)?))
}
