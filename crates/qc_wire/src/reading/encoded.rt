//! Numbers, length-encoded integers and strings, and bytes of certain values.

ghost use Rattle.std.specs.Prelude.{◌≡◌};
ghost use Rattle.qc_wire.specs.Reading as meant;
ghost use Rattle.qc_wire.specs.Reading.{Is, unread};

use crate::reading::fields::Fields;
use crate::refusal::WireRefusal;
use byteorder::{ByteOrder, LittleEndian};

/// So many bytes.
pub fn take_bytes(count: usize, fields: Fields<'_>) -> Result<(&[u8], Fields<'_>), WireRefusal>
    ensures { Is (λ x. (x.0.now, unread x.1)) result (meant.take_bytes count (unread fields.entry)) }
{
    let Fields { at, left } = fields;
    match left.split_at_checked(count) {
        Some((taken, left)) => Ok((
            taken,
            Fields {
                at: at + count,
                left,
            },
        )),
        None => Err(WireRefusal::Truncated((at + left.len()) as u64)),
    }
}

/// A number of one byte.
#[tactic(auto, unfolding(crate::specs::Reading::number))]
pub fn byte(fields: Fields<'_>) -> Result<(u8, Fields<'_>), WireRefusal>
    ensures { Is (λ x. (x.0, unread x.1)) result (meant.number 1 (unread fields.entry)) }
{
    let (bytes, fields) = take_bytes(1, fields)?;
    Ok((bytes[0], fields))
}

/// A number of two bytes, the low one first.
#[tactic(auto, unfolding(crate::specs::Reading::number))]
pub fn number_of_two(fields: Fields<'_>) -> Result<(u16, Fields<'_>), WireRefusal>
    ensures { Is (λ x. (x.0, unread x.1)) result (meant.number 2 (unread fields.entry)) }
{
    let (bytes, fields) = take_bytes(2, fields)?;
    Ok((LittleEndian::read_u16(bytes), fields))
}

/// A number of three bytes, the low one first.
#[tactic(auto, unfolding(crate::specs::Reading::number))]
pub fn number_of_three(fields: Fields<'_>) -> Result<(u32, Fields<'_>), WireRefusal>
    ensures { Is (λ x. (x.0, unread x.1)) result (meant.number 3 (unread fields.entry)) }
{
    let (bytes, fields) = take_bytes(3, fields)?;
    Ok((LittleEndian::read_u24(bytes), fields))
}

/// A number of four bytes, the low one first.
#[tactic(auto, unfolding(crate::specs::Reading::number))]
pub fn number_of_four(fields: Fields<'_>) -> Result<(u32, Fields<'_>), WireRefusal>
    ensures { Is (λ x. (x.0, unread x.1)) result (meant.number 4 (unread fields.entry)) }
{
    let (bytes, fields) = take_bytes(4, fields)?;
    Ok((LittleEndian::read_u32(bytes), fields))
}

/// A number of eight bytes, the low one first.
#[tactic(auto, unfolding(crate::specs::Reading::number))]
pub fn number_of_eight(fields: Fields<'_>) -> Result<(u64, Fields<'_>), WireRefusal>
    ensures { Is (λ x. (x.0, unread x.1)) result (meant.number 8 (unread fields.entry)) }
{
    let (bytes, fields) = take_bytes(8, fields)?;
    Ok((LittleEndian::read_u64(bytes), fields))
}

/// One certain byte.
#[tactic(auto, unfolding(crate::specs::Reading::constant))]
pub fn constant(expected: u8, fields: Fields<'_>) -> Result<Fields<'_>, WireRefusal>
    ensures { Is unread result (meant.constant expected (unread fields.entry)) }
{
    let at = fields.at;
    let (byte, fields) = byte(fields)?;
    if byte != expected {
        return Err(WireRefusal::BadByte(at as u64));
    }
    Ok(fields)
}

/// Certain bytes, one after another.
#[tactic(auto, unfolding(crate::specs::Reading::constants))]
pub fn constants<'a>(expected: &[u8], fields: Fields<'a>) -> Result<Fields<'a>, WireRefusal>
    ensures { Is unread result (meant.constants expected.now (unread fields.entry)) }
{
    match expected {
        [] => Ok(fields),
        [first, others @ ..] => constants(others, constant(*first, fields)?),
    }
}

/// A length-encoded integer in its shortest form.
#[tactic(auto, unfolding(crate::specs::Reading::integer))]
pub fn integer(fields: Fields<'_>) -> Result<(u64, Fields<'_>), WireRefusal>
    ensures { Is (λ x. (x.0, unread x.1)) result (meant.integer (unread fields.entry)) }
{
    let start = fields.at as u64;
    let (byte, fields) = byte(fields)?;
    integer_behind(start, byte, fields)
}

/// What the first byte of a length-encoded integer, at this place, begins.
#[tactic(auto, unfolding(crate::specs::Reading::integer_behind))]
fn integer_behind(
    start: u64,
    byte: u8,
    fields: Fields<'_>,
) -> Result<(u64, Fields<'_>), WireRefusal>
    ensures { Is (λ x. (x.0, unread x.1)) result (meant.integer_behind start byte (unread fields.entry)) }
{
    match byte {
        0..=0xfa => Ok((u64::from(byte), fields)),
        0xfc => {
            let (value, fields) = number_of_two(fields)?;
            shortest(start, 251, u64::from(value), fields)
        }
        0xfd => {
            let (value, fields) = number_of_three(fields)?;
            shortest(start, 1 << 16, u64::from(value), fields)
        }
        0xfe => {
            let (value, fields) = number_of_eight(fields)?;
            shortest(start, 1 << 24, value, fields)
        }
        _ => Err(WireRefusal::BadByte(start)),
    }
}

/// A number that no shorter form of a length-encoded integer has.
fn shortest(
    start: u64,
    least: u64,
    value: u64,
    fields: Fields<'_>,
) -> Result<(u64, Fields<'_>), WireRefusal>
    ensures { Is (λ x. (x.0, unread x.1)) result (meant.shortest start least (value, unread fields.entry)) }
{
    if value < least {
        return Err(WireRefusal::NotMinimal(start));
    }
    Ok((value, fields))
}

/// A length-encoded 0.
#[tactic(auto, unfolding(crate::specs::Reading::no_number))]
pub fn no_number(fields: Fields<'_>) -> Result<Fields<'_>, WireRefusal>
    ensures { Is unread result (meant.no_number (unread fields.entry)) }
{
    let start = fields.at as u64;
    let (value, fields) = integer(fields)?;
    if value != 0 {
        return Err(WireRefusal::BadByte(start));
    }
    Ok(fields)
}

/// A length-encoded string.
#[tactic(auto, unfolding(crate::specs::Reading::string))]
pub fn string(fields: Fields<'_>) -> Result<(&[u8], Fields<'_>), WireRefusal>
    ensures { Is (λ x. (x.0.now, unread x.1)) result (meant.string (unread fields.entry)) }
{
    let (size, fields) = integer(fields)?;
    take_bytes(size as usize, fields)
}
