//! The payloads of OK_Packet, ERR_Packet and EOF_Packet.

ghost use Rattle.std.specs.Prelude.{◌≡◌};
ghost use Rattle.qc_types.specs.Answers.{Gives};
ghost use Rattle.qc_wire.specs.Reading.{Is, unread};
ghost use Rattle.qc_wire.specs.Replies as meant;

use crate::put::{EOF_HEADER, ERR_HEADER, OK_HEADER};
use crate::reading::encoded::{constant, constants, integer, no_number, number_of_two, take_bytes};
use crate::reading::fields::Fields;
use crate::refusal::WireRefusal;
use byteorder::{ByteOrder, LittleEndian};
use qc_sql::replies::Reply;
use qc_types::{Or, SqlError, Text};
use std::alloc::Global;

/// OK_Packet.
#[tactic(auto, unfolding(crate::specs::Replies::ok_fields))]
pub fn ok_fields(fields: Fields<'_>) -> Result<(Reply, Fields<'_>), WireRefusal>
    ensures { Is (λ x. (x.0, unread x.1)) result (meant.ok_fields (unread fields.entry)) }
{
    let fields = constant(OK_HEADER, fields)?;
    let (affected, fields) = integer(fields)?;
    let fields = no_number(fields)?;
    let (status, fields) = number_of_two(fields)?;
    let fields = constants(&[0, 0], fields)?;
    Ok((Reply::Ok { affected, status }, fields))
}

/// ERR_Packet.
#[tactic(auto, unfolding(crate::specs::Replies::err_fields))]
pub fn err_fields(alloc: Global, fields: Fields<'_>) -> Result<(Reply, Fields<'_>), Or<WireRefusal>>
    ensures { Gives (λ x. (x.0, unread x.1)) (λ e. e) result (meant.err_fields (unread fields.entry)) }
{
    let fields = constant(ERR_HEADER, fields)?;
    let (code, fields) = number_of_two(fields)?;
    let fields = constant(b'#', fields)?;
    let (state, fields) = state(fields)?;
    let (message, fields) = take_bytes(fields.left.len(), fields)?;
    let message = Text::of(alloc, message)?;
    let error = SqlError {
        code,
        state,
        message,
    };
    Ok((Reply::Err(error), fields))
}

/// The five bytes of an SQLSTATE.
fn state(fields: Fields<'_>) -> Result<([u8; 5], Fields<'_>), WireRefusal>
    ensures { Is (λ x. (x.0, unread x.1)) result (Rattle.qc_wire.specs.Reading.take_bytes 5 (unread fields.entry)) }
{
    let (bytes, fields) = take_bytes(5, fields)?;
    Ok(([bytes[0], bytes[1], bytes[2], bytes[3], bytes[4]], fields))
}

/// The EOF_Packet behind columns, and its status.
#[tactic(auto, unfolding(crate::specs::Replies::eof_fields))]
pub fn eof_fields(fields: Fields<'_>) -> Result<(u16, Fields<'_>), WireRefusal>
    ensures { Is (λ x. (x.0, unread x.1)) result (meant.eof_fields (unread fields.entry)) }
{
    let fields = constants(&[EOF_HEADER, 0, 0], fields)?;
    number_of_two(fields)
}

/// The EOF_Packet behind rows, with a status that is known.
#[tactic(auto, unfolding(crate::specs::Replies::eof_again))]
pub fn eof_again(status: u16, fields: Fields<'_>) -> Result<Fields<'_>, WireRefusal>
    ensures { Is unread result (meant.eof_again status (unread fields.entry)) }
{
    let fields = constants(&[EOF_HEADER, 0, 0], fields)?;
    let mut bytes = [0; 2];
    LittleEndian::write_u16(&mut bytes, status);
    constants(&bytes, fields)
}
