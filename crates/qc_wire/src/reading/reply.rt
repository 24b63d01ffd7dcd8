//! Whole replies.

ghost use Rattle.std.specs.Prelude.{◌≡◌, IfOk, Ok};
ghost use Rattle.qc_types.specs.Answers.{Gives};
ghost use Rattle.qc_sql.specs.declared.replies.Reply.{Reply};
ghost use Rattle.qc_sql.specs.Packets.{packets};
ghost use Rattle.qc_wire.specs.Laws.{IsReply};
ghost use Rattle.qc_wire.specs.Reading.{Is, unread};
ghost use Rattle.qc_wire.specs.Replies as meant;
ghost use Rattle.qc_wire.specs.Replies.{payload_view, stream_view};

use crate::put::{ERR_HEADER, OK_HEADER};
use crate::reading::columns::columns;
use crate::reading::encoded::integer;
use crate::reading::fields::Fields;
use crate::reading::packets::{begins_with, complete, next_payload};
use crate::reading::payload::{Payload, Stream};
use crate::reading::rows::rows;
use crate::reading::single::{eof_fields, err_fields, ok_fields};
use crate::refusal::WireRefusal;
use qc_sql::replies::Reply;
use qc_types::Or;
use std::alloc::Global;

/// The most columns of a result set.
const MOST_COLUMNS: u64 = 64;

/// What the first payload of a reply opens.
#[derive(Drop)]
pub enum Opening {
    /// It is the whole reply.
    Whole(Reply),
    /// A result set of so many columns.
    Columns(u16),
}

/// Reads a reply: OK_Packet, ERR_Packet, or a text result set, in packets numbered from 1 modulo 256. The bytes are those of one reply, from
/// the first to the last.
///
/// Bytes that are no reply are refused at the first fault by place. A field is read as a whole: `NotMinimal` and `BadByte` stand at its first byte,
/// or of a field of certain bytes at the one that differs; `Truncated` stands where the bytes end, or the payload by its header; `Trailing`
/// at the byte behind a complete payload or a complete reply. Of a header, the length is validated before the sequence number.
///
/// The cost is linear in the bytes, and each text is copied once.
pub fn read_reply(alloc: Global, bytes: &[u8]) -> Result<Reply, Or<WireRefusal>>
    // What is read is a reply, and the bytes are its text.
    ensures found { IfOk result (λ r. IsReply r × (bytes.now ≡ packets r)) }
    // Bytes that are the text of a reply are read as that reply, unless memory runs out.
    ensures only { (r : Reply) → IsReply r → bytes.now ≡ packets r → Gives (λ x. x) (λ e. e) result (Ok r) }
    // Which refusal it is.
    ensures exact { Gives (λ r. r) (λ e. e) result (meant.reply_of bytes.now) }
{
    reply_of(alloc, bytes)
}

#[tactic(auto, unfolding(crate::specs::Replies::reply_of))]
fn reply_of(alloc: Global, bytes: &[u8]) -> Result<Reply, Or<WireRefusal>>
    ensures { Gives (λ r. r) (λ e. e) result (meant.reply_of bytes.now) }
{
    let stream = Stream {
        sequence: 1,
        fields: Fields { at: 0, left: bytes },
    };
    let (reply, rest) = reply_in_front(alloc, stream)?;
    if !rest.fields.left.is_empty() {
        return Err(Or::Other(WireRefusal::Trailing(rest.fields.at as u64)));
    }
    Ok(reply)
}

/// The reply in front, and the packets behind it.
#[tactic(auto, unfolding(crate::specs::Replies::reply_in_front))]
fn reply_in_front(alloc: Global, stream: Stream<'_>) -> Result<(Reply, Stream<'_>), Or<WireRefusal>>
    ensures { Gives (λ x. (x.0, stream_view x.1)) (λ e. e) result (meant.reply_in_front (stream_view stream.entry)) }
{
    let (payload, stream) = next_payload(stream)?;
    match opened_by(alloc, payload)? {
        Opening::Whole(reply) => Ok((reply, stream)),
        Opening::Columns(count) => result_set(alloc, count, stream),
    }
}

#[tactic(auto, unfolding(crate::specs::Replies::opened_by))]
fn opened_by(alloc: Global, payload: Payload<'_>) -> Result<Opening, Or<WireRefusal>>
    ensures { Gives (λ x. x) (λ e. e) result (meant.opened_by (payload_view payload.entry)) }
{
    if begins_with(OK_HEADER, payload.fields.left) {
        let (reply, rest) = ok_fields(payload.fields)?;
        complete(payload, rest)?;
        return Ok(Opening::Whole(reply));
    }
    if begins_with(ERR_HEADER, payload.fields.left) {
        let (reply, rest) = err_fields(alloc, payload.fields)?;
        complete(payload, rest)?;
        return Ok(Opening::Whole(reply));
    }
    let (count, rest) = column_count(payload.fields)?;
    complete(payload, rest)?;
    Ok(Opening::Columns(count))
}

/// How many columns a result set has, from 1 to 64.
#[tactic(auto, unfolding(crate::specs::Replies::column_count))]
fn column_count(fields: Fields<'_>) -> Result<(u16, Fields<'_>), WireRefusal>
    ensures { Is (λ x. (x.0, unread x.1)) result (meant.column_count (unread fields.entry)) }
{
    let start = fields.at as u64;
    let (count, fields) = integer(fields)?;
    if count == 0 || count > MOST_COLUMNS {
        return Err(WireRefusal::BadByte(start));
    }
    Ok((count as u16, fields))
}

/// The columns, their EOF_Packet, the rows and their EOF_Packet.
#[tactic(auto, unfolding(crate::specs::Replies::result_set))]
fn result_set(
    alloc: Global,
    count: u16,
    stream: Stream<'_>,
) -> Result<(Reply, Stream<'_>), Or<WireRefusal>>
    ensures { Gives (λ x. (x.0, stream_view x.1)) (λ e. e) result (meant.result_set count (stream_view stream.entry)) }
{
    let (columns, stream) = columns(alloc, count, stream)?;
    let (status, stream) = eof_packet(stream)?;
    let (rows, stream) = rows(alloc, count, status, stream)?;
    let reply = Reply::Rows {
        columns,
        rows,
        status,
    };
    Ok((reply, stream))
}

#[tactic(auto, unfolding(crate::specs::Replies::eof_packet))]
fn eof_packet(stream: Stream<'_>) -> Result<(u16, Stream<'_>), WireRefusal>
    ensures { Is (λ x. (x.0, stream_view x.1)) result (meant.eof_packet (stream_view stream.entry)) }
{
    let (payload, stream) = next_payload(stream)?;
    let (status, rest) = eof_fields(payload.fields)?;
    complete(payload, rest)?;
    Ok((status, stream))
}
