//! Rows of a text result set (ProtocolText::ResultsetRow), up to the EOF_Packet behind them.

ghost use Rattle.std.specs.Prelude.{◌≡◌, length};
ghost use Rattle.qc_types.specs.Answers.{Gives};
ghost use Rattle.qc_wire.specs.Reading.{Is, unread};
ghost use Rattle.qc_wire.specs.Replies as meant;
ghost use Rattle.qc_wire.specs.Replies.{payload_view, stream_view};

use crate::encoding::NULL_CELL;
use crate::put::EOF_HEADER;
use crate::reading::encoded::{string, take_bytes};
use crate::reading::fields::Fields;
use crate::reading::packets::{begins_with, complete, next_payload};
use crate::reading::payload::{Payload, Stream};
use crate::reading::single::eof_again;
use crate::refusal::WireRefusal;
use qc_sql::replies::{TextRow, TextRows};
use qc_types::{Or, Text};
use std::alloc::Global;

/// The size of an EOF_Packet's payload, which no row that begins as it does can have.
const EOF_SIZE: usize = 5;

/// Rows of so many cells, up to the EOF_Packet with this status.
pub fn rows(
    alloc: Global,
    columns: u16,
    status: u16,
    stream: Stream<'_>,
) -> Result<(TextRows, Stream<'_>), Or<WireRefusal>>
    ensures { Gives (λ x. (x.0, stream_view x.1)) (λ e. e) result
        (meant.rows (length stream.entry.fields.left.now) columns status (stream_view stream.entry)) }
{
    let mut rows = TextRows::new(alloc);
    let mut stream = stream;
    loop {
        let (row, behind) = next_row(alloc, columns, status, stream)?;
        match row {
            Some(row) => rows.push(row)?,
            None => return Ok((rows, behind)),
        }
        stream = behind;
    }
}

/// The row in front, or none at the EOF_Packet behind the rows, and the packets behind it.
#[tactic(auto, unfolding(crate::specs::Replies::next_row))]
fn next_row(
    alloc: Global,
    columns: u16,
    status: u16,
    stream: Stream<'_>,
) -> Result<(Option<TextRow>, Stream<'_>), Or<WireRefusal>>
    ensures { Gives (λ x. (x.0, stream_view x.1)) (λ e. e) result (meant.next_row columns status (stream_view stream.entry)) }
{
    let (payload, behind) = next_payload(stream)?;
    let row = row_or_end(alloc, columns, status, payload)?;
    Ok((row, behind))
}

/// A row, or none where this is the EOF_Packet behind the rows.
#[tactic(auto, unfolding(crate::specs::Replies::row_or_end))]
fn row_or_end(
    alloc: Global,
    columns: u16,
    status: u16,
    payload: Payload<'_>,
) -> Result<Option<TextRow>, Or<WireRefusal>>
    ensures { Gives (λ x. x) (λ e. e) result (meant.row_or_end columns status (payload_view payload.entry)) }
{
    if is_eof(payload) {
        let rest = eof_again(status, payload.fields)?;
        complete(payload, rest)?;
        return Ok(None);
    }
    let (row, rest) = cells(alloc, columns, payload.fields)?;
    complete(payload, rest)?;
    Ok(Some(row))
}

fn is_eof(payload: Payload<'_>) -> bool
    ensures { result ≡ meant.is_eof (payload_view payload.entry) }
{
    begins_with(EOF_HEADER, payload.fields.left) && payload.size == EOF_SIZE
}

/// So many cells.
fn cells(
    alloc: Global,
    count: u16,
    fields: Fields<'_>,
) -> Result<(TextRow, Fields<'_>), Or<WireRefusal>>
    ensures { Gives (λ x. (x.0, unread x.1)) (λ e. e) result (meant.cells count (unread fields.entry)) }
{
    let mut row = TextRow::new(alloc);
    let mut fields = fields;
    for _ in 0..count {
        let (cell, behind) = cell(alloc, fields)?;
        row.push(cell)?;
        fields = behind;
    }
    Ok((row, fields))
}

/// A length-encoded string, or NULL. A text is copied once.
#[tactic(auto, unfolding(crate::specs::Replies::cell))]
fn cell(alloc: Global, fields: Fields<'_>) -> Result<(Option<Text>, Fields<'_>), Or<WireRefusal>>
    ensures { Gives (λ x. (x.0, unread x.1)) (λ e. e) result (meant.cell (unread fields.entry)) }
{
    if begins_with(NULL_CELL, fields.left) {
        let (_null, fields) = take_bytes(1, fields)?;
        return Ok((None, fields));
    }
    let (bytes, fields) = string(fields)?;
    Ok((Some(Text::of(alloc, bytes)?), fields))
}
