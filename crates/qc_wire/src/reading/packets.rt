//! The packets of a reply, one after another.

ghost use Rattle.std.specs.Prelude.{◌≡◌};
ghost use Rattle.qc_wire.specs.Reading.{Is, unread};
ghost use Rattle.qc_wire.specs.Replies as meant;
ghost use Rattle.qc_wire.specs.Replies.{payload_view, stream_view, begins_with};

use crate::header::{HEADER_LENGTH, MOST_PAYLOAD, payload_size};
use crate::reading::fields::Fields;
use crate::reading::payload::{Payload, Stream};
use crate::refusal::WireRefusal;

/// The payload in front, and the packets behind it. Where the bytes end in the payload, those that are there are its fields.
#[tactic(auto, unfolding(crate::specs::Replies::next_payload))]
pub fn next_payload(stream: Stream<'_>) -> Result<(Payload<'_>, Stream<'_>), WireRefusal>
    ensures { Is (λ x. (payload_view x.0, stream_view x.1)) result (meant.next_payload (stream_view stream.entry)) }
{
    let Stream { sequence, fields } = stream;
    let Fields { at, left } = fields;
    let size = payload_size(left);
    if size > MOST_PAYLOAD {
        return Err(WireRefusal::BadByte((at + 2) as u64));
    }
    let [_, _, _, found, behind @ ..] = left else {
        return Err(WireRefusal::Truncated((at + left.len()) as u64));
    };
    if *found != sequence {
        return Err(WireRefusal::BadSequence {
            found: *found,
            wanted: sequence,
        });
    }
    let (there, behind) = behind.split_at(size.min(behind.len()));
    let payload = Payload {
        fields: Fields {
            at: at + HEADER_LENGTH,
            left: there,
        },
        size,
    };
    let stream = Stream {
        sequence: sequence.wrapping_add(1),
        fields: Fields {
            at: at + HEADER_LENGTH + there.len(),
            left: behind,
        },
    };
    Ok((payload, stream))
}

/// A payload that was read up to here has no byte more, by its header and in fact.
#[tactic(auto, unfolding(crate::specs::Replies::complete))]
pub fn complete(payload: Payload<'_>, rest: Fields<'_>) -> Result<(), WireRefusal>
    ensures { Is (λ x. x) result (meant.complete (payload_view payload.entry) (unread rest.entry)) }
{
    if !rest.left.is_empty() {
        return Err(WireRefusal::Trailing(rest.at as u64));
    }
    if payload.fields.left.len() < payload.size {
        return Err(WireRefusal::Truncated(rest.at as u64));
    }
    Ok(())
}

/// Whether the bytes begin with this one.
pub fn begins_with(byte: u8, bytes: &[u8]) -> bool
    ensures { result ≡ begins_with byte bytes.now }
{
    bytes.first() == Some(&byte)
}
