//! The header of a packet: the length of its payload in three bytes, the low one first, and its sequence number.

ghost use Rattle.std.specs.Prelude.{◌≡◌, ◌<◌, ◌^◌};
ghost use Rattle.qc_sql.specs.Commands.{length_at};

use byteorder::{ByteOrder, LittleEndian};

/// The bytes of a header.
pub const HEADER_LENGTH: usize = 4;

/// The most bytes of payload that one packet carries alone: the protocol has a longer payload go on in a further packet.
pub const MOST_PAYLOAD: usize = 16_777_214;

/// The size of a payload by the first three bytes of its header; bytes that lack count as 0.
pub fn payload_size(bytes: &[u8]) -> usize
    ensures size { result ≡ length_at bytes.now }
    ensures bound { result < 2 ^ 24 }
{
    match bytes {
        [low, middle, high, ..] => LittleEndian::read_u24(&[*low, *middle, *high]) as usize,
        [low, middle] => LittleEndian::read_u16(&[*low, *middle]) as usize,
        [low] => usize::from(*low),
        [] => 0,
    }
}
