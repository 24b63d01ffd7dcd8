//! Numbers and texts as the payloads of packets have them.

ghost use Rattle.std.specs.Prelude.{◌≡◌, ◌≤◌, ◌++◌, OnOk};
ghost use Rattle.std.specs.Int.{bytes_low_first};
ghost use Rattle.qc_sql.specs.Packets.{encoded_integer, encoded_string};

use crate::open_packet::OpenPacket;
use qc_types::NoMemory;

/// A cell of a row that is NULL.
pub const NULL_CELL: u8 = 0xfb;

/// Appends a length-encoded integer, in its shortest form.
#[tactic(auto, unfolding(qc_sql::specs::Packets::encoded_integer))]
pub(crate) fn push_integer(packet: &mut OpenPacket, n: u64) -> Result<(), NoMemory>
    ensures front { packet.new.front ≡ packet.old.front }
    ensures ok { OnOk result (packet.new.payload ≡ packet.old.payload ++ encoded_integer n) }
{
    if n < 251 {
        packet.push(n as u8)
    } else if n < 1 << 16 {
        packet.push(0xfc)?;
        push_low_first(packet, 2, n)
    } else if n < 1 << 24 {
        packet.push(0xfd)?;
        push_low_first(packet, 3, n)
    } else {
        packet.push(0xfe)?;
        push_low_first(packet, 8, n)
    }
}

/// Appends so many low bytes of a number, the lowest first.
#[tactic(auto, using(crate::proofs::LowFirst::low_bytes))]
pub(crate) fn push_low_first(packet: &mut OpenPacket, count: usize, n: u64) -> Result<(), NoMemory>
    requires { count ≤ 8 }
    ensures front { packet.new.front ≡ packet.old.front }
    ensures ok { OnOk result (packet.new.payload ≡ packet.old.payload ++ bytes_low_first 0 count n) }
{
    packet.extend(&n.to_le_bytes()[..count])
}

/// Appends a length-encoded string: its length, a length-encoded integer, and its bytes.
#[tactic(auto, unfolding(qc_sql::specs::Packets::encoded_string))]
pub(crate) fn push_string(packet: &mut OpenPacket, bytes: &[u8]) -> Result<(), NoMemory>
    ensures front { packet.new.front ≡ packet.old.front }
    ensures ok { OnOk result (packet.new.payload ≡ packet.old.payload ++ encoded_string bytes.now) }
{
    push_integer(packet, bytes.len() as u64)?;
    packet.extend(bytes)
}
