//! A packet that is being written at the end of a text.

ghost use Rattle.std.specs.Prelude.{◌≡◌, ◌≤◌, ◌+◌, ◌++◌, ◌∷◌, [], length, take, drop, IfOk, OnOk, OnErr};
ghost use Rattle.qc_sql.specs.Packets.{packet, most_payload, encoded_cell};
ghost use Rattle.qc_wire.specs.Cells.{cell_text, held};

use crate::encoding::{NULL_CELL, push_string};
use crate::header::HEADER_LENGTH;
use itoa::Buffer;
use qc_sql::cells::Cell;
use qc_types::{NoMemory, Text};
use std::alloc::Global;
use std::marker::Model;
use std::mem;

/// A packet that is being written at the end of a text, which it has until it ends. Its payload goes behind room for its header, so each byte is written
/// once. Contracts see what stood in the text, and the payload so far.
#[derive(Drop)]
pub struct OpenPacket {
    bytes: Vec<u8>,
    from: usize,
}

impl Model for OpenPacket {
    ghost use Rattle.std.specs.Prelude.{◌+◌, ◌≤◌, take, drop, vec_len};
    ghost use Rattle.qc_wire.specs.OpenPackets.{Opened};

    ghost Value = { Opened };

    ghost view = { λ p. record { front = take p.from p.bytes.items; payload = drop (p.from + 4) p.bytes.items } };

    ghost invariant = { λ p. p.from + 4 ≤ vec_len p.bytes };
}

impl OpenPacket {
    /// Begins a packet at the end of a text, which is empty until the packet ends. Where memory runs out, the text stays as it was. Constant time, but for the
    /// text's growth.
    #[tactic(auto, using(crate::proofs::OpenPackets::front_stays, crate::proofs::OpenPackets::payload_grows))]
    pub fn begin(alloc: Global, out: &mut Text) -> Result<OpenPacket, NoMemory>
        ensures ok { IfOk result (λ p. p ≡ record { front = out.old; payload = [] }) }
        ensures err { OnErr result (out.new ≡ out.old) }
    {
        let mut bytes = mem::replace(out, Text::from_vec(Vec::new(alloc))).into_vec();
        let from = bytes.len();
        if bytes.extend_from_slice(&[0; HEADER_LENGTH]).is_err() {
            *out = Text::from_vec(bytes);
            return Err(NoMemory);
        }
        Ok(OpenPacket { bytes, from })
    }

    /// Appends a byte to the payload.
    #[tactic(auto, using(crate::proofs::OpenPackets::front_stays, crate::proofs::OpenPackets::payload_grows))]
    pub(crate) fn push(&mut self, byte: u8) -> Result<(), NoMemory>
        ensures front { self.new.front ≡ self.old.front }
        ensures ok { OnOk result (self.new.payload ≡ self.old.payload ++ byte ∷ []) }
    {
        self.bytes.push(byte)?;
        Ok(())
    }

    /// Appends bytes to the payload.
    #[tactic(auto, using(crate::proofs::OpenPackets::front_stays, crate::proofs::OpenPackets::payload_grows))]
    pub(crate) fn extend(&mut self, bytes: &[u8]) -> Result<(), NoMemory>
        ensures front { self.new.front ≡ self.old.front }
        ensures ok { OnOk result (self.new.payload ≡ self.old.payload ++ bytes.now) }
    {
        self.bytes.extend_from_slice(bytes)?;
        Ok(())
    }

    /// Appends a cell of a row (ProtocolText::ResultsetRow): a length-encoded string, or the byte 0xfb for NULL. Linear in the cell's bytes, and takes no memory but
    /// for them.
    pub fn put_cell(&mut self, cell: Cell<'_>) -> Result<(), NoMemory>
        ensures front { self.new.front ≡ self.old.front }
        ensures ok { OnOk result (self.new.payload ≡ self.old.payload ++ encoded_cell (cell_text (held cell.entry))) }
    {
        match cell {
            Cell::Null => self.push(NULL_CELL),
            Cell::Int(number) => push_string(self, Buffer::new().format(number).as_bytes()),
            Cell::Wide(number) => push_string(self, Buffer::new().format(number).as_bytes()),
            Cell::Str(bytes) => push_string(self, bytes),
        }
    }

    /// Ends the packet, numbered so, once its payload was written, of at most 16,777,214 bytes: the text has the packet behind what stood in it. Where memory
    /// lacked for the payload, the text is as it was. Constant time.
    pub fn end(
        self,
        sequence: u8,
        written: Result<(), NoMemory>,
        out: &mut Text,
    ) -> Result<(), NoMemory>
        requires { OnOk written (length self.payload ≤ most_payload) }
        ensures result { result ≡ written }
        ensures ok { OnOk result (out.new ≡ self.front ++ packet sequence self.payload) }
        ensures err { OnErr result (out.new ≡ self.front) }
    {
        let OpenPacket { mut bytes, from } = self;
        match written {
            Ok(()) => put_header(&mut bytes, from, sequence),
            Err(NoMemory) => bytes.truncate(from),
        }
        *out = Text::from_vec(bytes);
        written
    }
}

/// Writes a header in front of a payload: its length in three bytes, the lowest first, and the sequence number.
#[tactic(auto, using(crate::proofs::OpenPackets::header_set), unfolding(qc_sql::specs::Packets::packet))]
fn put_header(bytes: &mut Vec<u8>, from: usize, sequence: u8)
    requires room { from + 4 ≤ length bytes.old.items }
    requires short { length (drop (from + 4) bytes.old.items) ≤ most_payload }
    ensures { bytes.new.items ≡ take from bytes.old.items ++ packet sequence (drop (from + 4) bytes.old.items) }
{
    let length = (bytes.len() - from - HEADER_LENGTH) as u32;
    let [low, middle, high, _] = length.to_le_bytes();
    bytes[from] = low;
    bytes[from + 1] = middle;
    bytes[from + 2] = high;
    bytes[from + 3] = sequence;
}
