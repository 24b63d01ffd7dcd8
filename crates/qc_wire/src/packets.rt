//! Bytes cut into packets.

ghost use Rattle.std.specs.Prelude.{◌≡◌, ◌+◌, ◌<◌, ◌^◌, length};
ghost use Rattle.qc_wire.specs.Packets.{packet_in_front, behind_front, next_packet, seen, seen_next};

use crate::header::{HEADER_LENGTH, MOST_PAYLOAD, payload_size};
use crate::refusal::WireRefusal;
use std::marker::Model;

/// A packet, whose payload is borrowed.
#[derive(Clone, Copy, Debug)]
pub struct Packet<'a> {
    /// Its sequence number: 0 of a command, and from 1 on modulo 256 in a reply.
    pub sequence: u8,
    /// Its payload, at most 16,777,214 bytes.
    pub payload: &'a [u8],
}

/// Bytes that are cut into packets, one after another. Contracts see what is left to cut, and its place.
#[derive(Drop)]
pub struct Packets<'a> {
    at: u64,
    left: &'a [u8],
}

impl<'a> Model for Packets<'a> {
    ghost use Rattle.std.specs.Prelude.{◌+◌, ◌<◌, ◌^◌, length};
    ghost use Rattle.qc_wire.specs.Places.{Unread};

    ghost Value = { Unread };

    ghost view = { λ p. record { at = p.at; left = p.left.now } };

    ghost invariant = { λ p. p.at + length p.left.now < 2 ^ 64 };
}

impl<'a> Packets<'a> {
    /// These bytes, of which none is cut yet.
    pub fn new(bytes: &'a [u8]) -> Packets<'a>
        ensures { result ≡ record { at = 0; left = bytes.now } }
    {
        Packets { at: 0, left: bytes }
    }

    /// The next packet, whatever its sequence number, or why the bytes that are left don't begin with one. None at the end of the bytes, and
    /// after a refusal.
    ///
    /// Refused are, at a place counted from the first of the bytes that `new` was given: `BadByte`, the third byte of a length above 16,777,214, before
    /// anything else; `Truncated`, the end of the bytes, where they lack a part of the header or of the payload. The cost is constant.
    pub fn next(&mut self) -> Option<Result<Packet<'a>, WireRefusal>>
        ensures packet { seen_next result ≡ next_packet self.old }
        ensures left { self.new ≡ behind_front self.old }
    {
        if self.left.is_empty() {
            return None;
        }
        let bytes = self.left;
        let first = first_packet(self.at, bytes);
        let taken = match first {
            Ok(packet) => HEADER_LENGTH + packet.payload.len(),
            Err(_) => bytes.len(),
        };
        self.at += taken as u64;
        self.left = &bytes[taken..];
        Some(first)
    }
}

/// The packet in front of bytes, the first of which stands at a place.
fn first_packet<'a>(at: u64, bytes: &'a [u8]) -> Result<Packet<'a>, WireRefusal>
    requires { at + length bytes.now < 2 ^ 64 }
    ensures { seen result ≡ packet_in_front (record { at = at; left = bytes.now }) }
{
    let length = payload_size(bytes);
    if length > MOST_PAYLOAD {
        return Err(WireRefusal::BadByte(at + 2));
    }
    if bytes.len() < HEADER_LENGTH + length {
        return Err(WireRefusal::Truncated(at + bytes.len() as u64));
    }
    Ok(Packet {
        sequence: bytes[3],
        payload: &bytes[HEADER_LENGTH..HEADER_LENGTH + length],
    })
}
