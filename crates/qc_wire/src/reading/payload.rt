//! Where a reader stands among the packets of a reply.

use crate::reading::fields::Fields;

/// The payload of a packet: the bytes of it that are there, and how many it has by its header.
#[derive(Clone, Copy)]
pub struct Payload<'a> {
    pub fields: Fields<'a>,
    pub size: usize,
}

/// Packets that are still to be read, and the sequence number of the next.
#[derive(Clone, Copy)]
pub struct Stream<'a> {
    pub sequence: u8,
    pub fields: Fields<'a>,
}
