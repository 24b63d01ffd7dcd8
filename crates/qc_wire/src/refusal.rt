//! Why bytes are no packets.

use qc_types::Or;

/// Why bytes are not the packets that they should be: the first fault from the left. A place is an offset in bytes from the first of them.
#[derive(Clone, Copy, Debug, PartialEq, Eq)]
pub enum WireRefusal {
    /// More bytes are wanted at this place, where the bytes end, or where the payload ends by its header.
    Truncated(u64),
    /// A packet has another sequence number than it should have.
    BadSequence {
        /// The number in its header.
        found: u8,
        /// One more than that of the packet in front of it, modulo 256, or 1 of the first.
        wanted: u8,
    },
    /// A length-encoded integer begins here that has a shorter form.
    NotMinimal(u64),
    /// A payload, or the whole reply, is complete in front of this place, and further bytes stand there.
    Trailing(u64),
    /// This byte can't stand here.
    BadByte(u64),
}

impl From<WireRefusal> for Or<WireRefusal> {
    ghost use Rattle.std.specs.Prelude.{◌≡◌};
    ghost use Rattle.qc_types.specs.declared.memory.Or.TheVariants.{Other};

    ghost from_gives = { λ r e. e ≡ Other r };

    fn from(refusal: WireRefusal) -> Or<WireRefusal> {
        Or::Other(refusal)
    }
}
