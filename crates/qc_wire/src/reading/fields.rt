//! Where a reader stands in a payload.

ghost use Rattle.std.specs.Prelude.{◌+◌, ◌<◌, ◌^◌, length};

/// Bytes of a payload that are still to be read, and the place of the first of them in the reply.
#[derive(Clone, Copy)]
pub struct Fields<'a> {
    pub at: usize,
    pub left: &'a [u8],
    ghost fits: { at + length left.now < 2 ^ 63 },
}
