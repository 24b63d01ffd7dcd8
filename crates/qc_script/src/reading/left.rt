//! What is left of a report's text.

ghost use Rattle.std.specs.Prelude.{◌<◌, ◌+◌, ◌^◌, length};

/// Lines that are still to be read, and the number of the first of them.
#[derive(Clone, Copy)]
pub struct Lines<'a> {
    pub number: u32,
    pub left: &'a [u8],
    ghost counted: { number + length left.now < 2 ^ 32 },
}
