//! Where a lexer stands in a text.

ghost use Rattle.std.specs.Prelude.{◌+◌, ◌<◌, ◌^◌, length};

/// Where the tokens of a text are read on: with ANSI quotes on or off, at an offset, the bytes from there to the end.
#[derive(Clone, Copy)]
pub struct Lexer<'a> {
    pub ansi: bool,
    pub at: u32,
    pub rest: &'a [u8],
    ghost fits: { at + length rest.now < 2 ^ 32 },
}
