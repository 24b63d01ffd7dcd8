//! Tokens by their kinds and spans, and why a text has none.

use qc_types::OwnedList;

/// What kind of token stands in a span.
#[derive(Clone, Copy, Debug, PartialEq, Eq)]
pub enum TokenKind {
    /// A keyword, or a name without quotes.
    Word,
    /// A name between backquotes, or between double quotes where ANSI quotes are on.
    QuotedName,
    /// A text between quotes.
    Text,
    /// Digits.
    Number,
    /// One or two signs.
    Sign,
}

/// A token: its kind, the offset of its first byte in the text, and the offset behind its last byte.
#[derive(Clone, Copy, Debug, PartialEq, Eq)]
pub struct Token {
    pub kind: TokenKind,
    pub from: u32,
    pub to: u32,
}

/// Tokens in the order of the text.
pub type Tokens = OwnedList<Token>;

/// Why a text has no tokens, with the offset of the first byte of what is refused.
#[derive(Clone, Copy, Debug, PartialEq, Eq)]
pub enum LexRefusal {
    /// A byte that begins no token, or a quoted name of no bytes.
    BadByte(u32),
    /// A text or a quoted name without its closing quote.
    OpenQuote(u32),
    /// A comment without its end.
    OpenComment(u32),
    /// A number of 2^64 or more.
    NumberTooLarge(u32),
    /// A text of more than 65,535 bytes, where doubled quotes and escapes are one.
    TextTooLong(u32),
    /// A word or a quoted name of more than 64 bytes.
    LongName(u32),
    /// A comment that MySQL would execute.
    Executable(u32),
}
