//! Tokens one after another, each with its bytes.

ghost use Rattle.std.specs.Prelude.{◌≡◌, ◌<◌, ◌^◌, length};
ghost use Rattle.qc_sql.specs.Tokens.{lexed};
ghost use Rattle.qc_lex.specs.Ahead.{said, left, with_ahead, IsAtFront, GoesBehind, HasBytes, Borrows, lexeme_of};

use crate::front::{Front, front_of};
use crate::number::number_value;
use crate::place::Lexer;
use crate::token::{LexRefusal, TokenKind};

/// What a token is, with its bytes in the text.
#[derive(Clone, Copy)]
pub enum Lexeme<'a> {
    /// A keyword, or a name without quotes.
    Word(&'a [u8]),
    /// A quoted name, with its quotes.
    QuotedName(&'a [u8]),
    /// A text, with its quotes.
    Text(&'a [u8]),
    /// The value of digits.
    Number(u64),
    /// One or two signs.
    Sign(&'a [u8]),
}

/// What stands next in a text.
#[derive(Clone, Copy)]
pub enum Ahead<'a> {
    /// A token, with the offset of its first byte in the text and the offset behind its last byte.
    Token {
        what: Lexeme<'a>,
        from: u32,
        to: u32,
    },
    /// The end of the text.
    End,
    /// What is no token.
    Refused(LexRefusal),
}

impl<'a> Lexer<'a> {
    /// Stands at the front of a text.
    #[tactic(auto, unfolding(qc_sql::specs::Tokens::lexed))]
    pub fn new(text: &'a [u8], ansi: bool) -> Lexer<'a>
        requires { length text.now < 2 ^ 32 }
        ensures ahead { left result ≡ lexed text.now ansi }
        ensures stands { IsAtFront text.now ansi result }
    {
        Lexer {
            ansi,
            at: 0,
            rest: text,
        }
    }

    /// Takes the next token, and stands behind it then. At the end, or where a byte begins no token, the lexer stays where it is.
    /// Linear in the bytes up to the end of the token; all tokens of a text together are linear in the text.
    pub fn next(&mut self) -> Ahead<'a>
        ensures ahead { left self.old ≡ with_ahead result (left self.new) }
        ensures bytes { HasBytes result self.old }
        ensures stands { GoesBehind result self.old self.new }
    {
        let ansi = self.ansi;
        let mut at = self.at;
        let mut rest = self.rest;
        'skips: loop {
            match front_of(rest, ansi) {
                Front::Ends => return Ahead::End,
                Front::Faults(fault) => return Ahead::Refused(fault.at(at)),
                Front::Skips(bytes) => {
                    at += bytes as u32;
                    rest = &rest[bytes..];
                }
                Front::Gives(bytes, kind) => {
                    let from = at;
                    let to = at + bytes as u32;
                    let what = said_by(kind, &rest[..bytes]);
                    *self = Lexer {
                        ansi,
                        at: to,
                        rest: &rest[bytes..],
                    };
                    return Ahead::Token { what, from, to };
                }
            }
        }
    }
}

/// What a token of this kind is. Linear in its bytes.
fn said_by(kind: TokenKind, bytes: &[u8]) -> Lexeme<'_>
    ensures says { said result ≡ lexeme_of kind bytes.now }
    ensures borrowed { Borrows result bytes.now }
{
    match kind {
        TokenKind::Word => Lexeme::Word(bytes),
        TokenKind::QuotedName => Lexeme::QuotedName(bytes),
        TokenKind::Text => Lexeme::Text(bytes),
        // The digits of a token spell a number of 64 bits.
        TokenKind::Number => Lexeme::Number(number_value(bytes).unwrap_or(0)),
        TokenKind::Sign => Lexeme::Sign(bytes),
    }
}
