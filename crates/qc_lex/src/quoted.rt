//! What stands between quotes: a quoted name, or a text with its escapes.

ghost use Rattle.std.specs.Prelude.{◌≡◌, ◌≤◌, length, drop, IfOk, MatchOption};
ghost use Rattle.std.specs.Option.{option_map};
ghost use Rattle.qc_sql.specs.Tokens.{Content, with_front, escaped};
ghost use Rattle.qc_lex.specs.Pieces.{content, with_piece, taken, measured, TakesSome, IsPair};

use qc_types::{NoMemory, Text};
use std::alloc::Global;

/// How the bytes between two quotes are read.
#[derive(Clone, Copy)]
pub struct Quotes {
    /// The quote at both ends.
    pub quote: u8,
    /// Whether a backslash escapes the byte behind it.
    pub escapes: bool,
}

/// What stands in front, between quotes.
#[derive(Clone, Copy)]
pub enum Piece {
    /// The text ends before a closing quote.
    Open,
    /// The closing quote.
    Closes,
    /// So many bytes that mean one.
    One(usize, u8),
    /// A backslash and a byte that both stay.
    Both(u8),
}

/// The piece in front. A quote that is doubled means one.
#[tactic(auto, using(crate::proofs::Pieces::pair_takes))]
fn first_piece(quotes: Quotes, text: &[u8]) -> Piece
    ensures meant { content quotes.escapes quotes.quote text.now
        ≡ with_piece result (content quotes.escapes quotes.quote (drop (taken result) text.now)) }
    ensures some { TakesSome result (length text.now) }
{
    match text {
        [] => Piece::Open,
        [first] => {
            if *first == quotes.quote {
                Piece::Closes
            } else {
                Piece::Open
            }
        }
        [first, second, ..] => {
            if *first == quotes.quote {
                if *second == quotes.quote {
                    return Piece::One(2, *first);
                }
                return Piece::Closes;
            }
            if quotes.escapes && *first == b'\\' {
                return escape(*second);
            }
            Piece::One(1, *first)
        }
    }
}

/// What a backslash and this byte mean.
fn escape(byte: u8) -> Piece
    ensures meant { (behind : Content) → with_piece result behind ≡ with_front 2 (escaped byte) behind }
    ensures pair { IsPair result }
{
    match byte {
        b'0' => Piece::One(2, 0),
        b'b' => Piece::One(2, 8),
        b'n' => Piece::One(2, b'\n'),
        b'r' => Piece::One(2, b'\r'),
        b't' => Piece::One(2, b'\t'),
        b'Z' => Piece::One(2, 26),
        b'%' | b'_' => Piece::Both(byte),
        _ => Piece::One(2, byte),
    }
}

/// How many bytes stand up to the closing quote, with it, and how many bytes they mean, or none where no quote closes. Linear in the first.
pub fn measure(quotes: Quotes, text: &[u8]) -> Option<(usize, usize)>
    ensures meant { result ≡ measured (content quotes.escapes quotes.quote text.now) }
    ensures within { MatchOption result (Unit {0}) (λ m. m.0 ≤ length text.now) }
{
    let mut rest = text;
    let mut bytes: usize = 0;
    let mut meant: usize = 0;
    loop {
        match first_piece(quotes, rest) {
            Piece::Open => return None,
            Piece::Closes => return Some((bytes + 1, meant)),
            Piece::One(taken, _) => {
                bytes += taken;
                meant += 1;
                rest = &rest[taken..];
            }
            Piece::Both(_) => {
                bytes += 2;
                meant += 2;
                rest = &rest[2..];
            }
        }
    }
}

/// The bytes that stand up to the closing quote, or none where no quote closes. Linear in their number.
pub fn unquoted(alloc: Global, quotes: Quotes, text: &[u8]) -> Result<Option<Text>, NoMemory>
    ensures { IfOk result (λ found. found ≡ option_map (λ c. c.1) (content quotes.escapes quotes.quote text.now)) }
{
    let mut rest = text;
    let mut bytes = Vec::new(alloc);
    loop {
        match first_piece(quotes, rest) {
            Piece::Open => return Ok(None),
            Piece::Closes => return Ok(Some(Text::from_vec(bytes))),
            Piece::One(taken, byte) => {
                bytes.push(byte)?;
                rest = &rest[taken..];
            }
            Piece::Both(byte) => {
                bytes.push(b'\\')?;
                bytes.push(byte)?;
                rest = &rest[2..];
            }
        }
    }
}
