//! What stands at the front of a text.

ghost use Rattle.std.specs.Prelude.{◌≡◌, ◌≤◌, length, drop, take, ◌∷◌, [], take_while, codes, bytes_eq, MatchOption};
ghost use Rattle.std.specs.List.{list_any};
ghost use Rattle.qc_sql.specs.Tokens as meaning;
ghost use Rattle.qc_sql.specs.Tokens.{name_token, text_token, word_token, number_token, sign_token, quoted, quoted_text, goes_on_word, is_digit, two_signs, comment_bytes};
ghost use Rattle.qc_lex.specs.Seen.{refusal_of};
ghost use Rattle.qc_lex.specs.Fronts.{view, shown, fault_of};

use crate::bytes::{
    begins_with, begins_word, digits, is_dashed, is_digit, is_space, line_bytes, word_bytes,
};
use crate::number::number_value;
use crate::quoted::{Quotes, measure};
use crate::token::{LexRefusal, TokenKind};

/// The most bytes of a word or of a name.
const LONGEST_NAME: usize = 64;

/// The most bytes that a text means.
const LONGEST_TEXT: usize = 65_535;

/// Why no token stands in front.
#[derive(Clone, Copy)]
pub enum Fault {
    BadByte,
    OpenQuote,
    OpenComment,
    NumberTooLarge,
    TextTooLong,
    LongName,
    Executable,
}

impl Fault {
    /// The refusal at this place.
    pub fn at(self, place: u32) -> LexRefusal
        ensures { result ≡ refusal_of (fault_of self place) }
    {
        match self {
            Fault::BadByte => LexRefusal::BadByte(place),
            Fault::OpenQuote => LexRefusal::OpenQuote(place),
            Fault::OpenComment => LexRefusal::OpenComment(place),
            Fault::NumberTooLarge => LexRefusal::NumberTooLarge(place),
            Fault::TextTooLong => LexRefusal::TextTooLong(place),
            Fault::LongName => LexRefusal::LongName(place),
            Fault::Executable => LexRefusal::Executable(place),
        }
    }
}

/// What stands at the front of a text.
#[derive(Clone, Copy)]
pub enum Front {
    /// Nothing.
    Ends,
    /// White space or a comment of so many bytes.
    Skips(usize),
    /// A token of so many bytes.
    Gives(usize, TokenKind),
    /// What is no token.
    Faults(Fault),
}

/// What stands in front of a text, with ANSI quotes on or off. Linear in the bytes of what stands there.
pub fn front_of(text: &[u8], ansi: bool) -> Front
    ensures { view result ≡ shown (meaning.front ansi text.now) }
{
    let [first, behind @ ..] = text else {
        return Front::Ends;
    };
    let first = *first;
    if is_space(first) {
        return Front::Skips(1);
    }
    if first == b'#' || is_dashed(text) {
        return Front::Skips(line_bytes(text));
    }
    if begins_with(text, b"/*!") {
        return Front::Faults(Fault::Executable);
    }
    if begins_with(text, b"/*") {
        return comment(text);
    }
    if begins_word(first) {
        return word(text);
    }
    if first == b'`' || (ansi && first == b'"') {
        return quoted_name(first, behind);
    }
    if first == b'\'' || first == b'"' {
        return quoted_text(first, behind);
    }
    if is_digit(first) {
        return number(text);
    }
    sign(text)
}

/// A comment with its two first bytes.
fn comment(text: &[u8]) -> Front
    ensures { view result ≡ shown (meaning.comment (comment_bytes (drop 2 text.now))) }
{
    let behind = text.get(2..).unwrap_or(&[]);
    match comment_bytes(behind) {
        Some(bytes) => Front::Skips(bytes + 2),
        None => Front::Faults(Fault::OpenComment),
    }
}

/// How many bytes stand up to the end of a comment, with it, or none where it has no end. Linear in these bytes.
fn comment_bytes(text: &[u8]) -> Option<usize>
    ensures meant { result ≡ comment_bytes text.now }
    ensures within { MatchOption result (Unit {0}) (λ bytes. bytes ≤ length text.now) }
{
    let mut rest = text;
    let mut bytes: usize = 0;
    while let [first, second, ..] = rest {
        if *first == b'*' && *second == b'/' {
            return Some(bytes + 2);
        }
        bytes += 1;
        rest = &rest[1..];
    }
    None
}

/// A word, whose first byte begins one.
fn word(text: &[u8]) -> Front
    ensures { view result ≡ shown (word_token (take_while goes_on_word text.now)) }
{
    let bytes = word_bytes(text);
    if bytes > LONGEST_NAME {
        return Front::Faults(Fault::LongName);
    }
    Front::Gives(bytes, TokenKind::Word)
}

/// A quoted name, without the quote in front.
#[tactic(auto, using(crate::proofs::Measures::name_by_measure))]
fn quoted_name(quote: u8, text: &[u8]) -> Front
    ensures { view result ≡ shown (name_token (quoted quote text.now)) }
{
    let quotes = Quotes {
        quote,
        escapes: false,
    };
    match measure(quotes, text) {
        None => Front::Faults(Fault::OpenQuote),
        Some((_, 0)) => Front::Faults(Fault::BadByte),
        Some((_, meant)) if meant > LONGEST_NAME => Front::Faults(Fault::LongName),
        Some((bytes, _)) => Front::Gives(bytes + 1, TokenKind::QuotedName),
    }
}

/// A text between quotes, without the quote in front.
#[tactic(auto, using(crate::proofs::Measures::text_by_measure))]
fn quoted_text(quote: u8, text: &[u8]) -> Front
    ensures { view result ≡ shown (text_token (quoted_text quote text.now)) }
{
    let quotes = Quotes {
        quote,
        escapes: true,
    };
    match measure(quotes, text) {
        None => Front::Faults(Fault::OpenQuote),
        Some((_, meant)) if meant > LONGEST_TEXT => Front::Faults(Fault::TextTooLong),
        Some((bytes, _)) => Front::Gives(bytes + 1, TokenKind::Text),
    }
}

/// A number, whose first byte is a digit.
fn number(text: &[u8]) -> Front
    ensures { view result ≡ shown (number_token (take_while is_digit text.now)) }
{
    let bytes = digits(text);
    match number_value(&text[..bytes]) {
        Some(_) => Front::Gives(bytes, TokenKind::Number),
        None => Front::Faults(Fault::NumberTooLarge),
    }
}

/// A sign: the longest one.
fn sign(text: &[u8]) -> Front
    ensures { view result ≡ shown (sign_token text.now) }
{
    if begins_with_two_signs(text) {
        return Front::Gives(2, TokenKind::Sign);
    }
    if begins_with_a_sign(text) {
        return Front::Gives(1, TokenKind::Sign);
    }
    Front::Faults(Fault::BadByte)
}

/// Whether a sign of two bytes stands in front.
fn begins_with_two_signs(text: &[u8]) -> bool
    ensures { result ≡ list_any (bytes_eq (take 2 text.now)) two_signs }
{
    begins_with(text, b"<>")
        || begins_with(text, b"!=")
        || begins_with(text, b"<=")
        || begins_with(text, b">=")
}

/// The signs of one byte.
const SIGNS: &[u8] = b"(),.;*=<>+-/";

/// Whether a sign of one byte stands in front.
fn begins_with_a_sign(text: &[u8]) -> bool
    ensures { result ≡ list_any (λ b. bytes_eq (take 1 text.now) (b ∷ [])) (codes "(),.;*=<>+-/") }
{
    begins_with_one_of(text, SIGNS)
}

/// Whether a text begins with one of these bytes. Linear in their number.
fn begins_with_one_of(text: &[u8], bytes: &[u8]) -> bool
    ensures { result ≡ list_any (λ b. bytes_eq (take 1 text.now) (b ∷ [])) bytes.now }
{
    for byte in bytes {
        if begins_with(text, &[*byte]) {
            return true;
        }
    }
    false
}
