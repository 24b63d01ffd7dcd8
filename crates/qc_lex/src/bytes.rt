//! Classes of bytes, and how many of a class stand in front.

ghost use Rattle.std.specs.Prelude.{◌≡◌, ◌==◌, not, length, take, take_while, bytes_eq};
ghost use Rattle.qc_sql.specs.Tokens.{is_space, is_digit, begins_word, goes_on_word, is_dashed, line_bytes};

/// Whether a byte is white space: 09 to 0D, or 20.
pub fn is_space(byte: u8) -> bool
    ensures { result ≡ is_space byte }
{
    byte == b' ' || (9 <= byte && byte <= 13)
}

/// Whether a byte is a digit of ASCII.
pub fn is_digit(byte: u8) -> bool
    ensures { result ≡ is_digit byte }
{
    b'0' <= byte && byte <= b'9'
}

/// Whether a byte is a letter or `_`. Each byte from 80 on is a letter.
pub fn begins_word(byte: u8) -> bool
    ensures { result ≡ begins_word byte }
{
    (b'A' <= byte && byte <= b'Z') || (b'a' <= byte && byte <= b'z') || 128 <= byte || byte == b'_'
}

/// Whether a byte is a letter, `_`, a digit or `$`.
pub fn goes_on_word(byte: u8) -> bool
    ensures { result ≡ goes_on_word byte }
{
    begins_word(byte) || is_digit(byte) || byte == b'$'
}

/// How many bytes of a word stand in front. Linear in their number.
pub fn word_bytes(text: &[u8]) -> usize
    ensures { result ≡ length (take_while goes_on_word text.now) }
{
    text.iter().take_while(|byte| goes_on_word(**byte)).count()
}

/// How many digits stand in front. Linear in their number.
pub fn digits(text: &[u8]) -> usize
    ensures { result ≡ length (take_while is_digit text.now) }
{
    text.iter().take_while(|byte| is_digit(**byte)).count()
}

/// How many bytes stand in front of the line's end. Linear in their number.
pub fn line_bytes(text: &[u8]) -> usize
    ensures { result ≡ line_bytes text.now }
{
    text.iter().take_while(|byte| **byte != b'\n').count()
}

/// Whether a comment of two dashes begins: behind them stands white space, or nothing.
pub fn is_dashed(text: &[u8]) -> bool
    ensures { result ≡ is_dashed text.now }
{
    match text {
        [a, b] => *a == b'-' && *b == b'-',
        [a, b, c, ..] => *a == b'-' && *b == b'-' && is_space(*c),
        _ => false,
    }
}

/// Whether a text begins with these bytes. Linear in their number.
pub fn begins_with(text: &[u8], front: &[u8]) -> bool
    ensures { result ≡ bytes_eq (take (length front.now) text.now) front.now }
{
    front.len() <= text.len() && &text[..front.len()] == front
}
