//! Bytes that stand in a line of text.

use crate::fault::Fault;
use std::io::Write;

/// Where a text stands.
#[derive(Clone, Copy, Debug, PartialEq, Eq)]
pub enum Within {
    /// In a line of plain text.
    Line,
    /// In a page of HTML, as text or as the value of an attribute in double quotes.
    Html,
}

/// Puts bytes in one line. Characters of UTF-8 stand as they are. Control characters, and bytes that aren't UTF-8, stand as `\x` and two
/// hexadecimal digits each. Linear in the bytes.
pub fn put_plain<W: Write>(out: &mut W, within: Within, bytes: &[u8]) -> Result<(), Fault> {
    for chunk in bytes.utf8_chunks() {
        put_characters(out, within, chunk.valid())?;
        for byte in chunk.invalid() {
            write!(out, "\\x{byte:02x}")?;
        }
    }
    Ok(())
}

fn put_characters<W: Write>(out: &mut W, within: Within, text: &str) -> Result<(), Fault> {
    for character in text.chars() {
        put_character(out, within, character)?;
    }
    Ok(())
}

fn put_character<W: Write>(out: &mut W, within: Within, character: char) -> Result<(), Fault> {
    let code = u32::from(character);
    match (within, character) {
        _ if character.is_control() => write!(out, "\\x{code:02x}")?,
        (Within::Html, '<') => out.write_all(b"&lt;")?,
        (Within::Html, '>') => out.write_all(b"&gt;")?,
        (Within::Html, '&') => out.write_all(b"&amp;")?,
        (Within::Html, '"') => out.write_all(b"&quot;")?,
        (Within::Html, _) if is_noncharacter(code) => write!(out, "\\u{code:x}")?,
        _ => write!(out, "{character}")?,
    }
    Ok(())
}

/// Whether a code is one that no page may hold: its last 16 bits are FFFE or FFFF, or it lies from FDD0 to FDEF.
fn is_noncharacter(code: u32) -> bool {
    code & 0xfffe == 0xfffe || (0xfdd0..=0xfdef).contains(&code)
}

/// Puts so many bytes of one kind.
pub fn put_repeated<W: Write>(out: &mut W, byte: u8, count: usize) -> Result<(), Fault> {
    let piece = [byte; 64];
    for _ in 0..count / 64 {
        out.write_all(&piece)?;
    }
    out.write_all(&piece[..count % 64])?;
    Ok(())
}

/// Puts a number and what it counts.
pub fn put_count<W: Write>(out: &mut W, count: u64, one: &str, many: &str) -> Result<(), Fault> {
    let word = if count == 1 { one } else { many };
    write!(out, "{count} {word}")?;
    Ok(())
}
