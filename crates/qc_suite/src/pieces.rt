//! Pieces of a line: `~64*NOT ~` is a text 64 times, `~1..9*(#),~` is a text once for each number, which stands in place of `#`, and `~1..9/(#)~` likewise, each
//! in a line; `~x0dff~` is some bytes, and `~~` is the sign itself. A sign that begins none of these stands for itself.

use hex::FromHexError;
use qc_types::NoMemory;
use std::alloc::Global;

/// The bytes that each line of a text means.
pub fn expanded_lines(alloc: Global, text: &str) -> Result<Vec<Vec<u8>>, NoMemory> {
    let mut lines = Vec::new(alloc);
    for line in text.split('\n') {
        lines.push(expanded(alloc, line)?)?;
    }
    Ok(lines)
}

/// The bytes that a line means. Linear in them.
fn expanded(alloc: Global, line: &str) -> Result<Vec<u8>, NoMemory> {
    let mut out = Vec::new(alloc);
    let signs = line.split('~').count().wrapping_sub(1);
    // Whether the sign in front of the part is that of a piece which has been put.
    let mut is_used = true;
    for (place, part) in line.split('~').enumerate() {
        if is_used {
            out.extend_from_slice(part.as_bytes())?;
            is_used = false;
        } else if place < signs && put_piece(alloc, part, &mut out)? {
            is_used = true;
        } else {
            out.push(b'~')?;
            out.extend_from_slice(part.as_bytes())?;
        }
    }
    Ok(out)
}

/// Puts what a piece means, which stands between two signs. False where it is none.
fn put_piece(alloc: Global, piece: &str, out: &mut Vec<u8>) -> Result<bool, NoMemory> {
    if piece.is_empty() {
        out.push(b'~')?;
        return Ok(true);
    }
    if let Some(digits) = piece.strip_prefix('x') {
        return put_hex(alloc, digits, out);
    }
    let (count, text) = piece.split_once('*').unwrap_or(("", ""));
    if let Ok(count) = count.parse::<u64>() {
        put_times(text, count, out)?;
        return Ok(true);
    }
    for (sign, between) in [('*', ""), ('/', "\n")] {
        let (range, text) = piece.split_once(sign).unwrap_or(("", ""));
        if let Some((first, last)) = range_of(range) {
            for number in first..last.saturating_add(1) {
                let between = if number == first { "" } else { between };
                out.extend_from_slice(between.as_bytes())?;
                put_numbered(alloc, text, number, out)?;
            }
            return Ok(true);
        }
    }
    Ok(false)
}

fn put_times(text: &str, count: u64, out: &mut Vec<u8>) -> Result<(), NoMemory> {
    for _ in 0..count {
        out.extend_from_slice(text.as_bytes())?;
    }
    Ok(())
}

fn put_hex(alloc: Global, digits: &str, out: &mut Vec<u8>) -> Result<bool, NoMemory> {
    match hex::decode(alloc, digits) {
        Ok(bytes) => {
            out.extend_from_slice(&bytes)?;
            Ok(true)
        }
        Err(FromHexError::OutOfMemory) => Err(NoMemory),
        Err(_) => Ok(false),
    }
}

/// Puts a text with a number in place of each `#`.
fn put_numbered(alloc: Global, text: &str, number: u64, out: &mut Vec<u8>) -> Result<(), NoMemory> {
    let digits = number.to_string(alloc)?;
    for (place, part) in text.split('#').enumerate() {
        if place > 0 {
            out.extend_from_slice(digits.as_bytes())?;
        }
        out.extend_from_slice(part.as_bytes())?;
    }
    Ok(())
}

/// The ends of a range, or a number as both, where it isn't upside down.
pub fn range_of(text: &str) -> Option<(u64, u64)> {
    let (first, last) = text.split_once("..").unwrap_or((text, text));
    let first = first.parse::<u64>().ok()?;
    let last = last.parse::<u64>().ok()?;
    if first <= last {
        Some((first, last))
    } else {
        None
    }
}
