//! Hexadecimal digits, a block of bytes at a time.

ghost use Rattle.std.specs.Prelude.{◌≡◌, ◌<◌, ◌≤◌, ◌++◌, false, length, OnOk};
ghost use Rattle.std.specs.Fmt.{digit_glyph};
ghost use Rattle.qc_model.specs.ReportText.{hex_digits};

use qc_types::{NoMemory, Text};

/// The bytes of a block.
const BLOCK: usize = 64;

/// Puts two lower-case hexadecimal digits a byte. It takes time linear in the bytes.
pub fn put_digits_of(bytes: &[u8], out: &mut Text) -> Result<(), NoMemory>
    ensures { OnOk result (out.new ≡ out.old ++ hex_digits bytes.now) }
{
    let mut rest = bytes;
    while !rest.is_empty() {
        let (block, behind) = rest.split_at(rest.len().min(BLOCK));
        put_block(block, out)?;
        rest = behind;
    }
    Ok(())
}

/// Puts the digits of at most a block.
#[tactic(auto, using(crate::proofs::HexDigits::front_digits))]
fn put_block(bytes: &[u8], out: &mut Text) -> Result<(), NoMemory>
    requires { length bytes.now ≤ 64 }
    ensures { OnOk result (out.new ≡ out.old ++ hex_digits bytes.now) }
{
    let mut block = [0; BLOCK];
    block[..bytes.len()].copy_from_slice(bytes);
    out.extend(&digits_of(&block)[..2 * bytes.len()])
}

/// The digits of a block, each made by the same few steps, so that the compiler makes many at once.
fn digits_of(block: &[u8; 64]) -> [u8; 128]
    ensures { result ≡ hex_digits block.now }
{
    let mut digits = [0; 2 * BLOCK];
    'bytes: for i in 0..BLOCK {
        let byte = block[i];
        digits[2 * i] = digit_of(byte >> 4);
        digits[2 * i + 1] = digit_of(byte & 0x0f);
    }
    digits
}

/// The digit of a number below 16.
#[inline(always)]
fn digit_of(number: u8) -> u8
    requires { number < 16 }
    ensures { result ≡ digit_glyph false number }
{
    if number < 10 {
        b'0' + number
    } else {
        b'a' - 10 + number
    }
}
