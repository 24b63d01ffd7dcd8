//! Fields of a line, each put at the end of a text. After want of memory a part of a field may stand there.

ghost use Rattle.std.specs.Prelude.{◌≡◌, ◌++◌, ◌∷◌, [], decimal, OnOk};
ghost use Rattle.std.specs.Fmt.{signed_decimal};
ghost use Rattle.qc_model.specs.ReportText.{hex as hex_text, table_text, lines, fields};
ghost use Rattle.qc_script.specs.ReportParts.{spaced};

use crate::reports::digits::put_digits_of;
use itoa::Buffer;
use qc_types::{NoMemory, TableName, Text};
use std::alloc::Global;

/// Puts a space and these bytes.
pub fn put_word(word: &[u8], out: &mut Text) -> Result<(), NoMemory>
    ensures { OnOk result (out.new ≡ out.old ++ 32 ∷ word.now) }
{
    out.extend(b" ")?;
    out.extend(word)
}

/// Puts the digits of a number.
pub fn put_digits(alloc: Global, number: u64, out: &mut Text) -> Result<(), NoMemory>
    ensures { OnOk result (out.new ≡ out.old ++ decimal number) }
{
    out.extend(Buffer::new().format(number).as_bytes())
}

/// Puts a space and the digits of a number.
pub fn put_number(alloc: Global, number: u64, out: &mut Text) -> Result<(), NoMemory>
    ensures { OnOk result (out.new ≡ out.old ++ 32 ∷ decimal number) }
{
    out.extend(b" ")?;
    put_digits(alloc, number, out)
}

/// Puts two numbers, a space before each.
pub fn put_pair(alloc: Global, first: u64, second: u64, out: &mut Text) -> Result<(), NoMemory>
    ensures { OnOk result (out.new ≡ out.old ++ spaced (decimal first ∷ decimal second ∷ [])) }
{
    put_number(alloc, first, out)?;
    put_number(alloc, second, out)
}

/// Puts a word and two numbers, a space before each.
pub fn put_word_of_pair(
    alloc: Global,
    word: &[u8],
    first: u64,
    second: u64,
    out: &mut Text,
) -> Result<(), NoMemory>
    ensures { OnOk result (out.new ≡ out.old ++ spaced (word.now ∷ decimal first ∷ decimal second ∷ [])) }
{
    put_word(word, out)?;
    put_pair(alloc, first, second, out)
}

/// Puts the digits of a number, with a minus where it is below 0.
pub fn put_signed(alloc: Global, number: i64, out: &mut Text) -> Result<(), NoMemory>
    ensures { OnOk result (out.new ≡ out.old ++ signed_decimal number) }
{
    out.extend(Buffer::new().format(number).as_bytes())
}

/// Puts two lower-case hexadecimal digits a byte, or `-` for no bytes. It takes time linear in the bytes.
#[tactic(auto, using(crate::proofs::HexDigits::hex_is))]
pub fn put_hex(alloc: Global, bytes: &[u8], out: &mut Text) -> Result<(), NoMemory>
    ensures { OnOk result (out.new ≡ out.old ++ hex_text bytes.now) }
{
    if bytes.is_empty() {
        out.extend(b"-")
    } else {
        put_digits_of(bytes, out)
    }
}

/// Puts the name of a table: its database and its own name, in hexadecimal digits.
pub fn put_table(alloc: Global, table: &TableName, out: &mut Text) -> Result<(), NoMemory>
    ensures { OnOk result (out.new ≡ out.old ++ table_text table.now) }
{
    put_hex(alloc, table.db.bytes(), out)?;
    out.extend(b".")?;
    put_hex(alloc, table.name.bytes(), out)
}

/// Puts a space and bytes in hexadecimal digits, or `-` for no bytes.
pub fn put_bytes(alloc: Global, bytes: &[u8], out: &mut Text) -> Result<(), NoMemory>
    ensures { OnOk result (out.new ≡ out.old ++ 32 ∷ hex_text bytes.now) }
{
    out.extend(b" ")?;
    put_hex(alloc, bytes, out)
}

/// Puts a space and a word, and a space and the name of a table.
pub fn put_word_of_table(
    alloc: Global,
    word: &[u8],
    table: &TableName,
    out: &mut Text,
) -> Result<(), NoMemory>
    ensures { OnOk result (out.new ≡ out.old ++ spaced (word.now ∷ table_text table.now ∷ [])) }
{
    put_word(word, out)?;
    out.extend(b" ")?;
    put_table(alloc, table, out)
}

/// Puts a line of a word and a number.
pub fn put_count(alloc: Global, word: &[u8], count: usize, out: &mut Text) -> Result<(), NoMemory>
    ensures { OnOk result (out.new ≡ out.old ++ lines (fields (word.now ∷ decimal count ∷ []) ∷ [])) }
{
    out.extend(word)?;
    put_number(alloc, count as u64, out)?;
    out.extend(b"\n")
}
