//! Words of a statement.

ghost use Rattle.std.specs.Prelude.{◌≡◌, IfOk};
ghost use Rattle.qc_sql.specs.Rules.{capital, in_capitals};

use qc_types::{NoMemory, Text};
use std::alloc::Global;

/// A word in capitals: its ASCII letters, and all other bytes as they are. Fails where memory runs out. Linear in the word.
pub fn in_capitals(alloc: Global, word: &[u8]) -> Result<Text, NoMemory>
    ensures { IfOk result (λ capitals. capitals ≡ in_capitals word.now) }
{
    let mut capitals = Vec::new(alloc);
    for byte in word {
        capitals.push(capital(*byte))?;
    }
    Ok(Text::from_vec(capitals))
}

/// An ASCII letter in capitals, and any other byte as it is.
fn capital(byte: u8) -> u8
    ensures { result ≡ capital byte }
{
    byte.to_ascii_uppercase()
}
