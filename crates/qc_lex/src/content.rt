//! What the bytes of a token mean.

ghost use Rattle.std.specs.Prelude.{◌≤◌, ◌-◌, length, take, drop, ◌≡◌, false, true, IfOk};
ghost use Rattle.qc_lex.specs.Pieces.{inside};

use crate::quoted::{Quotes, unquoted};
use crate::token::Token;
use qc_types::{NoMemory, Text};
use std::alloc::Global;

/// The bytes of a token, borrowed from its text. Those of a word are the word, in the case in which it is written. Constant time.
pub fn token_bytes(text: &[u8], token: Token) -> &[u8]
    requires order { token.from ≤ token.to }
    requires within { token.to ≤ length text.now }
    ensures { result.now ≡ take (token.to - token.from) (drop token.from text.now) }
{
    &text[token.from as usize..token.to as usize]
}

/// The name between the quotes of a quoted name's bytes: a doubled quote means one. None where no quote closes.
/// Linear in the bytes. The only error is want of memory.
pub fn quoted_name(alloc: Global, token: &[u8]) -> Result<Option<Text>, NoMemory>
    ensures { IfOk result (λ name. name ≡ inside false token.now) }
{
    between_quotes(alloc, token, false)
}

/// The bytes that a text between quotes means: a doubled quote means one, and a backslash escapes the byte behind it. None where no quote closes.
/// Linear in the bytes. The only error is want of memory.
pub fn quoted_text(alloc: Global, token: &[u8]) -> Result<Option<Text>, NoMemory>
    ensures { IfOk result (λ text. text ≡ inside true token.now) }
{
    between_quotes(alloc, token, true)
}

/// What the bytes between a token's quotes mean, with escapes or without. None where no quote closes.
fn between_quotes(alloc: Global, token: &[u8], escapes: bool) -> Result<Option<Text>, NoMemory>
    ensures { IfOk result (λ meant. meant ≡ inside escapes token.now) }
{
    match token {
        [] => Ok(None),
        [quote, behind @ ..] => unquoted(
            alloc,
            Quotes {
                quote: *quote,
                escapes,
            },
            behind,
        ),
    }
}
