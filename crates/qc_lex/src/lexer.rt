//! All tokens of a text.

ghost use Rattle.std.specs.Prelude.{◌≡◌, ◌<◌, ◌^◌, length};
ghost use Rattle.qc_types.specs.Answers.{Gives};
ghost use Rattle.qc_lex.specs.Seen.{meant};

use crate::front::{Front, front_of};
use crate::token::{LexRefusal, Token, Tokens};
use qc_types::Or;
use std::alloc::Global;

/// The tokens of a text, with ANSI quotes on or off, or the first refusal by its place.
///
/// White space and comments stand between tokens and are none: `#` to the end of the line, two dashes before white space or the text's end
/// to the end of the line, and `/*` to `*/`. Only the tokens take memory; the time is linear in the text.
pub fn tokens(alloc: Global, text: &[u8], ansi: bool) -> Result<Tokens, Or<LexRefusal>>
    requires { length text.now < 2 ^ 32 }
    ensures { Gives (λ ts. ts) (λ e. e) result (meant text.now ansi) }
{
    let mut tokens = Tokens::new(alloc);
    let mut rest = text;
    let mut at: u32 = 0;
    loop {
        match front_of(rest, ansi) {
            Front::Ends => return Ok(tokens),
            Front::Skips(bytes) => {
                at += bytes as u32;
                rest = &rest[bytes..];
            }
            Front::Gives(bytes, kind) => {
                let to = at + bytes as u32;
                tokens.push(Token { kind, from: at, to })?;
                at = to;
                rest = &rest[bytes..];
            }
            Front::Faults(fault) => return Err(Or::Other(fault.at(at))),
        }
    }
}
