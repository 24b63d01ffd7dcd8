//! The head of a text: whether it is a SELECT, and what it says of the cache.

ghost use Rattle.std.specs.Prelude.{◌≡◌, ◌∷◌, None, MatchOption};
ghost use Rattle.qc_sql.specs.Grammar.{head_of};
ghost use Rattle.qc_sql.specs.Tokens.{Word};
ghost use Rattle.qc_lex.specs.Heads.{leading, lexemes_in};

use crate::front::{Front, front_of};
use crate::token::TokenKind;
use crate::word::is_same_word;
use qc_sql::statements::Head;

/// The head of a text. Only its first two tokens are read, and whatever follows them doesn't matter; words are taken in any case.
/// Linear in the bytes up to the end of these tokens.
pub fn head(text: &[u8]) -> Head
    ensures { result ≡ head_of text.now }
{
    let Some((first, behind)) = first_word(text) else {
        return Head::NotSelect;
    };
    if !is_same_word(b"SELECT", first) {
        return Head::NotSelect;
    }
    let Some((second, _)) = first_word(behind) else {
        return Head::Bare;
    };
    if is_same_word(b"SQL_CACHE", second) {
        return Head::Cache;
    }
    if is_same_word(b"SQL_NO_CACHE", second) {
        return Head::NoCache;
    }
    Head::Bare
}

/// The first token and what stands behind it, or none where the first token is no word, or there is none.
fn first_word(text: &[u8]) -> Option<(&[u8], &[u8])>
    ensures { MatchOption result (leading (lexemes_in text.now) ≡ None) (λ w. lexemes_in text.now ≡ Word w.0.now ∷ lexemes_in w.1.now) }
{
    let mut rest = text;
    loop {
        match front_of(rest, false) {
            Front::Skips(bytes) => rest = &rest[bytes..],
            Front::Gives(bytes, kind) => {
                let TokenKind::Word = kind else {
                    return None;
                };
                return Some((&rest[..bytes], &rest[bytes..]));
            }
            Front::Ends => return None,
            Front::Faults(_) => return None,
        }
    }
}
