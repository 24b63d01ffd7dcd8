//! A text without the white space around it.

ghost use Rattle.std.specs.Prelude.{◌≡◌, reverse};
ghost use Rattle.qc_sql.specs.Tokens.{is_space, is_trailing, without_front, trimmed};

use crate::bytes::is_space;

/// A text without the white space at its front, and without the white space and semicolons at its end.
/// Linear in what is cut; nothing is copied.
#[tactic(auto, unfolding(qc_sql::specs::Tokens::trimmed))]
pub fn trimmed(text: &[u8]) -> &[u8]
    ensures { result.now ≡ trimmed text.now }
{
    without_trailing(without_spaces(text))
}

/// A text without the white space at its front.
fn without_spaces(text: &[u8]) -> &[u8]
    ensures { result.now ≡ without_front is_space text.now }
{
    let mut rest = text;
    while let [first, behind @ ..] = rest {
        if !is_space(*first) {
            break;
        }
        rest = behind;
    }
    rest
}

/// A text without the white space and semicolons at its end.
fn without_trailing(text: &[u8]) -> &[u8]
    ensures { result.now ≡ reverse (without_front is_trailing (reverse text.now)) }
{
    let mut rest = text;
    while let [before @ .., last] = rest {
        if !(is_space(*last) || *last == b';') {
            break;
        }
        rest = before;
    }
    rest
}
