//! Where tokens stand, and what they mean.

ghost use Rattle.std.specs.Prelude.{ℕ, Bool, List, length};
ghost use Rattle.qc_sql.specs.Tokens.{lexed};
ghost use Rattle.qc_lex.specs.Laws.{Rise, AllMean};

/// A law, with no code: the tokens of any text, up to its end or its first fault, stand one behind the other. Each has a byte or more, none
/// overlaps the one before it, and the last ends in the text. What a token is, is what the bytes of its span mean, whatever stands around them:
/// of a word and of a sign the bytes, of a number the value of its digits, below 2^64, of a quoted name and of a text what stands between the quotes.
pub fn tokens_stand_in_order()
    ensures spans { (text : List ℕ) (ansi : Bool) → Rise 0 (lexed text ansi).0 (length text) }
    ensures meanings { (text : List ℕ) (ansi : Bool) → AllMean text (lexed text ansi).0 }
{}
