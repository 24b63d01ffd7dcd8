//! Words in any case.

ghost use Rattle.std.specs.Prelude.{◌≡◌, find, map, option_map};
ghost use Rattle.std.specs.List.{list_any};
ghost use Rattle.qc_sql.specs.Rules.{same_word};

/// Whether two words are one but for the case of their ASCII letters. Linear in the words.
pub fn is_same_word(word: &[u8], other: &[u8]) -> bool
    ensures { result ≡ same_word word.now other.now }
{
    word.eq_ignore_ascii_case(other)
}

/// Whether a word is one of these, in any case. Linear in the number of these and in the word.
pub fn is_one_of(word: &[u8], names: &[&str]) -> bool
    ensures { result ≡ list_any (same_word word.now) (map (λ name. name.now) names.now) }
{
    for name in names {
        if is_same_word(word, name.as_bytes()) {
            return true;
        }
    }
    false
}

/// The first of these names that is this word, in any case. Linear in the number of names and in the word.
pub fn named_in(word: &[u8], names: &[&'static str]) -> Option<&'static str>
    ensures { option_map (λ name. name.now) result ≡ find (same_word word.now) (map (λ name. name.now) names.now) }
{
    for name in names {
        if is_same_word(word, name.as_bytes()) {
            return Some(name);
        }
    }
    None
}
