//! The bytes of a key determine what it is made of.

ghost use Rattle.qc_key.specs.Laws.{HasOneSpelling};

/// A law, with no code: two keys have the same bytes only where their flags, their database names and their texts are the same. So an entry that
/// is found by the bytes of its key is one of the same statement under the same flags and the same current database.
pub fn one_spelling()
    ensures { HasOneSpelling }
{}
