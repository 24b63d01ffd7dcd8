//! Laws on sizes.

ghost use Rattle.std.specs.Prelude.{IsTrue};
ghost use Rattle.qc_sql.specs.Database.{empty_database};
ghost use Rattle.qc_laws.specs.sizes.Replies.{is_bounded_database};
ghost use Rattle.qc_laws.specs.sizes.Laws.{ChangeErrorsFit, ChangesAreBounded, DatabasesStayBounded, ErrorPayloadsFit, ParsedNamesAreShort, ReplyPayloadsFit, RowPayloadsFit, SelectErrorsFit, SelectRowsFit, SelectTextsFit, TokensAreShort};

/// A law, with no code: the tokens of a text are short. A word and a quoted name have at most 64 bytes, and a text has at most 65,535.
pub fn tokens_are_short()
    ensures short { TokensAreShort }
{}

/// A law, with no code: each name in the tree of a text has at most 64 bytes, each text literal at most 65,535, the words of a select's item have
/// at most 255, and a select has `*` or an item.
pub fn parsed_names_are_short()
    ensures short { ParsedNamesAreShort }
{}

/// A law, with no code: where the names of a select are short, and so are those of the columns of the database and the name of the current
/// database, what it gives is of bounded size. An error has a message of at most 512 bytes and a state of 5. A result has 1 to 64 columns,
/// with names of at most 64 bytes, or 255 in the result, and each row has a value for each column, whose text has at most 65,535 bytes.
pub fn select_replies_fit()
    ensures errors { SelectErrorsFit }
    ensures rows { SelectRowsFit }
{}

/// A law, with no code: what a statement of short names stores in a bounded database is bounded, and an error that refuses it is of the size
/// of a select's.
pub fn changes_are_bounded()
    ensures operations { ChangesAreBounded }
    ensures errors { ChangeErrorsFit }
{}

/// A law, with no code: a bounded database is bounded after operations that store only what is bounded. The empty database is.
pub fn databases_stay_bounded()
    ensures stay { DatabasesStayBounded }
    ensures empty { IsTrue (is_bounded_database empty_database) }
{}

/// A law, with no code: an error, columns and rows of those sizes each fit a packet, and so does each payload of the reply that they make.
pub fn payloads_fit()
    ensures errors { ErrorPayloadsFit }
    ensures rows { RowPayloadsFit }
    ensures reply { ReplyPayloadsFit }
{}

/// A law, with no code: whatever SELECT a text is, in a bounded database, with a short name of the current one, each payload of its answer fits
/// a packet, of its rows or of its error.
pub fn select_texts_fit()
    ensures texts { SelectTextsFit }
{}
