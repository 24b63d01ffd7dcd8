//! A whole statement.

ghost use Rattle.std.specs.Prelude.{◌≡◌, ◌<◌, ◌^◌, length};
ghost use Rattle.qc_types.specs.Answers.{Gives};
ghost use Rattle.qc_sql.specs.Grammar as rule;
ghost use Rattle.qc_sql.specs.Grammar.{meaning};
ghost use Rattle.qc_parse.specs.Cursors.{unread, Takes, Reads};
ghost use Rattle.qc_parse.specs.Refusals.{as_meant, SaysWord, SaysFault, SaysOfLexer};

use crate::changes::{delete, insert, truncate, update};
use crate::cursor::Cursor;
use crate::definitions::{at_token, create, dropped};
use crate::halt::{Halt, halted, unsupported};
use crate::lists::followed;
use crate::refusal::ParseRefusal;
use crate::select::{look, select};
use crate::settings::{flush, reset, set, show, start_transaction, use_database};
use crate::words::is_unsupported;
use qc_lex::{Ahead, LexRefusal, Lexeme, is_same_word};
use qc_sql::statements::Statement;
use qc_sql::words::in_capitals;
use qc_types::{NoMemory, Or, Text};
use std::alloc::Global;

/// BEGIN, COMMIT or ROLLBACK.
#[tactic(auto, unfolding(qc_sql::specs::Grammar::one_word))]
fn one_word(cursor: &mut Cursor<'_>) -> Result<Statement, Halt>
    ensures { Takes (λ x. x) result (unread cursor.new) (rule.one_word (unread cursor.old)) }
{
    if cursor.passed(b"BEGIN") {
        return Ok(Statement::Begin);
    }
    if cursor.passed(b"COMMIT") {
        return Ok(Statement::Commit);
    }
    if cursor.passed(b"ROLLBACK") {
        return Ok(Statement::Rollback);
    }
    Err(Halt::Unexpected)
}

/// A statement about a session or about the cache.
#[tactic(auto, unfolding(qc_sql::specs::Grammar::other_statement))]
fn other_statement(alloc: Global, cursor: &mut Cursor<'_>) -> Result<Statement, Or<Halt>>
    ensures { Reads (λ x. x) result (unread cursor.new) (rule.other_statement (unread cursor.old)) }
{
    if cursor.at_word(b"USE") {
        return use_database(alloc, cursor);
    }
    if cursor.at_word(b"START") {
        return Ok(start_transaction(cursor)?);
    }
    if cursor.at_word(b"FLUSH") {
        return Ok(flush(cursor)?);
    }
    if cursor.at_word(b"RESET") {
        return Ok(reset(cursor)?);
    }
    if cursor.at_word(b"SHOW") {
        return show(alloc, cursor);
    }
    if cursor.at_word(b"SET") {
        return set(alloc, cursor);
    }
    Ok(one_word(cursor)?)
}

/// A statement, by its first word.
#[tactic(auto, unfolding(qc_sql::specs::Grammar::any_statement))]
fn any_statement(alloc: Global, cursor: &mut Cursor<'_>) -> Result<Statement, Or<Halt>>
    ensures { Reads (λ x. x) result (unread cursor.new) (rule.any_statement (unread cursor.old)) }
{
    if cursor.at_word(b"SELECT") {
        return select(alloc, cursor);
    }
    if cursor.at_word(b"INSERT") {
        return insert(alloc, cursor);
    }
    if cursor.at_word(b"UPDATE") {
        return update(alloc, cursor);
    }
    if cursor.at_word(b"DELETE") {
        return delete(alloc, cursor);
    }
    if cursor.at_word(b"TRUNCATE") {
        return truncate(alloc, cursor);
    }
    if cursor.at_word(b"CREATE") {
        return create(alloc, cursor);
    }
    if cursor.at_word(b"DROP") {
        return dropped(alloc, cursor);
    }
    other_statement(alloc, cursor)
}

/// The end of the text.
#[tactic(auto, unfolding(qc_sql::specs::Grammar::at_end))]
fn at_end(cursor: &Cursor<'_>) -> Result<(), Halt>
    ensures { Takes (λ x. x) result (unread cursor.now) (rule.at_end (unread cursor.now)) }
{
    if at_token(cursor) {
        return Err(Halt::Unexpected);
    }
    look(cursor)
}

/// A statement with nothing behind it.
#[tactic(auto, unfolding(qc_sql::specs::Grammar::whole))]
fn whole(alloc: Global, cursor: &mut Cursor<'_>) -> Result<Statement, Or<Halt>>
    ensures { Reads (λ x. x) result (unread cursor.new) (rule.whole (unread cursor.old)) }
{
    let statement = any_statement(alloc, cursor)?;
    Ok(followed(statement, at_end(cursor))?)
}

/// Why nothing goes on with what is next: it may be a word that isn't supported, in a SELECT or not.
fn unsupported_ahead(alloc: Global, cursor: &Cursor<'_>, in_select: bool) -> Or<Halt>
    ensures { SaysWord (rule.unsupported_at in_select (unread cursor.now)) result }
{
    let Ahead::Token {
        what: Lexeme::Word(word),
        ..
    } = cursor.ahead
    else {
        return Or::Other(Halt::Unexpected);
    };
    if is_unsupported(word) || (in_select && is_same_word(word, b"INTO")) {
        return halted(in_capitals(alloc, word));
    }
    let mut behind = *cursor;
    behind.pass();
    if is_same_word(word, b"LOCK") && behind.at_word(b"TABLES") {
        return unsupported(alloc, b"LOCK TABLES");
    }
    Or::Other(Halt::Unexpected)
}

/// A whole statement; some words aren't supported where nothing goes on with them.
#[tactic(auto, unfolding(qc_sql::specs::Grammar::any_text))]
fn any_text(alloc: Global, cursor: &mut Cursor<'_>) -> Result<Statement, Or<Halt>>
    ensures { Reads (λ x. x) result (unread cursor.new) (rule.any_text (unread cursor.old)) }
{
    let in_select = cursor.at_word(b"SELECT");
    match whole(alloc, cursor) {
        Err(Or::Other(Halt::Unexpected)) => Err(unsupported_ahead(alloc, cursor, in_select)),
        other => other,
    }
}

/// What the lexer's refusal says of a statement.
fn of_lexer(alloc: Global, refusal: LexRefusal) -> Or<ParseRefusal>
    ensures { SaysOfLexer refusal result }
{
    match refusal {
        LexRefusal::BadByte(at)
        | LexRefusal::OpenQuote(at)
        | LexRefusal::OpenComment(at)
        | LexRefusal::NumberTooLarge(at)
        | LexRefusal::TextTooLong(at)
        | LexRefusal::LongName(at) => Or::Other(ParseRefusal::Syntax(at)),
        LexRefusal::Executable(_) => match Text::of(alloc, b"executable comment") {
            Ok(what) => Or::Other(ParseRefusal::Unsupported(what)),
            Err(NoMemory) => Or::Memory,
        },
    }
}

/// The refusal of a text in which a reader stopped here.
fn refusal(alloc: Global, text: &[u8], cursor: &Cursor<'_>, halt: Halt) -> Or<ParseRefusal>
    requires { length text.now < 2 ^ 32 }
    ensures { SaysFault (length text.now) halt (unread cursor.now) result }
{
    match halt {
        Halt::Unsupported(what) => Or::Other(ParseRefusal::Unsupported(what)),
        Halt::TooManyTables => Or::Other(ParseRefusal::TooManyTables),
        Halt::Unexpected => match cursor.ahead {
            Ahead::Token { from, .. } => Or::Other(ParseRefusal::Syntax(from)),
            Ahead::End => Or::Other(ParseRefusal::Syntax(text.len() as u32)),
            Ahead::Refused(refusal) => of_lexer(alloc, refusal),
        },
    }
}

/// The statement that a trimmed text is, with ANSI quotes on or off, or why it is none. The grammar is that of docs/FORMATS.md.
///
/// The first fault by place is the answer: a token with which no text of the grammar goes on, or what is no token; a word that isn't supported
/// in its place is named. At most 64 brackets of a condition, NOTs and calls may be open at once, and FROM names at most eight tables.
/// Each token is read once, and once more where it is looked at from the token before. Time and memory are linear in the text.
#[tactic(auto, unfolding(qc_sql::specs::Grammar::meaning))]
pub fn parse(alloc: Global, text: &[u8], ansi: bool) -> Result<Statement, Or<ParseRefusal>>
    requires { length text.now < 2 ^ 32 }
    ensures { Gives (λ s. s) as_meant result (meaning text.now ansi) }
{
    let mut cursor = Cursor::new(text, ansi);
    match any_text(alloc, &mut cursor) {
        Ok(statement) => Ok(statement),
        Err(Or::Memory) => Err(Or::Memory),
        Err(Or::Other(halt)) => Err(refusal(alloc, text, &cursor, halt)),
    }
}
