//! SET, SHOW and the statements of one or two words.

ghost use Rattle.std.specs.Prelude.{◌≡◌};
ghost use Rattle.qc_sql.specs.Reading as meant;
ghost use Rattle.qc_sql.specs.Grammar as rule;
ghost use Rattle.qc_parse.specs.Cursors.{unread, Takes, Reads};

use crate::cursor::Cursor;
use crate::definitions::refuse_any;
use crate::halt::{Halt, unsupported};
use crate::lists::{beside, followed};
use crate::names::{any_word, at_number, at_text, name, number, or_empty, text};
use qc_lex::{Ahead, Lexeme, is_same_word, quoted_text};
use qc_sql::statements::{SetValue, Setting, Statement};
use qc_types::{Or, Text};
use std::alloc::Global;

#[tactic(auto, unfolding(qc_sql::specs::Grammar::use_database))]
pub fn use_database(alloc: Global, cursor: &mut Cursor<'_>) -> Result<Statement, Or<Halt>>
    ensures { Reads (λ x. x) result (unread cursor.new) (rule.use_database (unread cursor.old)) }
{
    cursor.word(b"USE")?;
    Ok(Statement::UseDb(name(alloc, cursor)?))
}

#[tactic(auto, unfolding(qc_sql::specs::Grammar::start_transaction))]
pub fn start_transaction(cursor: &mut Cursor<'_>) -> Result<Statement, Halt>
    ensures { Takes (λ x. x) result (unread cursor.new) (rule.start_transaction (unread cursor.old)) }
{
    cursor.word(b"START")?;
    cursor.word(b"TRANSACTION")?;
    Ok(Statement::Begin)
}

#[tactic(auto, unfolding(qc_sql::specs::Grammar::flush))]
pub fn flush(cursor: &mut Cursor<'_>) -> Result<Statement, Halt>
    ensures { Takes (λ x. x) result (unread cursor.new) (rule.flush (unread cursor.old)) }
{
    cursor.word(b"FLUSH")?;
    if cursor.at_word(b"TABLES") {
        cursor.word(b"TABLES")?;
        return Ok(Statement::FlushTables);
    }
    cursor.word(b"QUERY")?;
    cursor.word(b"CACHE")?;
    Ok(Statement::FlushCache)
}

#[tactic(auto, unfolding(qc_sql::specs::Grammar::reset))]
pub fn reset(cursor: &mut Cursor<'_>) -> Result<Statement, Halt>
    ensures { Takes (λ x. x) result (unread cursor.new) (rule.reset (unread cursor.old)) }
{
    cursor.word(b"RESET")?;
    cursor.word(b"QUERY")?;
    cursor.word(b"CACHE")?;
    Ok(Statement::ResetCache)
}

/// The text that SHOW STATUS wants: Qcache%.
fn pattern(alloc: Global, cursor: &mut Cursor<'_>) -> Result<(), Or<Halt>>
    ensures { Reads (λ x. x) result (unread cursor.new) (rule.pattern (unread cursor.old)) }
{
    let Ahead::Token {
        what: Lexeme::Text(quoted),
        ..
    } = cursor.ahead
    else {
        return Err(Or::Other(Halt::Unexpected));
    };
    let pattern = or_empty(alloc, quoted_text(alloc, quoted)?);
    if pattern.bytes() != b"Qcache%".as_slice() {
        return Err(Or::Other(Halt::Unexpected));
    }
    cursor.pass();
    Ok(())
}

#[tactic(auto, unfolding(qc_sql::specs::Grammar::show_status))]
fn show_status(alloc: Global, cursor: &mut Cursor<'_>) -> Result<Statement, Or<Halt>>
    ensures { Reads (λ x. x) result (unread cursor.new) (rule.show_status (unread cursor.old)) }
{
    cursor.word(b"SHOW")?;
    cursor.passed(b"GLOBAL");
    cursor.word(b"STATUS")?;
    cursor.word(b"LIKE")?;
    pattern(alloc, cursor)?;
    Ok(Statement::ShowStatus)
}

/// SHOW STATUS; SHOW of anything else isn't supported.
#[tactic(auto, unfolding(qc_sql::specs::Grammar::show))]
pub fn show(alloc: Global, cursor: &mut Cursor<'_>) -> Result<Statement, Or<Halt>>
    ensures { Reads (λ x. x) result (unread cursor.new) (rule.show (unread cursor.old)) }
{
    match show_status(alloc, cursor) {
        Err(Or::Other(Halt::Unexpected)) => refuse_any(alloc, cursor, b"SHOW"),
        other => other,
    }
}

/// What SET sets a variable to.
#[tactic(auto, unfolding(qc_sql::specs::Grammar::set_value))]
fn set_value(alloc: Global, cursor: &mut Cursor<'_>) -> Result<SetValue, Or<Halt>>
    ensures { Reads (λ x. x) result (unread cursor.new) (rule.set_value (unread cursor.old)) }
{
    if at_number(cursor) {
        return Ok(SetValue::Number(number(cursor)?));
    }
    if at_text(cursor) {
        return Ok(SetValue::Str(text(alloc, cursor)?));
    }
    if cursor.at_word(b"DEFAULT") {
        cursor.word(b"DEFAULT")?;
        return Ok(SetValue::Default);
    }
    let word = any_word(cursor)?;
    Ok(SetValue::Word(Text::of(alloc, word)?))
}

/// What stands behind a variable's name.
#[tactic(auto, unfolding(qc_sql::specs::Grammar::set_variable))]
fn set_variable(
    alloc: Global,
    cursor: &mut Cursor<'_>,
    variable: &[u8],
) -> Result<Setting, Or<Halt>>
    ensures { Reads (λ x. x) result (unread cursor.new) (rule.set_variable variable.now (unread cursor.old)) }
{
    cursor.sign(b"=")?;
    let value = set_value(alloc, cursor)?;
    let (value, variable) = beside(value, Text::of(alloc, variable))?;
    Ok(Setting::Variable(variable, value))
}

/// What SET sets, by its first word; a word with `=` behind it is a variable's name, whatever word it is.
#[tactic(auto, unfolding(qc_sql::specs::Grammar::setting_of))]
fn setting_of(alloc: Global, cursor: &mut Cursor<'_>, word: &[u8]) -> Result<Setting, Or<Halt>>
    ensures { Reads (λ x. x) result (unread cursor.new) (rule.setting_of word.now (unread cursor.old)) }
{
    if cursor.at_sign(b"=") {
        return set_variable(alloc, cursor, word);
    }
    if is_same_word(word, b"NAMES") {
        let charset = any_word(cursor)?;
        return Ok(Setting::Names(Text::of(alloc, charset)?));
    }
    if is_same_word(word, b"SESSION") {
        let variable = any_word(cursor)?;
        return set_variable(alloc, cursor, variable);
    }
    if is_same_word(word, b"GLOBAL") {
        return refuse_any(alloc, cursor, b"SET GLOBAL");
    }
    if is_same_word(word, b"TRANSACTION") {
        return refuse_any(alloc, cursor, b"SET TRANSACTION");
    }
    Err(Or::Other(Halt::Unexpected))
}

/// SET of one thing; a second one isn't supported.
#[tactic(auto, unfolding(qc_sql::specs::Grammar::set))]
pub fn set(alloc: Global, cursor: &mut Cursor<'_>) -> Result<Statement, Or<Halt>>
    ensures { Reads (λ x. x) result (unread cursor.new) (rule.set (unread cursor.old)) }
{
    cursor.word(b"SET")?;
    let word = any_word(cursor)?;
    let setting = setting_of(alloc, cursor, word)?;
    let setting = followed(setting, no_second(alloc, cursor))?;
    Ok(Statement::Set(setting))
}

/// No comma stands behind what SET sets.
#[tactic(auto, unfolding(qc_sql::specs::Grammar::no_second))]
fn no_second(alloc: Global, cursor: &Cursor<'_>) -> Result<(), Or<Halt>>
    ensures { Reads (λ x. x) result (unread cursor.now) (rule.no_second (unread cursor.now)) }
{
    if cursor.at_sign(b",") {
        return Err(unsupported(alloc, b"SET"));
    }
    Ok(())
}
