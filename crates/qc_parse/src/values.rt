//! Values.

ghost use Rattle.std.specs.Prelude.{◌≡◌, false};
ghost use Rattle.qc_sql.specs.Reading as meant;
ghost use Rattle.qc_sql.specs.Grammar as rule;
ghost use Rattle.qc_parse.specs.Cursors.{unread, Takes, Reads};
ghost use Rattle.qc_parse.specs.Rests.{literal_or_column};

use crate::cursor::Cursor;
use crate::halt::{Halt, unsupported};
use crate::lists::{beside, closed, followed, open_bracket, too_deep, with_member};
use crate::literals::{at_literal, literal};
use crate::names::{any_word, column, ends_value};
use crate::words::{is_aggregate, is_known_call, is_reserved};
use qc_lex::{Ahead, Lexeme, is_same_word};
use qc_sql::statements::{ColumnName, Expr, Exprs};
use qc_types::{Boxed, Or, Text};
use std::alloc::Global;

/// Whether a call is next: a word that can be a name, with an opening bracket behind it, or DATABASE. One token more is looked at.
fn at_call(cursor: &Cursor<'_>) -> bool
    ensures { result ≡ rule.at_call (unread cursor.now) }
{
    let Ahead::Token {
        what: Lexeme::Word(word),
        ..
    } = cursor.ahead
    else {
        return false;
    };
    if is_same_word(b"DATABASE", word) {
        return true;
    }
    if is_reserved(word) {
        return false;
    }
    let mut behind = *cursor;
    behind.pass();
    behind.at_sign(b"(")
}

/// Whether an aggregate's word is next.
fn at_aggregate(cursor: &Cursor<'_>) -> bool
    ensures { result ≡ rule.at_aggregate (unread cursor.now) }
{
    match cursor.ahead {
        Ahead::Token {
            what: Lexeme::Word(word),
            ..
        } => is_aggregate(word),
        _ => false,
    }
}

/// The word of a call that is known, where aggregates may stand or not.
#[tactic(auto, unfolding(qc_sql::specs::Grammar::call_word))]
fn call_word<'a>(
    alloc: Global,
    cursor: &mut Cursor<'a>,
    aggregates: bool,
) -> Result<&'a [u8], Or<Halt>>
    ensures { Reads (λ x. x.now) result (unread cursor.new) (rule.call_word aggregates (unread cursor.old)) }
{
    if !aggregates && at_aggregate(cursor) {
        return Err(Or::Other(Halt::Unexpected));
    }
    let word = any_word(cursor)?;
    if !is_known_call(word) {
        return Err(unsupported(alloc, word));
    }
    Ok(word)
}

/// A literal or a column.
fn plain_value(alloc: Global, cursor: &mut Cursor<'_>) -> Result<Expr, Or<Halt>>
    ensures { Reads (λ x. x) result (unread cursor.new) (literal_or_column (unread cursor.old)) }
{
    if at_literal(cursor) {
        return Ok(Expr::Literal(literal(alloc, cursor)?));
    }
    Ok(Expr::Column(column(alloc, cursor)?))
}

/// A value in which at most `depth` calls are open at once; aggregates may stand in it or not.
#[cycle(values)]
pub fn value(
    alloc: Global,
    cursor: &mut Cursor<'_>,
    depth: u8,
    aggregates: bool,
) -> Result<Expr, Or<Halt>>
    ensures { Reads (λ x. x) result (unread cursor.new) (rule.value_at depth aggregates (unread cursor.old)) }
{
    if at_literal(cursor) || !at_call(cursor) {
        return plain_value(alloc, cursor);
    }
    let value = call(alloc, cursor, depth, aggregates)?;
    followed(value, ends_value(alloc, cursor))
}

/// A call, with which at most `depth` are open at once.
#[tactic(auto, unfolding(qc_sql::specs::Grammar::call_at))]
#[cycle(values)]
fn call(
    alloc: Global,
    cursor: &mut Cursor<'_>,
    depth: u8,
    aggregates: bool,
) -> Result<Expr, Or<Halt>>
    ensures { Reads (λ x. x) result (unread cursor.new) (rule.call_at depth aggregates (unread cursor.old)) }
{
    let word = call_word(alloc, cursor, aggregates)?;
    if depth == 0 {
        return too_deep(alloc, cursor);
    }
    call_behind(alloc, cursor, depth - 1, aggregates, word)
}

/// What follows a call's word, in which at most `depth` calls are open at once.
#[cycle(values)]
fn call_behind(
    alloc: Global,
    cursor: &mut Cursor<'_>,
    depth: u8,
    aggregates: bool,
    word: &[u8],
) -> Result<Expr, Or<Halt>>
    ensures { Reads (λ x. x) result (unread cursor.new) (rule.call_of (rule.value_at depth aggregates) (rule.value_at depth false) word.now (unread cursor.old)) }
{
    if is_same_word(word, b"LENGTH") {
        return length(alloc, cursor, depth, aggregates);
    }
    if is_same_word(word, b"CONCAT") {
        return concat(alloc, cursor, depth, aggregates);
    }
    if is_same_word(word, b"COUNT") {
        return count(alloc, cursor, depth);
    }
    if is_same_word(word, b"SUM") {
        return Ok(Expr::Sum(column_argument(alloc, cursor)?));
    }
    if is_same_word(word, b"MIN") {
        return Ok(Expr::Min(column_argument(alloc, cursor)?));
    }
    if is_same_word(word, b"MAX") {
        return Ok(Expr::Max(column_argument(alloc, cursor)?));
    }
    let arguments = arguments(alloc, cursor, depth, aggregates)?;
    let (arguments, word) = beside(arguments, Text::of(alloc, word))?;
    Ok(Expr::Call { word, arguments })
}

/// A column in brackets.
#[tactic(auto, unfolding(qc_sql::specs::Grammar::column_argument))]
fn column_argument(alloc: Global, cursor: &mut Cursor<'_>) -> Result<ColumnName, Or<Halt>>
    ensures { Reads (λ x. x) result (unread cursor.new) (rule.column_argument (unread cursor.old)) }
{
    open_bracket(alloc, cursor)?;
    let column = column(alloc, cursor)?;
    Ok(closed(cursor, column)?)
}

/// LENGTH, behind its word.
#[cycle(values)]
fn length(
    alloc: Global,
    cursor: &mut Cursor<'_>,
    depth: u8,
    aggregates: bool,
) -> Result<Expr, Or<Halt>>
    ensures { Reads (λ x. x) result (unread cursor.new) (rule.length_call (rule.value_at depth aggregates) (unread cursor.old)) }
{
    open_bracket(alloc, cursor)?;
    let argument = value(alloc, cursor, depth, aggregates)?;
    let argument = closed(cursor, argument)?;
    Ok(Expr::Length(Boxed::new(alloc, argument)?))
}

/// CONCAT, behind its word.
#[cycle(values)]
fn concat(
    alloc: Global,
    cursor: &mut Cursor<'_>,
    depth: u8,
    aggregates: bool,
) -> Result<Expr, Or<Halt>>
    ensures { Reads (λ x. x) result (unread cursor.new) (rule.concat_call (rule.value_at depth aggregates) (unread cursor.old)) }
{
    open_bracket(alloc, cursor)?;
    let arguments = values(alloc, cursor, depth, aggregates)?;
    Ok(Expr::Concat(closed(cursor, arguments)?))
}

/// COUNT, behind its word: of rows, or of a value without aggregates.
#[cycle(values)]
fn count(alloc: Global, cursor: &mut Cursor<'_>, depth: u8) -> Result<Expr, Or<Halt>>
    ensures { Reads (λ x. x) result (unread cursor.new) (meant.bracketed (rule.counted (rule.value_at depth false)) (unread cursor.old)) }
{
    open_bracket(alloc, cursor)?;
    if cursor.at_sign(b"*") {
        cursor.sign(b"*")?;
        return Ok(closed(cursor, Expr::CountAll)?);
    }
    let argument = value(alloc, cursor, depth, false)?;
    let argument = closed(cursor, argument)?;
    Ok(Expr::Count(Boxed::new(alloc, argument)?))
}

/// The arguments of another call, in brackets: none or more values.
#[cycle(values)]
fn arguments(
    alloc: Global,
    cursor: &mut Cursor<'_>,
    depth: u8,
    aggregates: bool,
) -> Result<Exprs, Or<Halt>>
    ensures { Reads (λ x. x) result (unread cursor.new) (meant.bracketed (rule.arguments (rule.value_at depth aggregates)) (unread cursor.old)) }
{
    open_bracket(alloc, cursor)?;
    if cursor.at_sign(b")") {
        cursor.sign(b")")?;
        return Ok(Exprs::new(alloc));
    }
    let arguments = values(alloc, cursor, depth, aggregates)?;
    Ok(closed(cursor, arguments)?)
}

/// One or more values, with a comma between each two.
#[cycle(values)]
fn values(
    alloc: Global,
    cursor: &mut Cursor<'_>,
    depth: u8,
    aggregates: bool,
) -> Result<Exprs, Or<Halt>>
    ensures { Reads (λ x. x) result (unread cursor.new) (meant.listed (rule.value_at depth aggregates) (unread cursor.old)) }
{
    let first = value(alloc, cursor, depth, aggregates)?;
    let mut values = with_member(Exprs::new(alloc), first)?;
    'commas: while cursor.at_sign(b",") {
        cursor.pass();
        let (so_far, next) = beside(values, value(alloc, cursor, depth, aggregates))?;
        values = with_member(so_far, next)?;
    }
    Ok(values)
}
