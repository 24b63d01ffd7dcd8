//! Names, numbers and texts.

ghost use Rattle.std.specs.Prelude.{◌≡◌, [], IfOk, is_some, unwrap_or};
ghost use Rattle.qc_lex.specs.Ahead.{said};
ghost use Rattle.qc_sql.specs.Reading as meant;
ghost use Rattle.qc_sql.specs.Grammar as rule;
ghost use Rattle.qc_parse.specs.Cursors.{unread, Takes, Reads};

use crate::cursor::Cursor;
use crate::halt::{Halt, unsupported};
use crate::lists::{beside, followed};
use crate::words::is_reserved;
use qc_lex::{Ahead, Lexeme, quoted_name, quoted_text};
use qc_sql::statements::{ColumnName, TableRef};
use qc_types::{NoMemory, Or, Text};
use std::alloc::Global;

/// Whether a name is next.
pub fn at_name(cursor: &Cursor<'_>) -> bool
    ensures { result ≡ meant.at_name (unread cursor.now) }
{
    match cursor.ahead {
        Ahead::Token { what, .. } => is_name(what),
        _ => false,
    }
}

/// Whether a token is a name: a word that isn't reserved, or a quoted name.
fn is_name(what: Lexeme<'_>) -> bool
    ensures { result ≡ is_some (meant.name_in (said what.entry)) }
{
    match what {
        Lexeme::Word(word) => !is_reserved(word),
        Lexeme::QuotedName(_) => true,
        _ => false,
    }
}

/// Whether a number is next.
pub fn at_number(cursor: &Cursor<'_>) -> bool
    ensures { result ≡ meant.at_number (unread cursor.now) }
{
    matches!(
        cursor.ahead,
        Ahead::Token {
            what: Lexeme::Number(_),
            ..
        }
    )
}

/// Whether a text is next.
pub fn at_text(cursor: &Cursor<'_>) -> bool
    ensures { result ≡ meant.at_words (unread cursor.now) }
{
    matches!(
        cursor.ahead,
        Ahead::Token {
            what: Lexeme::Text(_),
            ..
        }
    )
}

/// Takes a name. Linear in it.
pub fn name(alloc: Global, cursor: &mut Cursor<'_>) -> Result<Text, Or<Halt>>
    ensures { Reads (λ x. x) result (unread cursor.new) (meant.name (unread cursor.old)) }
{
    let Ahead::Token { what, .. } = cursor.ahead else {
        return Err(Or::Other(Halt::Unexpected));
    };
    let Some(name) = name_in(alloc, what)? else {
        return Err(Or::Other(Halt::Unexpected));
    };
    cursor.pass();
    Ok(name)
}

/// The name that a token is, if it is one.
fn name_in(alloc: Global, what: Lexeme<'_>) -> Result<Option<Text>, NoMemory>
    ensures { IfOk result (λ name. name ≡ meant.name_in (said what.entry)) }
{
    match what {
        Lexeme::Word(word) => {
            if is_reserved(word) {
                return Ok(None);
            }
            Ok(Some(Text::of(alloc, word)?))
        }
        Lexeme::QuotedName(quoted) => {
            let name = quoted_name(alloc, quoted)?;
            Ok(Some(or_empty(alloc, name)))
        }
        _ => Ok(None),
    }
}

/// What stands between the quotes of a token, which are closed.
pub fn or_empty(alloc: Global, text: Option<Text>) -> Text
    ensures { result ≡ unwrap_or text [] }
{
    match text {
        Some(text) => text,
        None => Text::from_vec(Vec::new(alloc)),
    }
}

/// Takes a text. Linear in it.
pub fn text(alloc: Global, cursor: &mut Cursor<'_>) -> Result<Text, Or<Halt>>
    ensures { Reads (λ x. x) result (unread cursor.new) (meant.words (unread cursor.old)) }
{
    let Ahead::Token {
        what: Lexeme::Text(quoted),
        ..
    } = cursor.ahead
    else {
        return Err(Or::Other(Halt::Unexpected));
    };
    let text = or_empty(alloc, quoted_text(alloc, quoted)?);
    cursor.pass();
    Ok(text)
}

/// Takes a number.
pub fn number(cursor: &mut Cursor<'_>) -> Result<u64, Halt>
    ensures { Takes (λ x. x) result (unread cursor.new) (meant.number (unread cursor.old)) }
{
    let Ahead::Token {
        what: Lexeme::Number(value),
        ..
    } = cursor.ahead
    else {
        return Err(Halt::Unexpected);
    };
    cursor.pass();
    Ok(value)
}

/// Takes a word, whatever it is.
pub fn any_word<'a>(cursor: &mut Cursor<'a>) -> Result<&'a [u8], Halt>
    ensures { Takes (λ x. x.now) result (unread cursor.new) (meant.any_word (unread cursor.old)) }
{
    let Ahead::Token {
        what: Lexeme::Word(word),
        ..
    } = cursor.ahead
    else {
        return Err(Halt::Unexpected);
    };
    cursor.pass();
    Ok(word)
}

/// `name` or `name.name`: the one before the dot, if there is a dot, and the other.
#[tactic(auto, unfolding(qc_sql::specs::Grammar::dotted))]
pub fn dotted(alloc: Global, cursor: &mut Cursor<'_>) -> Result<(Option<Text>, Text), Or<Halt>>
    ensures { Reads (λ x. x) result (unread cursor.new) (rule.dotted (unread cursor.old)) }
{
    let first = name(alloc, cursor)?;
    if !cursor.at_sign(b".") {
        return Ok((None, first));
    }
    let first = followed(first, cursor.sign(b"."))?;
    let (first, second) = beside(first, name(alloc, cursor))?;
    Ok((Some(first), second))
}

#[tactic(auto, unfolding(qc_sql::specs::Grammar::table))]
pub fn table(alloc: Global, cursor: &mut Cursor<'_>) -> Result<TableRef, Or<Halt>>
    ensures { Reads (λ x. x) result (unread cursor.new) (rule.table (unread cursor.old)) }
{
    let (db, name) = dotted(alloc, cursor)?;
    Ok(TableRef { db, name })
}

/// Whether a sign of arithmetic is next.
fn at_arithmetic(cursor: &Cursor<'_>) -> bool
    ensures { result ≡ meant.next_is rule.is_arithmetic (unread cursor.now) }
{
    match cursor.ahead {
        Ahead::Token {
            what: Lexeme::Sign(sign),
            ..
        } => matches!(sign, b"+" | b"-" | b"*" | b"/"),
        _ => false,
    }
}

/// Nothing arithmetic is next, behind what stands as a value.
#[tactic(auto, unfolding(qc_sql::specs::Grammar::ends_value))]
pub fn ends_value(alloc: Global, cursor: &Cursor<'_>) -> Result<(), Or<Halt>>
    ensures { Reads (λ x. x) result (unread cursor.now) (rule.ends_value (unread cursor.now)) }
{
    if at_arithmetic(cursor) {
        return Err(unsupported(alloc, b"arithmetic"));
    }
    Ok(())
}

#[tactic(auto, unfolding(qc_sql::specs::Grammar::column))]
pub fn column(alloc: Global, cursor: &mut Cursor<'_>) -> Result<ColumnName, Or<Halt>>
    ensures { Reads (λ x. x) result (unread cursor.new) (rule.column (unread cursor.old)) }
{
    let (source, name) = dotted(alloc, cursor)?;
    followed(ColumnName { source, name }, ends_value(alloc, cursor))
}
