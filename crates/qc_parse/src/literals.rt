//! Literals.

ghost use Rattle.std.specs.Prelude.{◌≡◌, true, false};
ghost use Rattle.qc_sql.specs.Reading as meant;
ghost use Rattle.qc_sql.specs.Grammar as rule;
ghost use Rattle.qc_parse.specs.Cursors.{unread, Takes, Reads};

use crate::cursor::Cursor;
use crate::halt::{Halt, unsupported};
use crate::lists::{Member, followed, listed_in_brackets};
use crate::names::{at_number, at_text, ends_value, number, text};
use qc_sql::statements::Values;
use qc_types::{Or, Value};
use std::alloc::Global;

/// The greatest number with a sign of 64 bits.
const GREATEST: u64 = 9_223_372_036_854_775_807;

/// Whether a literal is next.
pub fn at_literal(cursor: &Cursor<'_>) -> bool
    ensures { result ≡ rule.at_literal (unread cursor.now) }
{
    at_number(cursor) || cursor.at_sign(b"-") || at_text(cursor) || cursor.at_word(b"NULL")
}

/// A number, a text or NULL.
#[tactic(auto, unfolding(qc_sql::specs::Grammar::literal))]
pub fn literal(alloc: Global, cursor: &mut Cursor<'_>) -> Result<Value, Or<Halt>>
    ensures { Reads (λ x. x) result (unread cursor.new) (rule.literal (unread cursor.old)) }
{
    let value = bare_literal(alloc, cursor)?;
    followed(value, ends_value(alloc, cursor))
}

/// A literal, whatever stands behind it.
#[tactic(auto, unfolding(qc_sql::specs::Grammar::bare_literal))]
fn bare_literal(alloc: Global, cursor: &mut Cursor<'_>) -> Result<Value, Or<Halt>>
    ensures { Reads (λ x. x) result (unread cursor.new) (rule.bare_literal (unread cursor.old)) }
{
    if at_number(cursor) {
        let value = number(cursor)?;
        return positive(alloc, cursor, value);
    }
    if cursor.at_sign(b"-") {
        cursor.sign(b"-")?;
        let value = number(cursor)?;
        return negative(alloc, cursor, value);
    }
    if at_text(cursor) {
        return Ok(Value::Str(text(alloc, cursor)?));
    }
    cursor.word(b"NULL")?;
    Ok(Value::Null)
}

/// A number without a sign, as one of 64 bits with a sign.
#[tactic(auto, unfolding(qc_sql::specs::Grammar::signed))]
fn positive(alloc: Global, cursor: &Cursor<'_>, value: u64) -> Result<Value, Or<Halt>>
    ensures { Reads (λ x. x) result (unread cursor.now) (rule.signed false value (unread cursor.now)) }
{
    if value > GREATEST {
        return Err(unsupported(alloc, b"unsigned"));
    }
    Ok(Value::Int(value as i64))
}

/// A number behind a minus sign.
#[tactic(auto, unfolding(qc_sql::specs::Grammar::signed))]
fn negative(alloc: Global, cursor: &Cursor<'_>, value: u64) -> Result<Value, Or<Halt>>
    ensures { Reads (λ x. x) result (unread cursor.now) (rule.signed true value (unread cursor.now)) }
{
    if value == GREATEST + 1 {
        return Ok(Value::Int(i64::MIN));
    }
    if value > GREATEST {
        return Err(unsupported(alloc, b"unsigned"));
    }
    Ok(Value::Int(-(value as i64)))
}

/// One or more literals in brackets.
#[tactic(auto, unfolding(qc_sql::specs::Grammar::tuple))]
pub fn tuple(alloc: Global, cursor: &mut Cursor<'_>) -> Result<Values, Or<Halt>>
    ensures { Reads (λ x. x) result (unread cursor.new) (rule.tuple (unread cursor.old)) }
{
    listed_in_brackets::<Value>(alloc, cursor)
}

impl Member for Value {
    ghost use Rattle.qc_parse.specs.Rules.{shortens_literal};

    ghost rule = { rule.literal };

    ghost shortens = { shortens_literal };

    fn read(alloc: Global, cursor: &mut Cursor<'_>) -> Result<Value, Or<Halt>> {
        literal(alloc, cursor)
    }
}
