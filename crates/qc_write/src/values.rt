//! Values for columns.

ghost use Rattle.std.specs.Prelude.{◌≡◌};
ghost use Rattle.qc_types.specs.Answers.{Gives};
ghost use Rattle.qc_sql.specs.Effects as meant;
ghost use Rattle.qc_sql.specs.Rows as rows;

use crate::columns::may_be_null;
use qc_sql::errors::{null_column, too_long};
use qc_sql::tables::{Column, Kind};
use qc_types::{Or, SqlError, Value};
use std::alloc::Global;

/// Whether a value is a text for a column of numbers, or a number for one of texts.
pub(crate) fn is_other_sort(kind: Kind, value: &Value) -> bool
    ensures { result ≡ meant.is_other_sort kind value.now }
{
    match value {
        Value::Null => false,
        Value::Int(_) => is_text(kind),
        Value::Str(_) => !is_text(kind),
    }
}

fn is_text(kind: Kind) -> bool
    ensures { result ≡ rows.mixes (rows.sort_of_kind kind) rows.Number }
{
    match kind {
        Kind::Int => false,
        Kind::Str(_) => true,
    }
}

/// Refuses a value that may not stand in a column: NULL where it takes none (1048), and a text that is longer than it allows (1406).
pub(crate) fn check_stored(
    alloc: Global,
    column: &Column,
    value: &Value,
) -> Result<(), Or<SqlError>>
    ensures { Gives (λ _. value.now) (λ e. e) result (meant.stored column.now value.now) }
{
    if is_null(value) && !may_be_null(column) {
        return Err(Or::Other(null_column(alloc, column.name.bytes())?));
    }
    if is_too_long(column.kind, value) {
        return Err(Or::Other(too_long(alloc, column.name.bytes())?));
    }
    Ok(())
}

fn is_null(value: &Value) -> bool
    ensures { result ≡ rows.is_null value.now }
{
    match value {
        Value::Null => true,
        Value::Int(_) | Value::Str(_) => false,
    }
}

fn is_too_long(kind: Kind, value: &Value) -> bool
    ensures { result ≡ meant.is_too_long kind value.now }
{
    match kind {
        Kind::Int => false,
        Kind::Str(most) => is_longer(value, most),
    }
}

/// Whether a value is a text of more bytes.
fn is_longer(value: &Value, most: u16) -> bool
    ensures { result ≡ meant.is_too_long (Kind.Str most) value.now }
{
    match value {
        Value::Str(text) => text.bytes().len() > usize::from(most),
        Value::Null | Value::Int(_) => false,
    }
}
