//! The values that SET gives to variables, as in MySQL's "Server System Variables".

ghost use Rattle.std.specs.Prelude.{◌≡◌};
ghost use Rattle.qc_types.specs.Answers.{Gives};
ghost use Rattle.qc_model.specs.Settings as settings;
ghost use Rattle.qc_sql.specs.declared.statements.SetValue.TheVariants as to;
ghost use Rattle.qc_trx.specs.Values.{found_or_wrong};

use qc_lex::is_same_word;
use qc_sql::errors::wrong_value;
use qc_sql::statements::SetValue;
use qc_types::{Or, SqlError};
use std::alloc::Global;

/// No limit on the rows of a select.
pub(crate) const NO_LIMIT: u64 = 18_446_744_073_709_551_615;

/// The collation of utf8, by its number.
pub(crate) const UTF8: u16 = 33;

/// The collation of utf8mb4, by its number.
const UTF8MB4: u16 = 45;

/// Whether a value switches a variable on or off: ON or 1, or OFF or 0, in any case. `None` for any other, which the variable doesn't take.
pub fn switch(value: &SetValue) -> Option<bool>
    ensures { result ≡ settings.switch value.now }
{
    match value {
        SetValue::Number(number) => switch_by_number(*number),
        SetValue::Word(word) => switch_by_word(word.bytes()),
        SetValue::Str(_) => None,
        SetValue::Default => None,
    }
}

fn switch_by_number(number: u64) -> Option<bool>
    ensures { result ≡ settings.switch (to.Number number) }
{
    if number == 0 {
        Some(false)
    } else if number == 1 {
        Some(true)
    } else {
        None
    }
}

fn switch_by_word(word: &[u8]) -> Option<bool>
    ensures { result ≡ settings.switch (to.Word word.now) }
{
    if is_same_word(word, b"OFF") {
        Some(false)
    } else if is_same_word(word, b"ON") {
        Some(true)
    } else {
        None
    }
}

/// The type of the cache: OFF, ON or DEMAND, or 0, 1 or 2.
pub(crate) fn cache_kind(value: &SetValue) -> Option<u8>
    ensures { result ≡ settings.cache_kind value.now }
{
    match value {
        SetValue::Number(number) => kind_by_number(*number),
        SetValue::Word(word) => kind_by_word(word.bytes()),
        SetValue::Str(_) => None,
        SetValue::Default => None,
    }
}

fn kind_by_number(number: u64) -> Option<u8>
    ensures { result ≡ settings.cache_kind (to.Number number) }
{
    if number == 0 || number == 1 || number == 2 {
        Some(number as u8)
    } else {
        None
    }
}

fn kind_by_word(word: &[u8]) -> Option<u8>
    ensures { result ≡ settings.cache_kind (to.Word word.now) }
{
    if is_same_word(word, b"OFF") {
        Some(0)
    } else if is_same_word(word, b"ON") {
        Some(1)
    } else if is_same_word(word, b"DEMAND") {
        Some(2)
    } else {
        None
    }
}

/// The SQL mode: whether double quotes enclose names.
pub(crate) fn quotes(value: &SetValue) -> Option<bool>
    ensures { result ≡ settings.quotes value.now }
{
    match value {
        SetValue::Str(text) => quotes_by_text(text.bytes()),
        SetValue::Number(_) => None,
        SetValue::Word(_) => None,
        SetValue::Default => None,
    }
}

fn quotes_by_text(text: &[u8]) -> Option<bool>
    ensures { result ≡ settings.quotes (to.Str text.now) }
{
    if text.is_empty() {
        Some(false)
    } else if is_same_word(text, b"ANSI_QUOTES") {
        Some(true)
    } else {
        None
    }
}

/// The most rows that a select gives.
pub(crate) fn select_limit(value: &SetValue) -> Option<u64>
    ensures { result ≡ settings.select_limit value.now }
{
    match value {
        SetValue::Number(number) => Some(*number),
        SetValue::Default => Some(NO_LIMIT),
        SetValue::Word(_) => None,
        SetValue::Str(_) => None,
    }
}

/// The collation of a character set, by its number.
pub(crate) fn character_set(name: &[u8]) -> Option<u16>
    ensures { result ≡ settings.character_set name.now }
{
    if is_same_word(name, b"utf8") {
        Some(UTF8)
    } else if is_same_word(name, b"utf8mb4") {
        Some(UTF8MB4)
    } else {
        None
    }
}

/// The value that was found, or else 1231 with the variable's name.
pub(crate) fn found_or_wrong<T: Drop>(
    alloc: Global,
    name: &[u8],
    found: Option<T>,
) -> Result<T, Or<SqlError>>
    ensures { Gives (λ x. x) (λ e. e) result (found_or_wrong name.now found) }
{
    match found {
        Some(value) => Ok(value),
        None => Err(Or::Other(wrong_value(alloc, name)?)),
    }
}
