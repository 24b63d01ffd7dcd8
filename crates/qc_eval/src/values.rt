//! Values of formulas, and their texts.

ghost use Rattle.std.specs.Prelude.{◌≡◌, length, option_map};
ghost use Rattle.qc_eval.specs.Values.{cell_value, stored_value};
ghost use Rattle.qc_eval.specs.Texts.{text_size, size_value, present_size};

use itoa::Buffer;
use qc_sql::cells::{Cell, StoredCell};
use qc_types::Value;

/// The most bytes of a joined text.
pub(crate) const MOST_TEXT: usize = 65_535;

/// A literal as a cell.
pub(crate) fn literal(value: &Value) -> Cell<'_>
    ensures { cell_value result ≡ value.now }
{
    match value {
        Value::Null => Cell::Null,
        Value::Int(number) => Cell::Int(*number),
        Value::Str(text) => Cell::Str(text.bytes()),
    }
}

/// A cell of its own, borrowed.
pub(crate) fn borrowed(cell: &StoredCell) -> Cell<'_>
    ensures { cell_value result ≡ stored_value cell.now }
{
    match cell {
        StoredCell::Null => Cell::Null,
        StoredCell::Int(number) => Cell::Int(*number),
        StoredCell::Wide(number) => Cell::Wide(*number),
        StoredCell::Str(text) => Cell::Str(text.bytes()),
    }
}

/// How many bytes the text of a cell has; none: it is NULL.
pub(crate) fn cell_size(cell: Cell<'_>) -> Option<usize>
    ensures { result ≡ text_size (cell_value cell.entry) }
{
    match cell {
        Cell::Null => None,
        Cell::Int(number) => Some(Buffer::new().format(number).len()),
        Cell::Wide(number) => Some(Buffer::new().format(number).len()),
        Cell::Str(text) => Some(text.len()),
    }
}

/// A length as a cell.
pub(crate) fn length_cell<'a>(length: Option<usize>) -> Cell<'a>
    ensures { cell_value result ≡ size_value length }
{
    match length {
        Some(length) => Cell::Wide(length as i128),
        None => Cell::Null,
    }
}

/// Whether a value is there, as a cell.
pub(crate) fn present_cell<'a>(length: Option<usize>) -> Cell<'a>
    ensures { cell_value result ≡ present_size length }
{
    match length {
        Some(_) => Cell::Int(1),
        None => Cell::Int(0),
    }
}
