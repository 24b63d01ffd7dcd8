//! Columns by their names.

ghost use Rattle.std.specs.Prelude.{◌≡◌};
ghost use Rattle.qc_types.specs.Answers.{Gives};
ghost use Rattle.qc_sql.specs.Effects as meant;
ghost use Rattle.qc_write.specs.Placing.{found_of, place_called};

use qc_sql::errors::unknown_column;
use qc_sql::tables::Column;
use qc_types::{Or, SqlError, Text};
use std::alloc::Global;

/// A column, and its index from 0.
#[derive(Clone, Copy)]
pub(crate) struct Found<'a> {
    pub(crate) index: usize,
    pub(crate) column: &'a Column,
}

/// The column of a name, refused with 1054 where there is none. Linear in the number of columns.
pub(crate) fn find_column<'a>(
    alloc: Global,
    columns: &'a [Column],
    name: &Text,
) -> Result<Found<'a>, Or<SqlError>>
    ensures { Gives found_of (λ e. e) result (place_called name.now 0 columns.now) }
{
    for (index, column) in columns.iter().enumerate() {
        if column.name.bytes() == name.bytes() {
            return Ok(Found { index, column });
        }
    }
    Err(Or::Other(unknown_column(alloc, name.bytes())?))
}

/// The same without its index.
pub(crate) fn column_called<'a>(
    alloc: Global,
    columns: &'a [Column],
    name: &Text,
) -> Result<&'a Column, Or<SqlError>>
    ensures { Gives (λ c. c.now) (λ e. e) result (meant.column_called name.now columns.now) }
{
    Ok(find_column(alloc, columns, name)?.column)
}

/// Whether NULL may stand in a column.
pub(crate) fn may_be_null(column: &Column) -> bool
    ensures { result ≡ meant.may_be_null column.now }
{
    !(column.not_null || column.primary)
}
