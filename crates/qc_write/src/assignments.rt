//! The assignments of UPDATE, with their columns found.

ghost use Rattle.std.specs.Prelude.{◌≡◌, [], map};
ghost use Rattle.qc_types.specs.Answers.{Gives};
ghost use Rattle.qc_sql.specs.declared.statements.Right.TheVariants as right;
ghost use Rattle.qc_sql.specs.Rows as rows;
ghost use Rattle.qc_sql.specs.Rows.{each};
ghost use Rattle.qc_write.specs.Placing.{assignment_placed, origin_of, origin_placed, placing_of};

use crate::columns::find_column;
use crate::values::is_other_sort;
use qc_sql::errors::not_supported;
use qc_sql::statements::{Assignment, Right};
use qc_sql::tables::{Column, Kind};
use qc_types::{Or, SqlError, Text, Value};
use std::alloc::Global;

/// Where the value of an assignment comes from.
#[derive(Clone, Copy)]
pub(crate) enum Source<'a> {
    Literal(&'a Value),
    /// The column with this index, from 0.
    Column(usize),
}

/// An assignment: the column that is set, its index from 0, and where its value comes from.
#[derive(Clone, Copy)]
pub(crate) struct Placed<'a> {
    pub(crate) place: usize,
    pub(crate) column: &'a Column,
    pub(crate) source: Source<'a>,
}

/// The assignments, each with its columns; or the first refusal: 1054 for the column that is set, 1235 where it is the key, 1054 for the column on the
/// right side, and 1235 for a text beside a number. Linear in their number, times the number of columns.
pub(crate) fn place_all<'a>(
    alloc: Global,
    columns: &'a [Column],
    assignments: &'a [Assignment],
) -> Result<Vec<Placed<'a>>, Or<SqlError>>
    ensures { Gives (λ ps. map placing_of ps.items) (λ e. e) result (each (assignment_placed columns.now) assignments.now) }
{
    let mut placed = Vec::new(alloc);
    for assignment in assignments {
        placed.push(place(alloc, columns, assignment)?)?;
    }
    Ok(placed)
}

fn place<'a>(
    alloc: Global,
    columns: &'a [Column],
    assignment: &'a Assignment,
) -> Result<Placed<'a>, Or<SqlError>>
    ensures { Gives placing_of (λ e. e) result (assignment_placed columns.now assignment.now) }
{
    let found = find_column(alloc, columns, &assignment.name)?;
    if found.column.primary {
        return Err(Or::Other(not_supported(alloc, b"key change")?));
    }
    let source = source_of(alloc, columns, found.column, &assignment.right)?;
    Ok(Placed {
        place: found.index,
        column: found.column,
        source,
    })
}

/// Where the value of a right side comes from, for a column that takes it.
fn source_of<'a>(
    alloc: Global,
    columns: &[Column],
    column: &Column,
    right: &'a Right,
) -> Result<Source<'a>, Or<SqlError>>
    ensures { Gives origin_of (λ e. e) result (origin_placed columns.now column.now right.now) }
{
    match right {
        Right::Literal(value) => literal(alloc, column, value),
        Right::Column(name) => copied(alloc, columns, column, name),
    }
}

fn literal<'a>(alloc: Global, column: &Column, value: &'a Value) -> Result<Source<'a>, Or<SqlError>>
    ensures { Gives origin_of (λ e. e) result (origin_placed [] column.now (right.Literal value.now)) }
{
    if is_other_sort(column.kind, value) {
        return Err(Or::Other(not_supported(alloc, b"mixed value")?));
    }
    Ok(Source::Literal(value))
}

fn copied<'a>(
    alloc: Global,
    columns: &[Column],
    column: &Column,
    name: &Text,
) -> Result<Source<'a>, Or<SqlError>>
    ensures { Gives origin_of (λ e. e) result (origin_placed columns.now column.now (right.Column name.now)) }
{
    let from = find_column(alloc, columns, name)?;
    if mixes(column.kind, from.column.kind) {
        return Err(Or::Other(not_supported(alloc, b"mixed value")?));
    }
    Ok(Source::Column(from.index))
}

/// Whether one column holds numbers, and the other one texts.
fn mixes(a: Kind, b: Kind) -> bool
    ensures { result ≡ rows.mixes (rows.sort_of_kind a) (rows.sort_of_kind b) }
{
    matches!(
        (a, b),
        (Kind::Int, Kind::Str(_)) | (Kind::Str(_), Kind::Int)
    )
}
