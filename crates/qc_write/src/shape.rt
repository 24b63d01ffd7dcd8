//! The columns that INSERT names.

ghost use Rattle.std.specs.Prelude.{◌≡◌, [], map, bytes_eq, IfOk};
ghost use Rattle.std.specs.List.{list_any};
ghost use Rattle.qc_types.specs.Answers.{Gives};
ghost use Rattle.qc_sql.specs.Effects as meant;
ghost use Rattle.qc_write.specs.Inserts.{place_of, places, shape_validated, named_in, IsShapeOf};
ghost use Rattle.qc_write.specs.Lists.{borrowed};

use crate::columns::{column_called, may_be_null};
use qc_sql::errors::{column_named_twice, value_needed};
use qc_sql::tables::Column;
use qc_types::{NoMemory, Or, SqlError, Text, Texts};
use std::alloc::Global;

/// The columns that an INSERT gives values for, in the order of its tuples, and where the value of each column of the table stands in a tuple.
#[derive(Drop)]
pub(crate) struct Shape<'a> {
    pub(crate) named: Vec<&'a Column>,
    pub(crate) places: Vec<Option<usize>>,
}

/// The shape of an INSERT that names these columns, or all of them in order. Refused name by name where there is no such column (1054) and where it is
/// named already (1110), and then at the first column that needs a value and isn't named (1364). Costs the number of columns times that of the names,
/// of which only as many are looked at as there are columns, and one.
pub(crate) fn shape_of<'a>(
    alloc: Global,
    columns: &'a [Column],
    names: &Option<Texts>,
) -> Result<Shape<'a>, Or<SqlError>>
    ensures gives { Gives named_in (λ e. e) result (shape_validated columns.now names.now) }
    ensures shape { IfOk result (IsShapeOf columns.now) }
{
    let named = insert_columns(alloc, columns, names)?;
    let places = place_all(alloc, columns, named.as_slice())?;
    Ok(Shape { named, places })
}

fn insert_columns<'a>(
    alloc: Global,
    columns: &'a [Column],
    names: &Option<Texts>,
) -> Result<Vec<&'a Column>, Or<SqlError>>
    ensures { Gives (λ cs. borrowed cs.items) (λ e. e) result (meant.columns_of_insert columns.now names.now) }
{
    match names {
        None => Ok(all_columns(alloc, columns)?),
        Some(names) => named_columns(alloc, columns, names.items()),
    }
}

fn all_columns<'a>(alloc: Global, columns: &'a [Column]) -> Result<Vec<&'a Column>, NoMemory>
    ensures { IfOk result (λ cs. borrowed cs.items ≡ columns.now) }
{
    let mut all = Vec::with_capacity(alloc, columns.len())?;
    for column in columns {
        all.push(column)?;
    }
    Ok(all)
}

fn named_columns<'a>(
    alloc: Global,
    columns: &'a [Column],
    names: &[Text],
) -> Result<Vec<&'a Column>, Or<SqlError>>
    ensures { Gives (λ cs. borrowed cs.items) (λ e. e) result (meant.named_columns [] columns.now names.now) }
{
    let mut named = Vec::new(alloc);
    for (i, name) in names.iter().enumerate() {
        let column = column_called(alloc, columns, name)?;
        if is_among(&names[..i], name) {
            return Err(Or::Other(column_named_twice(alloc, name.bytes())?));
        }
        named.push(column)?;
    }
    Ok(named)
}

fn is_among(names: &[Text], name: &Text) -> bool
    ensures { result ≡ list_any (bytes_eq name.now) names.now }
{
    for other in names {
        if name.bytes() == other.bytes() {
            return true;
        }
    }
    false
}

/// Where the value of each column stands, or the first column that needs a value and has none.
fn place_all(
    alloc: Global,
    columns: &[Column],
    named: &[&Column],
) -> Result<Vec<Option<usize>>, Or<SqlError>>
    ensures gives { Gives (λ _. tt) (λ e. e) result (meant.refuse_lacking (meant.lacking columns.now (borrowed named.now))) }
    ensures all { IfOk result (λ ps. ps.items ≡ places (borrowed named.now) columns.now) }
{
    let mut places = Vec::with_capacity(alloc, columns.len())?;
    for column in columns {
        let place = place_of(named, &column.name);
        if !may_be_null(column) && place.is_none() {
            return Err(Or::Other(value_needed(alloc, column.name.bytes())?));
        }
        places.push(place)?;
    }
    Ok(places)
}

/// The index of the first column of a name.
fn place_of(named: &[&Column], name: &Text) -> Option<usize>
    ensures { result ≡ place_of name.now (borrowed named.now) }
{
    for (i, column) in named.iter().enumerate() {
        if column.name.bytes() == name.bytes() {
            return Some(i);
        }
    }
    None
}
