//! Columns by their names.

ghost use Rattle.std.specs.Prelude.{◌≡◌, option_map};
ghost use Rattle.qc_types.specs.Answers.{Gives};
ghost use Rattle.qc_resolve.specs.Columns.{may_mean, scanned, spots_from, find_spot};
ghost use Rattle.qc_resolve.specs.Views.{spot_of};

use crate::formula::Place;
use crate::scope::{Bound, Scope};
use qc_sql::errors::{ambiguous_column, unknown_column};
use qc_sql::statements::ColumnName;
use qc_sql::tables::Column;
use qc_types::{Or, SqlError};
use std::alloc::Global;

/// A column that was found: its table, its definition, and where its value stands.
#[derive(Clone, Copy)]
pub struct Found<'a> {
    pub bound: &'a Bound,
    pub column: &'a Column,
    pub place: Place,
}

/// The one column that a name means: refused with 1054 where there is none, and with 1052 where there are two. Linear in the columns of all tables.
pub fn find_column<'a>(
    alloc: Global,
    scope: &'a Scope,
    name: &ColumnName,
) -> Result<Found<'a>, Or<SqlError>>
    ensures { Gives spot_of (λ e. e) result (find_spot scope.now.bounds name.now) }
{
    let mut found = None;
    for (slot, bound) in scope.bounds.items().iter().enumerate() {
        found = find_in(alloc, bound, slot, name, found)?;
    }
    match found {
        Some(found) => Ok(found),
        None => Err(Or::Other(unknown_column(alloc, name.name.bytes())?)),
    }
}

/// The same in one table, whose rows stand at this slot of the combinations, behind what was found.
fn find_in<'a>(
    alloc: Global,
    bound: &'a Bound,
    slot: usize,
    name: &ColumnName,
    mut found: Option<Found<'a>>,
) -> Result<Option<Found<'a>>, Or<SqlError>>
    ensures { Gives (option_map spot_of) (λ e. e) result (scanned name.now (option_map spot_of found.entry) (spots_from bound.now slot 0 bound.now.table.columns)) }
{
    for (i, column) in bound.version.columns().items().iter().enumerate() {
        if !may_mean(bound, column, name) {
            continue;
        }
        if found.is_some() {
            return Err(Or::Other(ambiguous_column(alloc, name.name.bytes())?));
        }
        let place = Place {
            slot,
            column: i as u8,
        };
        found = Some(Found {
            bound,
            column,
            place,
        });
    }
    Ok(found)
}

/// Whether a name may mean this column of a table.
fn may_mean(bound: &Bound, column: &Column, name: &ColumnName) -> bool
    ensures { result ≡ may_mean name.now bound.now column.now }
{
    if column.name.bytes() != name.name.bytes() {
        return false;
    }
    match &name.source {
        None => true,
        Some(source) => bound.called.bytes() == source.bytes(),
    }
}
