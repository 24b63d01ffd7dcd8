//! Columns of numbers in a part of a table.

ghost use Rattle.std.specs.Prelude.{◌≡◌, ◌+◌, ◌*◌, ◌≤◌, length, map, min, take, drop, IfSome, Some};
ghost use Rattle.qc_sql.specs.declared.tables.Kind.TheVariants as kind;
ghost use Rattle.qc_lane.specs.Lanes.{words_for};
ghost use Rattle.qc_table.specs.Views as views;
ghost use Rattle.qc_table.specs.Views.{kind_at};
ghost use Rattle.qc_resolve.specs.Meaning.{value_at};
ghost use Rattle.qc_eval.specs.Lanes.{cells_of, window_rows, IsLane, IsWindow};

use crate::range::RowRange;
use crate::scene::at;
use qc_resolve::Place;
use qc_sql::tables::Kind;
use qc_table::TableVersion;
use qc_types::Steps;
use std::sync::ledger::Ledger;

/// Rows that stand together in a table. The first has the first bit of a word, in words that have a bit for each row.
#[derive(Clone, Copy)]
pub struct Window {
    /// The word of the first row, which stands at 64 times this index.
    pub word: usize,
    pub count: usize,
}

/// The numbers of a column in a window, 0 for each NULL, and bits that tell which are NULL.
#[derive(Clone, Copy)]
pub struct Lane<'a> {
    pub values: &'a [i64],
    pub nulls: &'a [u64],
}

/// The least window that has the rows of a range, in a table of so many.
pub fn window_of(range: RowRange, count: u32) -> Window
    ensures from { 64 * result.word ≤ range.from }
    ensures to { 64 * result.word + result.count ≡ min range.to count }
{
    let end = range.to.min(count);
    let word = range.from.min(end) / 64;
    Window {
        word: word as usize,
        count: (end - 64 * word) as usize,
    }
}

/// The column at a place in a window of the only table, where it is one of numbers.
pub fn lane_of<'a, L: Ledger>(
    table: &'a TableVersion,
    window: Window,
    place: Place,
    steps: &mut Steps<L>,
) -> Option<Lane<'a>>
    requires { IsWindow table.now window }
    ensures { IfSome result (λ lane. IsLane (cells_of (value_at place) (window_rows table.now window)) lane) }
{
    if place.slot != 0 {
        return None;
    }
    let Some(shown) = at(table.columns().items(), place.column as usize) else {
        return None;
    };
    match shown.kind {
        Kind::Int => Some(number_lane(table, window, place.column, steps)),
        Kind::Str(_) => None,
    }
}

/// A column of numbers in a window.
fn number_lane<'a, L: Ledger>(
    table: &'a TableVersion,
    window: Window,
    column: u8,
    steps: &mut Steps<L>,
) -> Lane<'a>
    requires window { IsWindow table.now window }
    requires number { kind_at table.now.columns column ≡ Some kind.Int }
    ensures { IsLane (map (λ e. views.value_at e.1 column) (window_rows table.now window)) result }
{
    // The columns tell that each value of this one is a number or NULL.
    let _columns = table.columns();
    let view = table.column(column, steps);
    lane_in(view.values(), view.nulls(), window)
}

/// What a column has in a window.
fn lane_in<'a>(values: &'a [i64], nulls: &'a [u64], window: Window) -> Lane<'a>
    requires window { 64 * window.word + window.count ≤ length values.now }
    requires words { length nulls.now ≡ words_for (length values.now) }
    ensures values { result.values.now ≡ take window.count (drop (64 * window.word) values.now) }
    ensures nulls { result.nulls.now ≡ take (words_for window.count) (drop window.word nulls.now) }
{
    let first = 64 * window.word;
    let words = window.count.div_ceil(64);
    Lane {
        values: &values[first..first + window.count],
        nulls: &nulls[window.word..window.word + words],
    }
}
