//! Rows that come between others, or in their places, and rows that are taken out.

ghost use Rattle.std.specs.Prelude.{◌≡◌, ℕ, ◌+◌, ◌<◌, ◌≤◌, drop, length, true, Some};
ghost use Rattle.std.specs.List.{insert, list_all, slice_get};
ghost use Rattle.std.specs.List.Sorted.{IsSearchInRange};
ghost use Rattle.std.specs.Vec.{vec_capacity, vec_len};
ghost use Rattle.qc_sql.specs.Database.{with_row};
ghost use Rattle.qc_model.specs.Licence.{row_fits};
ghost use Rattle.qc_model.specs.Sound.{IsSoundTable};
ghost use Rattle.qc_table.specs.declared.cells.Cells.{Cells};
ghost use Rattle.qc_table.specs.Puts.{put_at, with_rows};
ghost use Rattle.qc_table.specs.Stored.{key_in, put_in, table_stored, without_one, AreMade, HaveAt, HavePlace, HaveRoom, IsCells, IsStore, TakeRow};
ghost use Rattle.qc_table.specs.Views.{value_at};

use crate::cells::Cells;
use crate::keys::key_of_row;
use crate::puts::Puts;
use qc_sql::tables::Columns;

/// Puts each row in its place, in that of the row with its key or between others, for which there is room, the first of them first. Costs for each the
/// logarithm of how many rows there are, what it holds, and a move of the rows behind it.
pub(crate) fn put_each(
    columns: &Columns,
    keys: &mut Vec<i64>,
    cells: &mut Vec<Cells>,
    puts: &Puts<'_>,
)
    requires fits { list_all (row_fits columns.now) puts.now.rows ≡ true }
    requires store { IsStore columns.now (length keys.old.items) cells.old.items }
    requires sound { IsSoundTable (table_stored columns.now keys.old.items cells.old.items) }
    requires room { vec_len keys.old + length puts.now.rows ≤ vec_capacity keys.old }
    requires rooms { HaveRoom puts.now.rows cells.old.items }
    ensures store { IsStore columns.now (length keys.new.items) cells.new.items }
    ensures sound { IsSoundTable (table_stored columns.now keys.new.items cells.new.items) }
    ensures rows { table_stored columns.now keys.new.items cells.new.items ≡ with_rows puts.now.rows (table_stored columns.now keys.old.items cells.old.items) }
    ensures few { length keys.new.items ≤ length keys.old.items + length puts.now.rows }
{
    for index in 0..puts.len() {
        put_one(columns, keys, cells, puts, index);
    }
}

/// Puts the row at an index in its place, for which there is room.
fn put_one(
    columns: &Columns,
    keys: &mut Vec<i64>,
    cells: &mut Vec<Cells>,
    puts: &Puts<'_>,
    index: usize,
)
    requires index { index < length puts.now.rows }
    requires fits { list_all (row_fits columns.now) puts.now.rows ≡ true }
    requires store { IsStore columns.now (length keys.old.items) cells.old.items }
    requires sound { IsSoundTable (table_stored columns.now keys.old.items cells.old.items) }
    requires room { vec_len keys.old < vec_capacity keys.old }
    requires rooms { HaveRoom (drop index puts.now.rows) cells.old.items }
    ensures store { IsStore columns.now (length keys.new.items) cells.new.items }
    ensures sound { IsSoundTable (table_stored columns.now keys.new.items cells.new.items) }
    ensures rows { table_stored columns.now keys.new.items cells.new.items ≡ with_row (put_at puts.now.rows index) (table_stored columns.now keys.old.items cells.old.items) }
    ensures rooms { HaveRoom (drop (index + 1) puts.now.rows) cells.new.items }
    ensures few { length keys.new.items ≤ length keys.old.items + 1 }
    ensures len { vec_len keys.new ≤ vec_len keys.old + 1 }
    ensures capacity { vec_capacity keys.old ≤ vec_capacity keys.new }
{
    let key = key_of_row(columns, puts.row(index));
    let place = keys.binary_search(&key);
    put_row_in(cells, place, puts, index);
    put_key_in(keys, place, key);
}

/// Puts a key in its place, for which there is room.
fn put_key_in(keys: &mut Vec<i64>, place: Result<usize, usize>, key: i64)
    requires place { IsSearchInRange place (length keys.old.items) }
    requires room { vec_len keys.old < vec_capacity keys.old }
    ensures items { keys.new.items ≡ key_in place key keys.old.items }
    ensures len { vec_len keys.new ≤ vec_len keys.old + 1 }
    ensures capacity { vec_capacity keys.old ≤ vec_capacity keys.new }
{
    match place {
        Ok(_) => {}
        Err(at) => {
            if keys.insert(at, key).is_err() {
                unreachable!()
            }
        }
    }
}

/// Puts the row at an index in a place of the columns, for which there is room. Linear in how many rows stand behind it and what they hold.
pub(crate) fn put_row_in(
    cells: &mut Vec<Cells>,
    place: Result<usize, usize>,
    puts: &Puts<'_>,
    index: usize,
)
    requires index { index < length puts.now.rows }
    requires takes { TakeRow (put_at puts.now.rows index) cells.old.items }
    requires place { HavePlace place cells.old.items }
    requires room { HaveRoom (drop index puts.now.rows) cells.old.items }
    ensures made { AreMade (λ j. put_in place (value_at (put_at puts.now.rows index) j)) cells.old.items cells.new.items }
    ensures room { HaveRoom (drop (index + 1) puts.now.rows) cells.new.items }
{
    let values = puts.row(index).items();
    for column in 0..cells.len() {
        if cells[column].put_in(place, &values[column]).is_err() {
            unreachable!()
        }
    }
}

/// Takes the row at an index out of the columns. Linear in how many rows stand behind it and what they hold.
pub(crate) fn remove_row(cells: &mut Vec<Cells>, at: usize)
    requires ready { (j : ℕ) (c : Cells) → slice_get cells.old.items j ≡ Some c → IsCells c }
    requires there { HaveAt at cells.old.items }
    ensures { AreMade (λ j. without_one at) cells.old.items cells.new.items }
{
    for column in 0..cells.len() {
        cells[column].remove(at);
    }
}
