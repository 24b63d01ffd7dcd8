//! Tables as they are stored.

ghost use Rattle.std.specs.Prelude.{◌≡◌, ◌+◌, ◌-◌, ◌<◌, ◌≤◌, [], ◌∷◌, ◌++◌, length, take, drop, map, option_copied, IfOk, IfSome, Ok, OnOk, Some, true};
ghost use Rattle.std.specs.List.{list_all};
ghost use Rattle.std.specs.Map.{keys_of};
ghost use Rattle.std.specs.Vec.{vec_capacity, vec_len};
ghost use Rattle.qc_sql.specs.declared.tables.Kind.TheVariants as kind;
ghost use Rattle.qc_sql.specs.Database.{key_of, key_value, is_int, most_rows, without_row};
ghost use Rattle.qc_model.specs.Licence.{columns_fit, row_fits};
ghost use Rattle.qc_model.specs.Sound.{IsSoundTable};
ghost use Rattle.qc_table.specs.Changes as changes;
ghost use Rattle.qc_table.specs.Changes.{above, below, last_of};
ghost use Rattle.qc_table.specs.Dels.{without_rows};
ghost use Rattle.qc_table.specs.Fitting.{IsChanged};
ghost use Rattle.qc_table.specs.Puts.{with_rows};
ghost use Rattle.qc_table.specs.Stored.{column_of, is_ints, rows_of, values_of, IsCells, IsStore};
ghost use Rattle.qc_table.specs.Views.{int_value, text_value, kind_at, row_at, value_at, IsNulls, IsTextAt, IsWithin};

use crate::cells::Cells;
use crate::dels::Dels;
use crate::keys::key_of_row;
use crate::puts::Puts;
use crate::row_edits::{put_each, remove_row};
use crate::row_ends::{push_rows, reserve_rows};
use crate::row_places::{places_of, put_rows};
use qc_sql::tables::Columns;
use qc_types::NoMemory;
use std::alloc::Global;
use std::cmp::Ordering;
use std::marker::Model;

/// The most rows of a table.
pub(crate) const MOST_ROWS: usize = 1_048_576;

/// The most rows that are put in their places or taken out one after another. Each costs a move of the rows behind it, where a copy of the table merges all of
/// them at once.
const MOST_PLACED: usize = 16;

/// The columns of a table, and its rows: their keys, and the values of each column.
#[derive(Drop)]
pub(crate) struct TableRows {
    columns: Columns,
    keys: Vec<i64>,
    cells: Vec<Cells>,
}

impl Model for TableRows {
    ghost use Rattle.std.specs.Prelude.{length};
    ghost use Rattle.qc_sql.specs.Database.{Table};
    ghost use Rattle.qc_table.specs.Stored.{rows_of, IsStore};
    ghost use Rattle.qc_model.specs.Sound.{IsSoundTable};

    ghost Value = { Table };

    ghost view = { λ t. record { columns = t.columns; rows = rows_of (length t.columns) t.keys.items t.cells.items } };

    ghost invariant = { λ t. IsStore t.columns (length t.keys.items) t.cells.items × IsSoundTable (record { columns = t.columns; rows = rows_of (length t.columns) t.keys.items t.cells.items }) };
}

/// Where entries by rising key stand apart from a key.
#[derive(Clone, Copy, Debug, PartialEq, Eq)]
pub(crate) struct Cut {
    /// The first that doesn't stand below the key.
    pub(crate) end: usize,
    /// The first that stands above it.
    pub(crate) next: usize,
}

impl TableRows {
    /// The table of these columns and keys, with the values of each column. Constant time.
    pub(crate) fn new(columns: Columns, keys: Vec<i64>, cells: Vec<Cells>) -> TableRows
        requires store { IsStore columns (length keys.items) cells.items }
        requires sound { IsSoundTable (record { columns = columns; rows = rows_of (length columns) keys.items cells.items }) }
        ensures { result ≡ record { columns = columns; rows = rows_of (length columns) keys.items cells.items } }
    {
        TableRows {
            columns,
            keys,
            cells,
        }
    }

    pub(crate) fn columns(&self) -> &Columns
        ensures value { result.now ≡ self.now.columns }
        ensures few { length result.now ≤ 64 }
        ensures sound { IsSoundTable self.now }
    {
        &self.columns
    }

    /// The keys of the rows.
    pub(crate) fn keys(&self) -> &[i64]
        ensures { result.now ≡ keys_of self.now.rows }
    {
        &self.keys
    }

    /// The values of the column at an index.
    fn cells(&self, column: usize) -> &Cells
        requires { column < length self.now.columns }
        ensures ready { IsCells result.now }
        ensures values { values_of result.now ≡ column_of column self.now.rows }
        ensures kind { IfSome (kind_at self.now.columns column) (λ k. is_ints result.now ≡ is_int k) }
        ensures sound { IsSoundTable self.now }
    {
        &self.cells[column]
    }

    /// Puts the values of a column in the rows from one index up to another at the end of other such values. Linear in what they hold over many calls.
    pub(crate) fn append_to(
        &self,
        cells: &mut Cells,
        column: usize,
        from: usize,
        to: usize,
    ) -> Result<(), NoMemory>
        requires column { column < length self.now.columns }
        requires ready { IsCells cells.old }
        requires kind { IfSome (kind_at self.now.columns column) (λ k. is_ints cells.old ≡ is_int k) }
        requires order { from ≤ to }
        requires within { to ≤ length self.now.rows }
        ensures ready { OnOk result (IsCells cells.new) }
        ensures kind { OnOk result (is_ints cells.new ≡ is_ints cells.old) }
        ensures values { OnOk result (values_of cells.new ≡ values_of cells.old ++ take (to - from) (drop from (column_of column self.now.rows))) }
    {
        cells.append(self.cells(column), from, to)
    }

    /// Where the rows from an index on stand apart from a key. Linear in how many rows are passed.
    pub(crate) fn cut(&self, from: usize, key: i64) -> Cut
        requires { from ≤ length self.now.rows }
        ensures order { (from ≤ result.end) × (result.end ≤ result.next) × (result.next ≤ length self.now.rows) }
        ensures below { below key (drop from self.now.rows) ≡ take (result.end - from) (drop from self.now.rows) }
        ensures above { above key (drop from self.now.rows) ≡ drop result.next self.now.rows }
    {
        let keys = self.keys();
        for (i, found) in keys[from..].iter().enumerate() {
            let end = from + i;
            match found.cmp(&key) {
                Ordering::Less => {}
                Ordering::Equal => return Cut { end, next: end + 1 },
                Ordering::Greater => return Cut { end, next: end },
            }
        }
        let end = keys.len();
        Cut { end, next: end }
    }

    /// Puts copies of the rows in their places, where the others stand. Answers `false`, and leaves all as it was, where there would be too many rows, and
    /// where they are many that neither all come behind the others nor all replace some with the same texts. Costs what the rows hold over many calls, the
    /// logarithm of how many rows there are for each that doesn't come behind them all, and a move of the rows behind it where it comes between others or
    /// changes a text.
    pub(crate) fn put(&mut self, alloc: Global, puts: &Puts<'_>) -> Result<bool, NoMemory>
        requires fits { list_all (row_fits self.old.columns) puts.now.rows ≡ true }
        requires within { length self.old.rows ≤ most_rows }
        ensures { IsChanged (with_rows puts.now.rows self.old) self.old result self.new }
    {
        if self.append(puts)? {
            return Ok(true);
        }
        if self.replace(alloc, puts)? {
            return Ok(true);
        }
        self.place(puts)
    }

    /// Puts copies of the rows behind the others, where they stand, for which all memory is taken before. Answers `false`, and leaves all as it was, where their
    /// keys don't rise above those of the others or there would be too many rows. Costs what the rows hold over many calls.
    fn append(&mut self, puts: &Puts<'_>) -> Result<bool, NoMemory>
        requires fits { list_all (row_fits self.old.columns) puts.now.rows ≡ true }
        requires within { length self.old.rows ≤ most_rows }
        ensures { IsChanged (with_rows puts.now.rows self.old) self.old result self.new }
    {
        if puts.len() > MOST_ROWS - self.keys.len() {
            return Ok(false);
        }
        if !rise_behind(last_key(&self.keys), &self.columns, puts) {
            return Ok(false);
        }
        self.keys.reserve(puts.len())?;
        reserve_rows(&mut self.cells, puts)?;
        push_rows(&mut self.cells, puts);
        push_keys(&mut self.keys, &self.columns, puts);
        Ok(true)
    }

    /// Puts copies of the rows in the places of those with their keys, where they stand, the first of them first. Answers `false`, and leaves all as it was,
    /// where there is none for one of them, and where a VARCHAR would change. Costs the logarithm of how many rows there are for each, and what the rows hold.
    fn replace(&mut self, alloc: Global, puts: &Puts<'_>) -> Result<bool, NoMemory>
        requires fits { list_all (row_fits self.old.columns) puts.now.rows ≡ true }
        requires within { length self.old.rows ≤ most_rows }
        ensures { IsChanged (with_rows puts.now.rows self.old) self.old result self.new }
    {
        let Some(places) = places_of(alloc, &self.columns, &self.keys, &self.cells, puts)? else {
            return Ok(false);
        };
        put_rows(&mut self.cells, &places, puts);
        Ok(true)
    }

    /// Puts copies of a few rows in their places, in those of the rows with their keys or between others, the first of them first. All memory is taken
    /// before. Answers `false`, and leaves all as it was, where they are more than a few and where there might be too many rows. Costs for each the logarithm
    /// of how many rows there are, what it holds, and a move of the rows behind it.
    fn place(&mut self, puts: &Puts<'_>) -> Result<bool, NoMemory>
        requires fits { list_all (row_fits self.old.columns) puts.now.rows ≡ true }
        requires within { length self.old.rows ≤ most_rows }
        ensures { IsChanged (with_rows puts.now.rows self.old) self.old result self.new }
    {
        if puts.len() > MOST_PLACED {
            return Ok(false);
        }
        if MOST_ROWS - self.keys.len() < puts.len() {
            return Ok(false);
        }
        self.keys.reserve(puts.len())?;
        reserve_rows(&mut self.cells, puts)?;
        put_each(&self.columns, &mut self.keys, &mut self.cells, puts);
        Ok(true)
    }

    /// Takes out the rows that a few keys may have, the first of them first. Answers `false`, and leaves all as it was, where they are more than a few. Costs for
    /// each the logarithm of how many rows there are, and a move of the rows behind it.
    pub(crate) fn remove_each(&mut self, dels: &Dels<'_>) -> bool
        requires { length self.old.rows ≤ most_rows }
        ensures { IsChanged (without_rows dels.now.keys self.old) self.old (Ok result) self.new }
    {
        if dels.len() > MOST_PLACED {
            return false;
        }
        for index in 0..dels.len() {
            self.remove(dels.key(index));
        }
        true
    }

    /// Takes out the row that the key may have. Costs the logarithm of how many rows there are, and a move of the rows behind it.
    fn remove(&mut self, key: i64)
        requires { length self.old.rows ≤ most_rows }
        ensures { IsChanged (without_row key self.old) self.old (Ok true) self.new }
    {
        let at = match self.keys.binary_search(&key) {
            Ok(at) => at,
            Err(_) => return,
        };
        self.keys.remove(at);
        remove_row(&mut self.cells, at);
    }

    /// The number in a BIGINT column, `None` where it is NULL.
    pub(crate) fn int(&self, row: u32, column: u8) -> Option<i64>
        requires row { row < length self.now.rows }
        requires int { kind_at self.now.columns column ≡ Some kind.Int }
        ensures { int_value result ≡ value_at (row_at self.now.rows row) column }
    {
        match self.cells(column as usize) {
            Cells::Ints(ints) => ints.get(row as usize),
            Cells::Texts(_) => unreachable!(),
        }
    }

    /// The bytes in a VARCHAR column, `None` where it is NULL.
    pub(crate) fn text(&self, row: u32, column: u8) -> Option<&[u8]>
        requires row { row < length self.now.rows }
        requires text { IsTextAt self.now.columns column }
        ensures value { text_value (option_copied result) ≡ value_at (row_at self.now.rows row) column }
        ensures within { IsWithin self.now.columns column (option_copied result) }
    {
        match self.cells(column as usize) {
            Cells::Texts(texts) => texts.get(row as usize),
            Cells::Ints(_) => unreachable!(),
        }
    }

    /// The numbers in a BIGINT column, 0 for each NULL.
    pub(crate) fn numbers(&self, column: u8) -> &[i64]
        requires { kind_at self.now.columns column ≡ Some kind.Int }
        ensures { result.now ≡ map key_value (column_of column self.now.rows) }
    {
        match self.cells(column as usize) {
            Cells::Ints(ints) => ints.values.as_slice(),
            Cells::Texts(_) => unreachable!(),
        }
    }

    /// The bits that tell which values in a column are NULL.
    pub(crate) fn nulls(&self, column: u8) -> &[u64]
        requires { column < length self.now.columns }
        ensures { IsNulls result.now (column_of column self.now.rows) }
    {
        self.cells(column as usize).nulls()
    }
}

/// The last of some keys.
fn last_key(keys: &[i64]) -> Option<i64>
    ensures { result ≡ last_of keys.now }
{
    if keys.is_empty() {
        return None;
    }
    Some(keys[keys.len() - 1])
}

/// Whether the keys of rows rise, behind a last one where there is one.
fn rise_behind(last: Option<i64>, columns: &Columns, puts: &Puts<'_>) -> bool
    ensures { result ≡ changes.rise_behind last (map (key_of columns.now) puts.now.rows) }
{
    let mut last = last;
    for index in 0..puts.len() {
        let key = key_of_row(columns, puts.row(index));
        if !stands_behind(last, key) {
            return false;
        }
        last = Some(key);
    }
    true
}

/// Whether a key stands above the last one, where there is one.
fn stands_behind(last: Option<i64>, key: i64) -> bool
    ensures { result ≡ changes.stands_behind last key }
{
    match last {
        None => true,
        Some(last) => last < key,
    }
}

/// Puts the keys of rows behind the others, for which there is room.
fn push_keys(keys: &mut Vec<i64>, columns: &Columns, puts: &Puts<'_>)
    requires { vec_len keys.old + length puts.now.rows ≤ vec_capacity keys.old }
    ensures { keys.new.items ≡ keys.old.items ++ map (key_of columns.now) puts.now.rows }
{
    for index in 0..puts.len() {
        push_key(keys, key_of_row(columns, puts.row(index)));
    }
}

/// Puts a key behind the others, for which there is room.
fn push_key(keys: &mut Vec<i64>, key: i64)
    requires { vec_len keys.old < vec_capacity keys.old }
    ensures items { keys.new.items ≡ keys.old.items ++ key ∷ [] }
    ensures len { vec_len keys.new ≡ vec_len keys.old + 1 }
    ensures capacity { vec_capacity keys.old ≤ vec_capacity keys.new }
{
    if keys.push(key).is_err() {
        unreachable!()
    }
}
