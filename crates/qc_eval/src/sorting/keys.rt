//! The columns by which positions are sorted.

ghost use Rattle.std.specs.Prelude.{◌≡◌, ℕ, List, Option, get_or, IfOk};
ghost use Rattle.std.specs.List.{slice_get};
ghost use Rattle.qc_types.specs.declared.names.Value.TheVariants as value;
ghost use Rattle.qc_resolve.specs.Meaning.{value_at};
ghost use Rattle.qc_eval.specs.Chosen.{chosen};
ghost use Rattle.qc_eval.specs.SortKeys.{positions_cmp, key_value, at_position, AreKeysOf, AreShown, IsColumn, IsKeyOf, IsShown, row_or_none};
ghost use Rattle.qc_eval.specs.Values.{cell_value};

use super::{Shown, SortKey};
use crate::comparison::order;
use crate::scene::at;
use qc_resolve::{OrderKey, Place};
use qc_sql::cells::Cell;
use qc_sql::tables::Kind;
use qc_table::TableVersion;
use qc_types::{NoMemory, Steps};
use std::alloc::Global;
use std::cmp::Ordering;
use std::marker::Model;
use std::sync::ledger::Ledger;

/// The columns by which positions are sorted, the first one first. Contracts see their list.
#[derive(Drop)]
pub struct SortKeys<'a> {
    keys: Vec<SortKey<'a>>,
}

impl<'a> Model for SortKeys<'a> {
    ghost use Rattle.std.specs.Prelude.{List};
    ghost use Rattle.qc_eval.specs.declared.sorting.SortKey.{SortKey};
    ghost use Rattle.qc_eval.specs.SortKeys.{AreShown};

    ghost Value = { List SortKey };

    ghost view = { λ s. s.keys.items };

    ghost invariant = { λ s. AreShown s.keys.items };
}

impl<'a> SortKeys<'a> {
    /// The columns that are named, as they are read.
    pub fn new<L: Ledger>(
        alloc: Global,
        tables: &'a [TableVersion],
        order: &[OrderKey],
        steps: &mut Steps<L>,
    ) -> Result<SortKeys<'a>, NoMemory>
        ensures { IfOk result (λ keys. AreKeysOf tables.now order.now keys) }
    {
        let keys = sort_keys(alloc, tables, order, steps)?;
        Ok(SortKeys { keys })
    }

    /// The order of two lists of positions.
    pub fn compare(&self, a: &[u32], b: &[u32]) -> Ordering
        ensures { result ≡ positions_cmp self.now a.now b.now }
    {
        compare(&self.keys, a, b)
    }
}

fn sort_keys<'a, L: Ledger>(
    alloc: Global,
    tables: &'a [TableVersion],
    order: &[OrderKey],
    steps: &mut Steps<L>,
) -> Result<Vec<SortKey<'a>>, NoMemory>
    ensures { IfOk result (λ keys. AreKeysOf tables.now order.now keys.items) }
{
    let mut keys = Vec::new(alloc);
    for key in order {
        keys.push(sort_key(tables, key, steps))?;
    }
    Ok(keys)
}

fn sort_key<'a, L: Ledger>(
    tables: &'a [TableVersion],
    key: &OrderKey,
    steps: &mut Steps<L>,
) -> SortKey<'a>
    ensures { IsKeyOf tables.now key.now result }
{
    SortKey {
        desc: key.desc,
        slot: key.place.slot,
        column: column_of(tables, key.place, steps),
    }
}

fn column_of<'a, L: Ledger>(
    tables: &'a [TableVersion],
    place: Place,
    steps: &mut Steps<L>,
) -> Option<Shown<'a>>
    ensures value { (rows : List ℕ) → at_position result (slice_get rows place.slot) ≡ value_at place (chosen tables.now rows) }
    ensures shown { IsShown result }
{
    let Some(table) = at(tables, place.slot) else {
        return None;
    };
    shown(table, place.column, steps)
}

fn shown<'a, L: Ledger>(
    table: &'a TableVersion,
    column: u8,
    steps: &mut Steps<L>,
) -> Option<Shown<'a>>
    ensures value { (i : Option ℕ) → at_position result i ≡ get_or (row_or_none table.now i) column value.Null }
    ensures shown { IsShown result }
{
    let columns = table.columns().items();
    let Some(of_table) = at(columns, column as usize) else {
        return None;
    };
    let number = match of_table.kind {
        Kind::Int => true,
        Kind::Str(_) => false,
    };
    let count = table.count();
    let view = table.column(column, steps);
    Some(Shown {
        view,
        count,
        number,
    })
}

fn compare(keys: &[SortKey<'_>], a: &[u32], b: &[u32]) -> Ordering
    requires { AreShown keys.now }
    ensures { result ≡ positions_cmp keys.now a.now b.now }
{
    for key in keys {
        let here = order(cell_of(key, a), cell_of(key, b));
        let here = if key.desc { here.reverse() } else { here };
        if here.is_ne() {
            return here;
        }
    }
    Ordering::Equal
}

/// The value of a key for some positions.
fn cell_of<'a>(key: &SortKey<'a>, rows: &[u32]) -> Cell<'a>
    requires { IsShown key.now.column }
    ensures { cell_value result ≡ key_value key.now rows.now }
{
    let Some(shown) = &key.column else {
        return Cell::Null;
    };
    match at(rows, key.slot) {
        Some(row) => cell_at(shown, *row),
        None => Cell::Null,
    }
}

fn cell_at<'a>(shown: &Shown<'a>, row: u32) -> Cell<'a>
    requires { IsColumn shown.now }
    ensures { cell_value result ≡ get_or shown.now.view.values row value.Null }
{
    if row >= shown.count {
        return Cell::Null;
    }
    if shown.number {
        return match shown.view.int(row) {
            Some(number) => Cell::Int(number),
            None => Cell::Null,
        };
    }
    match shown.view.text(row) {
        Some(text) => Cell::Str(text),
        None => Cell::Null,
    }
}
