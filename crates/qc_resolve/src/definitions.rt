//! Definitions of result columns.

ghost use Rattle.std.specs.Prelude.{◌≡◌, IfOk, unwrap_or};
ghost use Rattle.qc_sql.specs.Rows as meant;
ghost use Rattle.qc_resolve.specs.Columns.{found_at};
ghost use Rattle.qc_resolve.specs.Validated.{definition_for, in_table, names_of, plain_def};
ghost use Rattle.qc_resolve.specs.Views.{spot_of, sort_of, validated_of};

use crate::columns::Found;
use crate::values::{Origin, Sort, Valued};
use qc_sql::replies::ColumnDef;
use qc_sql::session::Flags;
use qc_sql::statements::Item;
use qc_sql::tables::{Column, Kind};
use qc_types::{NoMemory, Text};
use std::alloc::Global;

/// The collation of numbers.
const BINARY: u16 = 63;

/// The type bytes of the protocol.
const LONGLONG: u8 = 0x08;

const NEWDECIMAL: u8 = 0xf6;

const VAR_STRING: u8 = 0xfd;

/// The most bytes of a BIGINT, of a sum of such, and of a text.
const INT_BYTES: u32 = 20;

const SUM_BYTES: u32 = 41;

const TEXT_BYTES: u32 = 65535;

/// The names of a column in its table, and of the table.
#[derive(Drop)]
pub struct ColumnNames {
    pub schema: Text,
    pub table: Text,
    pub org_table: Text,
    pub org_name: Text,
}

/// How the result tells the column of an item. A column that has no name given goes by its own, and another value by its words.
pub fn definition(
    alloc: Global,
    flags: &Flags,
    item: &Item,
    value: &Valued<'_>,
) -> Result<ColumnDef, NoMemory>
    ensures { IfOk result (λ d. d ≡ definition_for flags.now item.now (validated_of value.now)) }
{
    let words = item.words.bytes();
    match &value.origin {
        Origin::Computed => of_sort(alloc, flags, value.sort, name_or(item, words)),
        Origin::Summed => number_def(alloc, SUM_BYTES, NEWDECIMAL, 0, name_or(item, words)),
        Origin::Itself(found) => {
            let own = found.column.name.bytes();
            of_column(alloc, flags, found, name_or(item, own))
        }
        Origin::BestOf(found) => {
            kind_def(alloc, flags, found.column.kind, 0, name_or(item, words))
        }
    }
}

/// A column, under this name.
pub fn of_column(
    alloc: Global,
    flags: &Flags,
    found: &Found<'_>,
    name: &[u8],
) -> Result<ColumnDef, NoMemory>
    ensures { IfOk result (λ d. d ≡ meant.of_column flags.now (found_at (spot_of found.now)) name.now) }
{
    let names = names_of(alloc, found)?;
    let column = found.column;
    let base = kind_def(alloc, flags, column.kind, column_flags(column), name)?;
    Ok(in_table(names, base))
}

fn names_of(alloc: Global, found: &Found<'_>) -> Result<ColumnNames, NoMemory>
    ensures { IfOk result (λ names. names ≡ names_of (found_at (spot_of found.now))) }
{
    let column = found.column;
    let bound = found.bound;
    Ok(ColumnNames {
        schema: bound.name.db.copy(alloc)?,
        table: bound.called.copy(alloc)?,
        org_table: bound.name.name.copy(alloc)?,
        org_name: column.name.copy(alloc)?,
    })
}

/// A column of no table, as one that is called so in its table.
fn in_table(names: ColumnNames, base: ColumnDef) -> ColumnDef
    ensures { result ≡ in_table names base }
{
    ColumnDef {
        schema: names.schema,
        table: names.table,
        org_table: names.org_table,
        org_name: names.org_name,
        ..base
    }
}

fn of_sort(alloc: Global, flags: &Flags, sort: Sort, name: &[u8]) -> Result<ColumnDef, NoMemory>
    ensures { IfOk result (λ d. d ≡ meant.of_sort flags.now (sort_of sort) name.now) }
{
    match sort {
        Sort::Number => number_def(alloc, INT_BYTES, LONGLONG, 0, name),
        Sort::Words | Sort::Nothing => words_def(alloc, flags, TEXT_BYTES, 0, name),
    }
}

/// As a column of a kind is told, with these flags.
fn kind_def(
    alloc: Global,
    flags: &Flags,
    kind: Kind,
    bits: u16,
    name: &[u8],
) -> Result<ColumnDef, NoMemory>
    ensures { IfOk result (λ d. d ≡ meant.kind_def flags.now kind bits name.now) }
{
    match kind {
        Kind::Int => number_def(alloc, INT_BYTES, LONGLONG, bits, name),
        Kind::Str(most) => words_def(alloc, flags, u32::from(most), bits, name),
    }
}

fn number_def(
    alloc: Global,
    length: u32,
    kind: u8,
    flags: u16,
    name: &[u8],
) -> Result<ColumnDef, NoMemory>
    ensures { IfOk result (λ d. d ≡ meant.number_def length kind flags name.now) }
{
    plain_def(alloc, BINARY, length, kind, flags, name)
}

fn words_def(
    alloc: Global,
    flags: &Flags,
    length: u32,
    bits: u16,
    name: &[u8],
) -> Result<ColumnDef, NoMemory>
    ensures { IfOk result (λ d. d ≡ meant.words_def flags.now length bits name.now) }
{
    plain_def(alloc, flags.charset, length, VAR_STRING, bits, name)
}

/// A column of no table.
fn plain_def(
    alloc: Global,
    charset: u16,
    length: u32,
    kind: u8,
    flags: u16,
    name: &[u8],
) -> Result<ColumnDef, NoMemory>
    ensures { IfOk result (λ d. d ≡ plain_def charset length kind flags name.now) }
{
    Ok(ColumnDef {
        schema: Text::of(alloc, &[])?,
        table: Text::of(alloc, &[])?,
        org_table: Text::of(alloc, &[])?,
        name: Text::of(alloc, name)?,
        org_name: Text::of(alloc, &[])?,
        charset,
        length,
        kind,
        flags,
        decimals: 0,
    })
}

/// 1 for NOT NULL, and 2 for the primary key.
fn column_flags(column: &Column) -> u16
    ensures { result ≡ meant.column_flags column.now }
{
    if column.primary {
        3
    } else if column.not_null {
        1
    } else {
        0
    }
}

/// The name that an item is given, or else this one.
fn name_or<'a>(item: &'a Item, own: &'a [u8]) -> &'a [u8]
    ensures { result.now ≡ unwrap_or item.now.name own.now }
{
    match &item.name {
        Some(name) => name.bytes(),
        None => own,
    }
}
