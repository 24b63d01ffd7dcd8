//! CREATE TABLE.

ghost use Rattle.std.specs.Prelude.{◌≡◌, ◌==◌, ◌||◌, false, [], ◌∷◌, length, map, find, not, bytes_eq, option_copied, option_map, option_and_then, count_by, unwrap_or, IfOk};
ghost use Rattle.std.specs.List.{list_all, list_any, filter_map};
ghost use Rattle.qc_types.specs.Answers.{Gives};
ghost use Rattle.qc_sql.specs.Database.{is_int};
ghost use Rattle.qc_sql.specs.Effects as meant;
ghost use Rattle.qc_sql.specs.Rows.{first_repeated};
ghost use Rattle.qc_write.specs.Lists.{borrowed};
ghost use Rattle.qc_write.specs.Targets.{absent};
ghost use Rattle.qc_write.specs.Parts.{column_of, columns_of, names_of, kind_of, is_bad, is_bad_column, missing, columns_checked, columns_validated};

use crate::outcome::Effect;
use qc_resolve::check_database;
use qc_sql::errors::{
    duplicate_column, no_key_column, not_supported, table_exists, too_many_columns,
};
use qc_sql::names::full_name;
use qc_sql::statements::{Part, PartKind, TableRef};
use qc_sql::tables::{Column, Columns, Kind, RowOp};
use qc_table::Database;
use qc_types::{NoMemory, Or, SqlError, TableName, Text};
use std::alloc::Global;

/// The most columns of a table.
const MOST_COLUMNS: usize = 64;

/// The most bytes of a VARCHAR.
const LONGEST: u64 = 65_535;

/// A column as CREATE TABLE writes it.
#[derive(Drop)]
struct Written<'a> {
    name: &'a Text,
    kind: PartKind,
    not_null: bool,
    primary: bool,
}

/// What CREATE TABLE does: one operation. Refused with 1046, 1049 and 1050; with 1117 above 64 columns; with 1060 and 1072; with 1235 where there isn't
/// exactly one primary key, of numbers; and with 1235 for a VARCHAR of no bytes or of more than 65,535, in this order. Linear in the parts and, once
/// there are at most 64 columns, in these times the PRIMARY KEYs.
pub(crate) fn create_effect(
    alloc: Global,
    database: &Database,
    db: &[u8],
    table: &TableRef,
    parts: &[Part],
) -> Result<Effect, Or<SqlError>>
    ensures { Gives (λ e. e) (λ e. e) result (meant.create_effect database.now db.now table.now parts.now) }
{
    let name = full_name(alloc, db, table)?;
    check_absent(alloc, database, &name)?;
    let columns = new_columns(alloc, parts)?;
    Ok(Effect::of_one(alloc, RowOp::CreateTable(name, columns), 0)?)
}

/// Refuses a table whose database isn't there (1046, 1049), and one that is there (1050).
fn check_absent(alloc: Global, database: &Database, name: &TableName) -> Result<(), Or<SqlError>>
    ensures { Gives (λ _. tt) (λ e. e) result (absent database.now name.now) }
{
    check_database(alloc, database, name)?;
    if database.table(name).is_some() {
        return Err(Or::Other(table_exists(alloc, name)?));
    }
    Ok(())
}

/// The columns of a new table, or the first refusal of them.
fn new_columns(alloc: Global, parts: &[Part]) -> Result<Columns, Or<SqlError>>
    ensures { Gives (λ cs. cs) (λ e. e) result (columns_validated parts.now) }
{
    let written = written_columns(alloc, parts)?;
    let keys = key_names(alloc, parts)?;
    let written = written.as_slice();
    let keys = keys.as_slice();
    check_columns(alloc, written, keys)?;
    if has_bad_length(written) {
        return Err(Or::Other(not_supported(alloc, b"VARCHAR length")?));
    }
    Ok(marked_columns(alloc, written, keys)?)
}

/// The columns among the parts.
fn written_columns(alloc: Global, parts: &[Part]) -> Result<Vec<Written<'_>>, NoMemory>
    ensures columns { IfOk result (λ ws. columns_of ws.items ≡ filter_map meant.new_column parts.now) }
    ensures lengths { IfOk result (λ ws. list_any is_bad_column ws.items ≡ list_any meant.bad_length parts.now) }
{
    let mut written = Vec::new(alloc);
    for part in parts {
        if let Some(column) = written_column(part) {
            written.push(column)?;
        }
    }
    Ok(written)
}

fn written_column(part: &Part) -> Option<Written<'_>>
    ensures column { option_map column_of result ≡ meant.new_column part.now }
    ensures length { unwrap_or (option_map is_bad_column result) false ≡ meant.bad_length part.now }
{
    match part {
        Part::Column {
            name,
            kind,
            not_null,
            primary,
        } => Some(Written {
            name,
            kind: *kind,
            not_null: *not_null,
            primary: *primary,
        }),
        Part::Primary(_) => None,
    }
}

/// The names of PRIMARY KEY (name) among the parts.
fn key_names(alloc: Global, parts: &[Part]) -> Result<Vec<&Text>, NoMemory>
    ensures { IfOk result (λ ks. borrowed ks.items ≡ filter_map meant.new_key parts.now) }
{
    let mut keys = Vec::new(alloc);
    for part in parts {
        if let Part::Primary(name) = part {
            keys.push(name)?;
        }
    }
    Ok(keys)
}

/// Refuses too many columns, two of one name, a PRIMARY KEY of another name, and all but one primary key, of numbers.
fn check_columns(alloc: Global, written: &[Written<'_>], keys: &[&Text]) -> Result<(), Or<SqlError>>
    ensures { Gives (λ _. tt) (λ e. e) result (columns_checked (columns_of written.now) (borrowed keys.now)) }
{
    if written.len() > MOST_COLUMNS {
        return Err(Or::Other(too_many_columns(alloc)?));
    }
    if let Some(name) = first_repeated(written) {
        return Err(Or::Other(duplicate_column(alloc, name.bytes())?));
    }
    if let Some(name) = missing(written, keys) {
        return Err(Or::Other(no_key_column(alloc, name.bytes())?));
    }
    if !has_one_key(written, keys) {
        return Err(Or::Other(not_supported(alloc, b"primary key")?));
    }
    Ok(())
}

/// The first name that an earlier column has too.
fn first_repeated<'a>(written: &[Written<'a>]) -> Option<&'a Text>
    ensures { option_copied result ≡ first_repeated [] (names_of (columns_of written.now)) }
{
    for (i, column) in written.iter().enumerate() {
        if is_earlier(&written[..i], column.name) {
            return Some(column.name);
        }
    }
    None
}

fn is_earlier(written: &[Written<'_>], name: &Text) -> bool
    ensures { result ≡ list_any (bytes_eq name.now) (names_of (columns_of written.now)) }
{
    for column in written {
        if name.bytes() == column.name.bytes() {
            return true;
        }
    }
    false
}

/// The first PRIMARY KEY that names no column.
fn missing<'a>(written: &[Written<'_>], keys: &[&'a Text]) -> Option<&'a Text>
    ensures { option_copied result ≡ missing (columns_of written.now) (borrowed keys.now) }
{
    for key in keys {
        if !is_column(written, key) {
            return Some(key);
        }
    }
    None
}

fn is_column(written: &[Written<'_>], name: &Text) -> bool
    ensures { result ≡ list_any (λ c. bytes_eq c.name name.now) (columns_of written.now) }
{
    for column in written {
        if column.name.bytes() == name.bytes() {
            return true;
        }
    }
    false
}

/// Whether there is one primary key, of numbers.
fn has_one_key(written: &[Written<'_>], keys: &[&Text]) -> bool
    ensures { result ≡ meant.has_one_key (columns_of written.now) (borrowed keys.now) (map (meant.marked (borrowed keys.now)) (columns_of written.now)) }
{
    primary_count(written) + keys.len() == 1 && are_keys_numbers(written, keys)
}

fn primary_count(written: &[Written<'_>]) -> usize
    ensures { result ≡ count_by (λ c. c.primary) (columns_of written.now) }
{
    let mut count = 0;
    for column in written {
        if column.primary {
            count += 1;
        }
    }
    count
}

fn are_keys_numbers(written: &[Written<'_>], keys: &[&Text]) -> bool
    ensures { result ≡ list_all (λ c. not c.primary || is_int c.kind) (map (meant.marked (borrowed keys.now)) (columns_of written.now)) }
{
    for column in written {
        if is_primary(column, keys) && column.kind != PartKind::BigInt {
            return false;
        }
    }
    true
}

/// Whether a column is primary by itself or by a PRIMARY KEY.
fn is_primary(column: &Written<'_>, keys: &[&Text]) -> bool
    ensures { result ≡ (column.now.primary || list_any (bytes_eq column.now.name.now) (borrowed keys.now)) }
{
    column.primary || is_named(keys, column.name)
}

fn is_named(keys: &[&Text], name: &Text) -> bool
    ensures { result ≡ list_any (bytes_eq name.now) (borrowed keys.now) }
{
    for key in keys {
        if name.bytes() == key.bytes() {
            return true;
        }
    }
    false
}

fn has_bad_length(written: &[Written<'_>]) -> bool
    ensures { result ≡ list_any is_bad_column written.now }
{
    for column in written {
        if is_bad(column.kind) {
            return true;
        }
    }
    false
}

fn is_bad(kind: PartKind) -> bool
    ensures { result ≡ is_bad kind }
{
    match kind {
        PartKind::BigInt => false,
        PartKind::VarChar(length) => length == 0 || length > LONGEST,
    }
}

/// The columns, of which those that a PRIMARY KEY names are primary.
fn marked_columns(
    alloc: Global,
    written: &[Written<'_>],
    keys: &[&Text],
) -> Result<Columns, NoMemory>
    requires { list_any is_bad_column written.now ≡ false }
    ensures { IfOk result (λ cs. cs ≡ map (meant.marked (borrowed keys.now)) (columns_of written.now)) }
{
    let mut columns = Columns::new(alloc);
    for column in written {
        columns.push(marked_column(alloc, column, keys)?)?;
    }
    Ok(columns)
}

fn marked_column(alloc: Global, column: &Written<'_>, keys: &[&Text]) -> Result<Column, NoMemory>
    requires { is_bad column.now.kind ≡ false }
    ensures { IfOk result (λ c. c ≡ meant.marked (borrowed keys.now) (column_of column.now)) }
{
    let primary = is_primary(column, keys);
    Ok(Column {
        name: column.name.copy(alloc)?,
        kind: kind_of(column.kind),
        not_null: column.not_null || primary,
        primary,
    })
}

fn kind_of(kind: PartKind) -> Kind
    requires { is_bad kind ≡ false }
    ensures { result ≡ kind_of kind }
{
    match kind {
        PartKind::BigInt => Kind::Int,
        PartKind::VarChar(length) => Kind::Str(length as u16),
    }
}
