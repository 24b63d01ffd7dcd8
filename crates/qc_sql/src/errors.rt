//! The errors of the profile, each by its code, its state and its text.

ghost use Rattle.std.specs.Prelude.{◌≡◌, ◌++◌, codes, decimal, take, IfOk};
ghost use Rattle.std.specs.Fmt.{signed_decimal};
ghost use Rattle.qc_sql.specs.Errors as errors;
ghost use Rattle.qc_sql.specs.Errors.{error_of, dotted};

use qc_types::{NoMemory, SqlError, TableName, Text};
use std::alloc::Global;

/// How many bytes of an unknown database's name are told.
const TOLD: usize = 64;

/// 1007: CREATE DATABASE names a database that is there.
pub fn database_exists(alloc: Global, name: &[u8]) -> Result<SqlError, NoMemory>
    ensures { IfOk result (λ e. e ≡ errors.database_exists name.now) }
{
    error_with(alloc, 1007, b"HY000", b"Database exists: ", name)
}

/// 1008: DROP DATABASE names none that is there.
pub fn no_database_to_drop(alloc: Global, name: &[u8]) -> Result<SqlError, NoMemory>
    ensures { IfOk result (λ e. e ≡ errors.no_database_to_drop name.now) }
{
    error_with(alloc, 1008, b"HY000", b"No such database to drop: ", name)
}

/// 1040: all seats have a session.
pub fn too_many_connections(alloc: Global) -> Result<SqlError, NoMemory>
    ensures { IfOk result (λ e. e ≡ errors.too_many_connections) }
{
    error(alloc, 1040, b"08004", b"Too many connections")
}

/// 1046: a table has no database before its name, and the session has no current one.
pub fn no_database_selected(alloc: Global) -> Result<SqlError, NoMemory>
    ensures { IfOk result (λ e. e ≡ errors.no_database_selected) }
{
    error(alloc, 1046, b"3D000", b"No database selected")
}

/// 1047: a payload is no command.
pub fn unknown_command(alloc: Global) -> Result<SqlError, NoMemory>
    ensures { IfOk result (λ e. e ≡ errors.unknown_command) }
{
    error(alloc, 1047, b"08S01", b"Unknown command")
}

/// 1048: NULL for a column that takes none.
pub fn null_column(alloc: Global, name: &[u8]) -> Result<SqlError, NoMemory>
    ensures { IfOk result (λ e. e ≡ errors.null_column name.now) }
{
    error_with(alloc, 1048, b"23000", b"Column cannot be null: ", name)
}

/// 1049: a database that isn't there. Of a longer name the first 64 bytes are told.
pub fn unknown_database(alloc: Global, name: &[u8]) -> Result<SqlError, NoMemory>
    ensures { IfOk result (λ e. e ≡ errors.unknown_database name.now) }
{
    error_with(
        alloc,
        1049,
        b"42000",
        b"Unknown database: ",
        &name[..TOLD.min(name.len())],
    )
}

/// 1050: CREATE TABLE names a table that is there.
pub fn table_exists(alloc: Global, table: &TableName) -> Result<SqlError, NoMemory>
    ensures { IfOk result (λ e. e ≡ errors.table_exists table.now) }
{
    error_of_table(alloc, 1050, b"42S01", b"Table exists: ", table)
}

/// 1051: DROP TABLE names none that is there.
pub fn unknown_table(alloc: Global, table: &TableName) -> Result<SqlError, NoMemory>
    ensures { IfOk result (λ e. e ≡ errors.unknown_table table.now) }
{
    error_of_table(alloc, 1051, b"42S02", b"Unknown table: ", table)
}

/// 1052: a column that two tables of FROM have.
pub fn ambiguous_column(alloc: Global, name: &[u8]) -> Result<SqlError, NoMemory>
    ensures { IfOk result (λ e. e ≡ errors.ambiguous_column name.now) }
{
    error_with(alloc, 1052, b"23000", b"Column is ambiguous: ", name)
}

/// 1054: a column that no table has.
pub fn unknown_column(alloc: Global, name: &[u8]) -> Result<SqlError, NoMemory>
    ensures { IfOk result (λ e. e ≡ errors.unknown_column name.now) }
{
    error_with(alloc, 1054, b"42S22", b"Unknown column: ", name)
}

/// 1060: CREATE TABLE names a column twice.
pub fn duplicate_column(alloc: Global, name: &[u8]) -> Result<SqlError, NoMemory>
    ensures { IfOk result (λ e. e ≡ errors.duplicate_column name.now) }
{
    error_with(alloc, 1060, b"42S21", b"Duplicate column: ", name)
}

/// 1062: a row whose key is there.
pub fn duplicate_entry(alloc: Global, key: i64) -> Result<SqlError, NoMemory>
    ensures { IfOk result (λ e. e ≡ errors.duplicate_entry key) }
{
    let digits = key.to_string(alloc)?;
    error_with(
        alloc,
        1062,
        b"23000",
        b"Duplicate entry: ",
        digits.as_bytes(),
    )
}

/// 1064: a text that is no statement, by the byte at which it goes wrong, from 0.
pub fn syntax_error(alloc: Global, at: u64) -> Result<SqlError, NoMemory>
    ensures { IfOk result (λ e. e ≡ errors.syntax_error at) }
{
    error_at(alloc, 1064, b"42000", b"Syntax error at byte ", at)
}

/// 1066: two tables of FROM under one name.
pub fn name_not_unique(alloc: Global, name: &[u8]) -> Result<SqlError, NoMemory>
    ensures { IfOk result (λ e. e ≡ errors.name_not_unique name.now) }
{
    error_with(alloc, 1066, b"42000", b"Table name is not unique: ", name)
}

/// 1072: PRIMARY KEY names a column that the table lacks.
pub fn no_key_column(alloc: Global, name: &[u8]) -> Result<SqlError, NoMemory>
    ensures { IfOk result (λ e. e ≡ errors.no_key_column name.now) }
{
    error_with(alloc, 1072, b"42000", b"Key column is not there: ", name)
}

/// 1104: the tables of FROM have too many combinations of rows.
pub fn too_many_combinations(alloc: Global) -> Result<SqlError, NoMemory>
    ensures { IfOk result (λ e. e ≡ errors.too_many_combinations) }
{
    error(alloc, 1104, b"42000", b"Too many row combinations")
}

/// 1110: INSERT or UPDATE names a column twice.
pub fn column_named_twice(alloc: Global, name: &[u8]) -> Result<SqlError, NoMemory>
    ensures { IfOk result (λ e. e ≡ errors.column_named_twice name.now) }
{
    error_with(alloc, 1110, b"42000", b"Column named twice: ", name)
}

/// 1114: a table has as many rows as it may have.
pub fn table_full(alloc: Global, table: &TableName) -> Result<SqlError, NoMemory>
    ensures { IfOk result (λ e. e ≡ errors.table_full table.now) }
{
    error_of_table(alloc, 1114, b"HY000", b"Table is full: ", table)
}

/// 1116: a statement names too many tables.
pub fn too_many_tables(alloc: Global) -> Result<SqlError, NoMemory>
    ensures { IfOk result (λ e. e ≡ errors.too_many_tables) }
{
    error(alloc, 1116, b"HY000", b"Too many tables")
}

/// 1117: a table or a result would have too many columns.
pub fn too_many_columns(alloc: Global) -> Result<SqlError, NoMemory>
    ensures { IfOk result (λ e. e ≡ errors.too_many_columns) }
{
    error(alloc, 1117, b"HY000", b"Too many columns")
}

/// 1136: a row of INSERT has too many values or too few, by its number, from 1.
pub fn wrong_value_count(alloc: Global, row: u64) -> Result<SqlError, NoMemory>
    ensures { IfOk result (λ e. e ≡ errors.wrong_value_count row) }
{
    error_at(
        alloc,
        1136,
        b"21S01",
        b"Wrong number of values in row ",
        row,
    )
}

/// 1146: a table that its database lacks.
pub fn no_such_table(alloc: Global, table: &TableName) -> Result<SqlError, NoMemory>
    ensures { IfOk result (λ e. e ≡ errors.no_such_table table.now) }
{
    error_of_table(alloc, 1146, b"42S02", b"No such table: ", table)
}

/// 1193: SET of a variable that there is none of.
pub fn unknown_variable(alloc: Global, name: &[u8]) -> Result<SqlError, NoMemory>
    ensures { IfOk result (λ e. e ≡ errors.unknown_variable name.now) }
{
    error_with(alloc, 1193, b"HY000", b"Unknown system variable: ", name)
}

/// 1213: a transaction changed what another one has changed since it began.
pub fn write_conflict(alloc: Global) -> Result<SqlError, NoMemory>
    ensures { IfOk result (λ e. e ≡ errors.write_conflict) }
{
    error(
        alloc,
        1213,
        b"40001",
        b"Write conflict; transaction rolled back",
    )
}

/// 1231: SET of a variable to a value that it can't have.
pub fn wrong_value(alloc: Global, name: &[u8]) -> Result<SqlError, NoMemory>
    ensures { IfOk result (λ e. e ≡ errors.wrong_value name.now) }
{
    error_with(alloc, 1231, b"42000", b"Wrong value for variable: ", name)
}

/// 1235: a statement that is read and not carried out, by what it asks for.
pub fn not_supported(alloc: Global, what: &[u8]) -> Result<SqlError, NoMemory>
    ensures { IfOk result (λ e. e ≡ errors.not_supported what.now) }
{
    error_with(alloc, 1235, b"42000", b"Not supported: ", what)
}

/// 1364: INSERT has no value for a column that has no other.
pub fn value_needed(alloc: Global, name: &[u8]) -> Result<SqlError, NoMemory>
    ensures { IfOk result (λ e. e ≡ errors.value_needed name.now) }
{
    error_with(alloc, 1364, b"HY000", b"Column needs a value: ", name)
}

/// 1406: a text that is longer than its column allows.
pub fn too_long(alloc: Global, name: &[u8]) -> Result<SqlError, NoMemory>
    ensures { IfOk result (λ e. e ≡ errors.too_long name.now) }
{
    error_with(alloc, 1406, b"22001", b"Value too long for column: ", name)
}

/// database.table
fn dotted(alloc: Global, table: &TableName) -> Result<Text, NoMemory>
    ensures { IfOk result (λ t. t ≡ dotted table.now) }
{
    let mut text = table.db.copy(alloc)?;
    text.extend(b".")?;
    text.extend(table.name.bytes())?;
    Ok(text)
}

fn error(alloc: Global, code: u16, state: &[u8; 5], text: &[u8]) -> Result<SqlError, NoMemory>
    ensures { IfOk result (λ e. e ≡ error_of code state.now text.now) }
{
    Ok(SqlError {
        code,
        state: *state,
        message: Text::of(alloc, text)?,
    })
}

/// An error that tells these bytes behind its text.
fn error_with(
    alloc: Global,
    code: u16,
    state: &[u8; 5],
    text: &[u8],
    told: &[u8],
) -> Result<SqlError, NoMemory>
    ensures { IfOk result (λ e. e ≡ error_of code state.now (text.now ++ told.now)) }
{
    let mut message = Text::of(alloc, text)?;
    message.extend(told)?;
    Ok(SqlError {
        code,
        state: *state,
        message,
    })
}

/// An error that tells a table behind its text.
fn error_of_table(
    alloc: Global,
    code: u16,
    state: &[u8; 5],
    text: &[u8],
    table: &TableName,
) -> Result<SqlError, NoMemory>
    ensures { IfOk result (λ e. e ≡ error_of code state.now (text.now ++ dotted table.now)) }
{
    let dotted = dotted(alloc, table)?;
    error_with(alloc, code, state, text, dotted.bytes())
}

/// An error that tells a place behind its text, by its number.
fn error_at(
    alloc: Global,
    code: u16,
    state: &[u8; 5],
    text: &[u8],
    place: u64,
) -> Result<SqlError, NoMemory>
    ensures { IfOk result (λ e. e ≡ error_of code state.now (text.now ++ decimal place)) }
{
    let digits = place.to_string(alloc)?;
    error_with(alloc, code, state, text, digits.as_bytes())
}
