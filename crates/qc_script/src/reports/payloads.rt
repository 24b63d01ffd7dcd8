//! The bytes of rows and of columns, as the operations of a report have them.

ghost use Rattle.std.specs.Prelude.{◌≡◌, ◌≤◌, ◌++◌, map, length, IfOk, OnOk};
ghost use Rattle.std.specs.List.{flat_map, All};
ghost use Rattle.qc_sql.specs.Packets.{encoded_integer, encoded_string, encoded_cell, row_payload};
ghost use Rattle.qc_sql.specs.Rows.{text_of, column_flags};
ghost use Rattle.qc_model.specs.ReportText.{kind_bytes, column_bytes};
ghost use Rattle.qc_script.specs.ShortNames.{HasShortName};

use qc_sql::tables::{Column, Kind};
use qc_types::{NoMemory, Text, Value};
use std::alloc::Global;

/// The payload of the packet that a stored row would have. It takes time linear in the payload.
pub fn row_bytes(alloc: Global, row: &[Value]) -> Result<Text, NoMemory>
    ensures { IfOk result (λ payload. payload ≡ row_payload (map text_of row.now)) }
{
    let mut payload = Text::of(alloc, &[])?;
    for value in row {
        put_cell(alloc, value, &mut payload)?;
    }
    Ok(payload)
}

/// The columns of a table: of each its name behind its length, its kind and its flags. It takes time linear in the bytes.
pub fn columns_bytes(alloc: Global, columns: &[Column]) -> Result<Text, NoMemory>
    requires { All HasShortName columns.now }
    ensures { IfOk result (λ bytes. bytes ≡ flat_map column_bytes columns.now) }
{
    let mut bytes = Text::of(alloc, &[])?;
    for column in columns {
        put_column(column, &mut bytes)?;
    }
    Ok(bytes)
}

fn put_cell(alloc: Global, value: &Value, out: &mut Text) -> Result<(), NoMemory>
    ensures { OnOk result (out.new ≡ out.old ++ encoded_cell (text_of value.now)) }
{
    match value {
        Value::Null => out.extend(&[0xfb]),
        Value::Int(number) => put_string(number.to_string(alloc)?.as_bytes(), out),
        Value::Str(text) => put_string(text.bytes(), out),
    }
}

// A length-encoded string.
#[tactic(auto, unfolding(qc_sql::specs::Packets::encoded_string))]
fn put_string(bytes: &[u8], out: &mut Text) -> Result<(), NoMemory>
    ensures { OnOk result (out.new ≡ out.old ++ encoded_string bytes.now) }
{
    put_integer(bytes.len() as u64, out)?;
    out.extend(bytes)
}

// A length-encoded integer.
#[tactic(auto, unfolding(qc_sql::specs::Packets::encoded_integer))]
fn put_integer(number: u64, out: &mut Text) -> Result<(), NoMemory>
    ensures { OnOk result (out.new ≡ out.old ++ encoded_integer number) }
{
    let bytes = number.to_le_bytes();
    if number < 251 {
        out.extend(&[number as u8])
    } else if number < 1 << 16 {
        out.extend(&[0xfc])?;
        out.extend(&bytes[..2])
    } else if number < 1 << 24 {
        out.extend(&[0xfd])?;
        out.extend(&bytes[..3])
    } else {
        out.extend(&[0xfe])?;
        out.extend(&bytes)
    }
}

fn put_column(column: &Column, out: &mut Text) -> Result<(), NoMemory>
    requires { HasShortName column.now }
    ensures { OnOk result (out.new ≡ out.old ++ column_bytes column.now) }
{
    let name = column.name.bytes();
    out.extend(&[name.len() as u8])?;
    out.extend(name)?;
    put_kind(column.kind, out)?;
    out.extend(&[flags_of(column)])
}

fn put_kind(kind: Kind, out: &mut Text) -> Result<(), NoMemory>
    ensures { OnOk result (out.new ≡ out.old ++ kind_bytes kind) }
{
    match kind {
        Kind::Int => out.extend(&[0, 0, 0]),
        Kind::Str(longest) => {
            out.extend(&[1])?;
            out.extend(&longest.to_le_bytes())
        }
    }
}

fn flags_of(column: &Column) -> u8
    ensures { result ≡ column_flags column.now }
{
    if column.primary {
        3
    } else if column.not_null {
        1
    } else {
        0
    }
}
