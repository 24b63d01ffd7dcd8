//! Replies, as MySQL's command-line client prints them.

use crate::fault::Fault;
use crate::plain::{put_count, put_repeated};
use qc_sql::replies::{ColumnDef, Reply, TextRow};
use qc_types::{Or, SqlError, Text};
use qc_wire::{WireRefusal, read_reply};
use std::alloc::Global;
use std::io::Write;
use unicode_width::UnicodeWidthChar;

/// The most bytes to which a cell is filled with spaces.
const MOST_FILLED: usize = 1024;

/// The flag of a column that is never NULL.
const NOT_NULL: u16 = 1;

/// A column of a table that is printed.
#[derive(Clone, Copy)]
struct Shape {
    width: usize,
    to_right: bool,
}

/// Puts what the client prints for the packets of a reply, without the time that it took. Packets that are no reply are told as such.
/// Linear in the packets, but that a cell is filled to the width of its column, to at most 1,024 bytes.
pub fn put_packets<W: Write>(alloc: Global, out: &mut W, packets: &[u8]) -> Result<(), Fault> {
    match read_reply(alloc, packets) {
        Ok(reply) => put_reply(alloc, out, &reply),
        Err(Or::Memory) => Err(Fault::Memory),
        Err(Or::Other(refusal)) => put_no_reply(out, refusal),
    }
}

fn put_no_reply<W: Write>(out: &mut W, refusal: WireRefusal) -> Result<(), Fault> {
    match refusal {
        WireRefusal::Truncated(place) => writeln!(
            out,
            "(no reply: it ends too early, at byte {place})"
        )?,
        WireRefusal::BadSequence { found, wanted } => writeln!(
            out,
            "(no reply: a packet has number {found} in place of {wanted})"
        )?,
        WireRefusal::NotMinimal(place) => writeln!(
            out,
            "(no reply: a length that isn't in its shortest form, at byte {place})"
        )?,
        WireRefusal::Trailing(place) => writeln!(
            out,
            "(no reply: something stands behind it, at byte {place})"
        )?,
        WireRefusal::BadByte(place) => writeln!(out, "(no reply: a wrong byte, at byte {place})")?,
    }
    Ok(())
}

/// Puts what the client prints for a reply.
fn put_reply<W: Write>(alloc: Global, out: &mut W, reply: &Reply) -> Result<(), Fault> {
    match reply {
        Reply::Ok { affected, .. } => {
            out.write_all(b"Query OK, ")?;
            put_count(out, *affected, "row", "rows")?;
            out.write_all(b" affected\n")?;
            Ok(())
        }
        Reply::Err(error) => put_error(out, error),
        Reply::Rows { columns, rows, .. } => put_rows(alloc, out, columns.items(), rows.items()),
    }
}

fn put_error<W: Write>(out: &mut W, error: &SqlError) -> Result<(), Fault> {
    let code = error.code;
    write!(out, "ERROR {code} (")?;
    out.write_all(&error.state)?;
    out.write_all(b"): ")?;
    out.write_all(error.message.bytes())?;
    out.write_all(b"\n")?;
    Ok(())
}

fn put_rows<W: Write>(
    alloc: Global,
    out: &mut W,
    columns: &[ColumnDef],
    rows: &[TextRow],
) -> Result<(), Fault> {
    if rows.is_empty() {
        out.write_all(b"Empty set\n")?;
        return Ok(());
    }
    let shapes = shapes_of(alloc, columns, rows)?;
    put_line(out, &shapes)?;
    put_names(out, columns, &shapes)?;
    put_line(out, &shapes)?;
    for row in rows {
        put_row(out, row.items(), &shapes)?;
    }
    put_line(out, &shapes)?;
    put_count(out, rows.len() as u64, "row", "rows")?;
    out.write_all(b" in set\n")?;
    Ok(())
}

/// Each column is as wide as the longest of its name and its texts in bytes, and has room for `NULL` where it may be NULL. Numbers stand to
/// the right.
fn shapes_of(alloc: Global, columns: &[ColumnDef], rows: &[TextRow]) -> Result<Vec<Shape>, Fault> {
    let mut shapes = Vec::new(alloc);
    for column in columns {
        let least = if column.flags & NOT_NULL == 0 { 4 } else { 0 };
        shapes.push(Shape {
            width: column.name.bytes().len().max(least),
            to_right: is_number(column.kind),
        })?;
    }
    for row in rows {
        for (shape, cell) in shapes.iter_mut().zip(row.items()) {
            if let Some(text) = cell {
                shape.width = shape.width.max(text.bytes().len());
            }
        }
    }
    Ok(shapes)
}

/// Whether a type of the protocol is one of numbers: from DECIMAL to NULL, BIGINT, MEDIUMINT, YEAR and the newer DECIMAL.
fn is_number(kind: u8) -> bool {
    matches!(kind, 0..=6 | 8 | 9 | 13 | 246)
}

fn put_line<W: Write>(out: &mut W, shapes: &[Shape]) -> Result<(), Fault> {
    for shape in shapes {
        out.write_all(b"+--")?;
        put_repeated(out, b'-', shape.width)?;
    }
    out.write_all(b"+\n")?;
    Ok(())
}

fn put_names<W: Write>(out: &mut W, columns: &[ColumnDef], shapes: &[Shape]) -> Result<(), Fault> {
    for (column, shape) in columns.iter().zip(shapes) {
        out.write_all(b"| ")?;
        put_filled(out, column.name.bytes(), shape.width, false)?;
        out.write_all(b" ")?;
    }
    out.write_all(b"|\n")?;
    Ok(())
}

fn put_row<W: Write>(out: &mut W, cells: &[Option<Text>], shapes: &[Shape]) -> Result<(), Fault> {
    for (cell, shape) in cells.iter().zip(shapes) {
        out.write_all(b"| ")?;
        put_filled(out, text_of(cell), shape.width, shape.to_right)?;
        out.write_all(b" ")?;
    }
    out.write_all(b"|\n")?;
    Ok(())
}

/// The text of a cell, which is `NULL` where it is NULL.
fn text_of(cell: &Option<Text>) -> &[u8] {
    match cell {
        Some(text) => text.bytes(),
        None => b"NULL",
    }
}

/// Puts a text in so many columns of the terminal, and in at most `MOST_FILLED` to the left.
fn put_filled<W: Write>(
    out: &mut W,
    text: &[u8],
    width: usize,
    to_right: bool,
) -> Result<(), Fault> {
    let spaces = width.min(MOST_FILLED).saturating_sub(columns_of(text));
    if to_right && width <= MOST_FILLED {
        put_repeated(out, b' ', spaces)?;
        put_raw(out, text)
    } else {
        put_raw(out, text)?;
        put_repeated(out, b' ', spaces)
    }
}

/// The columns that a text takes in a terminal. A control character takes one, and so does a byte that isn't UTF-8.
fn columns_of(text: &[u8]) -> usize {
    let mut columns = 0usize;
    for chunk in text.utf8_chunks() {
        columns = columns
            .saturating_add(columns_of_characters(chunk.valid()))
            .saturating_add(chunk.invalid().len());
    }
    columns
}

fn columns_of_characters(text: &str) -> usize {
    let mut columns = 0usize;
    for character in text.chars() {
        columns = columns.saturating_add(character.width().unwrap_or(1));
    }
    columns
}

/// Puts a text as it is, but for the byte 0, in place of which a space stands.
fn put_raw<W: Write>(out: &mut W, text: &[u8]) -> Result<(), Fault> {
    for (index, piece) in text.split(|byte| *byte == 0).enumerate() {
        if index != 0 {
            out.write_all(b" ")?;
        }
        out.write_all(piece)?;
    }
    Ok(())
}
