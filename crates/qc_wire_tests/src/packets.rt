//! Packets that are written, against examples of the protocol's documentation and against bytes that were worked out by hand from it.

ghost use Rattle.std.specs.Prelude.{◌≤◌, length, IfOk};
ghost use Rattle.qc_sql.specs.Packets.{most_payload, column_payload, err_payload, row_payload};
ghost use Rattle.qc_wire.specs.Cells.{cell_texts};

use crate::told::{must, same};
use qc_sql::replies::ColumnDef;
use qc_types::{NoMemory, SqlError, Text};
use qc_wire::{Cell, RowCells, put_column, put_count, put_eof, put_err, put_ok, put_row};
use std::alloc::Global;
use std::process::Abort;

/// The status flag of a session with autocommit.
const AUTOCOMMIT: u16 = 2;

/// The documentation's example of a text result set: SELECT @@version_comment LIMIT 1.
const VERSION_COMMENT: &[u8] =
    b"\x01\0\0\x01\x01\x27\0\0\x02\x03def\0\0\0\x11@@version_comment\0\x0c\x08\0\x1c\0\0\0\xfd\0\0\x1f\0\0\x05\0\0\x03\xfe\0\0\x02\0\x1d\0\0\x04\x1cMySQL Community Server (GPL)\x05\0\0\x05\xfe\0\0\x02\0";

/// The documentation's example of an error.
const NO_TABLES_USED: &[u8] = b"\x17\0\0\x01\xff\x48\x04#HY000No tables used";

/// A text of at most 64 bytes.
fn short(rt: &impl Abort, alloc: Global, bytes: &[u8]) -> Text
    requires { length bytes.now ≤ 64 }
    ensures { length result ≤ 64 }
{
    must(rt, Text::of(alloc, bytes))
}

/// The column @@version_comment, which is of no table.
fn version_comment(rt: &impl Abort, alloc: Global) -> ColumnDef
    ensures { length (column_payload result) ≤ most_payload }
{
    ColumnDef {
        schema: short(rt, alloc, b""),
        table: short(rt, alloc, b""),
        org_table: short(rt, alloc, b""),
        name: short(rt, alloc, b"@@version_comment"),
        org_name: short(rt, alloc, b""),
        charset: 8,
        length: 28,
        kind: 0xfd,
        flags: 0,
        decimals: 0x1f,
    }
}

fn no_tables_used(rt: &impl Abort, alloc: Global) -> SqlError
    ensures { length (err_payload result) ≤ most_payload }
{
    SqlError {
        code: 1096,
        state: *b"HY000",
        message: short(rt, alloc, b"No tables used"),
    }
}

/// The cells of a row of one text.
fn text_cells(alloc: Global, text: &[u8]) -> Result<RowCells, NoMemory>
    requires { length text.now ≤ 1000000 }
    ensures { IfOk result (λ cells. length (row_payload (cell_texts cells)) ≤ most_payload) }
{
    let mut cells = RowCells::new(alloc);
    cells.push(Cell::Str(text))?;
    Ok(cells)
}

/// A text of no bytes.
fn empty(rt: &impl Abort, alloc: Global) -> Text {
    must(rt, Text::of(alloc, &[]))
}

#[test]
fn a_result_set_of_the_documentation(rt: HostRuntime) {
    let alloc = rt.alloc();
    let column = version_comment(&rt, alloc);
    let cells = must(&rt, text_cells(alloc, b"MySQL Community Server (GPL)"));
    let mut out = empty(&rt, alloc);
    must(&rt, put_count(alloc, 1, 1, &mut out));
    must(&rt, put_column(alloc, &column, 2, &mut out));
    must(&rt, put_eof(alloc, AUTOCOMMIT, 3, &mut out));
    must(&rt, put_row(alloc, &cells, 4, &mut out));
    must(&rt, put_eof(alloc, AUTOCOMMIT, 5, &mut out));
    same(&rt, out.bytes(), VERSION_COMMENT);
}

#[test]
fn an_error_of_the_documentation(rt: HostRuntime) {
    let error = no_tables_used(&rt, rt.alloc());
    let mut out = empty(&rt, rt.alloc());
    must(&rt, put_err(rt.alloc(), &error, 1, &mut out));
    same(&rt, out.bytes(), NO_TABLES_USED);
}

/// Lengths of a text, with how the packet begins of a row that has it alone, up to its first byte, and with how many bytes that packet has.
const TEXTS: &[(usize, &[u8], usize)] = &[
    (250, b"\xfb\0\0\x04\xfax", 255),
    (251, b"\xfe\0\0\x04\xfc\xfb\0x", 258),
    (65_535, b"\x02\0\x01\x04\xfc\xff\xffx", 65_542),
    (65_536, b"\x04\0\x01\x04\xfd\0\0\x01x", 65_544),
];

/// The packet of a row of one text of so many bytes x begins so, and has so many bytes.
fn text_row_is(rt: &impl Abort, alloc: Global, length: usize, front: &[u8], whole: usize)
    requires { length ≤ 1000000 }
{
    let text = must(rt, vec![in alloc; b'x'; length]);
    let cells = must(rt, text_cells(alloc, &text));
    let mut out = empty(rt, alloc);
    must(rt, put_row(alloc, &cells, 4, &mut out));
    same(rt, out.bytes().starts_with(front), true);
    same(rt, out.bytes().len(), whole);
}

#[test]
fn texts_at_the_borders_of_lengths(rt: HostRuntime) {
    for (length, front, whole) in TEXTS {
        assert!(rt; *length <= 1_000_000);
        text_row_is(&rt, rt.alloc(), *length, front, *whole);
    }
}

/// Numbers of affected rows, with the OK packet that tells them.
const OKS: &[(u64, &[u8])] = &[
    (0, b"\x07\0\0\x01\0\0\0\x02\0\0\0"),
    (250, b"\x07\0\0\x01\0\xfa\0\x02\0\0\0"),
    (251, b"\x09\0\0\x01\0\xfc\xfb\0\0\x02\0\0\0"),
    (65_535, b"\x09\0\0\x01\0\xfc\xff\xff\0\x02\0\0\0"),
    (65_536, b"\x0a\0\0\x01\0\xfd\0\0\x01\0\x02\0\0\0"),
    (16_777_215, b"\x0a\0\0\x01\0\xfd\xff\xff\xff\0\x02\0\0\0"),
    (
        16_777_216,
        b"\x0f\0\0\x01\0\xfe\0\0\0\x01\0\0\0\0\0\x02\0\0\0",
    ),
    (
        u64::MAX,
        b"\x0f\0\0\x01\0\xfe\xff\xff\xff\xff\xff\xff\xff\xff\0\x02\0\0\0",
    ),
];

fn ok_is(rt: &impl Abort, alloc: Global, affected: u64, want: &[u8]) {
    let mut out = empty(rt, alloc);
    must(rt, put_ok(alloc, affected, AUTOCOMMIT, 1, &mut out));
    same(rt, out.bytes(), want);
}

#[test]
fn numbers_at_the_borders_of_lengths(rt: HostRuntime) {
    for (affected, want) in OKS {
        ok_is(&rt, rt.alloc(), *affected, want);
    }
}
