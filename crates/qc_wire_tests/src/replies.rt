//! Replies as a client library of MySQL reads them. The bytes were worked out by hand from the protocol.

use crate::told::{must, same};
use qc_sql::replies::{ColumnDef, Reply, TextRow};
use qc_types::{Or, SqlError, Text};
use qc_wire::WireRefusal::{BadSequence, Truncated};
use qc_wire::{WireRefusal, read_reply};
use std::alloc::Global;
use std::process::Abort;

/// The count of one column.
const ONE: &[u8] = b"\x01\0\0\x01\x01";

/// The column id of the table t of the database d: a key of type BIGINT.
const ID: &[u8] =
    b"\x1d\0\0\x02\x03def\x01d\x01t\x01t\x02id\x02id\x0c\x3f\0\x14\0\0\0\x08\x03\0\0\0\0";

/// A column of a value, named 1.
const VALUE: &[u8] = b"\x17\0\0\x03\x03def\0\0\0\x011\0\x0c\x21\0\xff\xff\0\0\xfd\0\0\0\0\0";

/// The EOF packet behind one column.
const EOF: &[u8] = b"\x05\0\0\x03\xfe\0\0\x02\0";

/// Replies that a stock client library accepts, and what they hold.
const ACCEPTED: &[(&[&[u8]], &[u8])] = &[
    (&[b"\x07\0\0\x01\0\0\0\x02\0\0\0"], b"ok 0 2"),
    (&[b"\x07\0\0\x01\0\xfa\0\x03\0\0\0"], b"ok 250 3"),
    (&[b"\x09\0\0\x01\0\xfc\xfb\0\0\x02\0\0\0"], b"ok 251 2"),
    (
        &[b"\x0f\0\0\x01\0\xfe\0\0\0\x01\0\0\0\0\0\x02\0\0\0"],
        b"ok 16777216 2",
    ),
    (
        &[b"\x1f\0\0\x01\xff\x28\x04#42000Syntax error at byte 0"],
        b"error 1064 42000 Syntax error at byte 0",
    ),
    (&[b"\x09\0\0\x01\xff\x17\x04#08S01"], b"error 1047 08S01 "),
    (
        &[ONE, ID, EOF, b"\x02\0\0\x04\x017\x05\0\0\x05\xfe\0\0\x02\0"],
        b"rows 2; d t t id id 63 20 8 3 0; '7'",
    ),
    // no row
    (
        &[ONE, ID, EOF, b"\x05\0\0\x04\xfe\0\0\x02\0"],
        b"rows 2; d t t id id 63 20 8 3 0",
    ),
    // two columns, NULL and empty texts, in a transaction
    (
        &[
            b"\x01\0\0\x01\x02",
            ID,
            VALUE,
            b"\x05\0\0\x04\xfe\0\0\x03\0\x04\0\0\x05\x02-5\0\x02\0\0\x06\xfb\xfb\x05\0\0\x07\xfe\0\0\x03\0",
        ],
        b"rows 3; d t t id id 63 20 8 3 0;    1  33 65535 253 0 0; '-5' ''; NULL NULL",
    ),
    // a row whose payload has five bytes, as an EOF has
    (
        &[
            ONE,
            ID,
            EOF,
            b"\x05\0\0\x04\x04\xfe\0\0\x02\x05\0\0\x05\xfe\0\0\x02\0",
        ],
        b"rows 2; d t t id id 63 20 8 3 0; '\xfe\0\0\x02'",
    ),
];

/// Bytes that it refuses, and why.
const REFUSED: &[(&[&[u8]], WireRefusal)] = &[
    // the connection ends
    (&[b"\x07\0\0"], Truncated(3)),
    (&[b"\x07\0\0\x01\0\0\0\x02\0\0"], Truncated(10)),
    (&[ONE, ID, EOF, b"\x02\0\0\x04\x017"], Truncated(53)),
    // packets are out of order
    (
        &[ONE, VALUE],
        BadSequence {
            found: 3,
            wanted: 2,
        },
    ),
    // a text is longer than its row, a name is longer than the definition, the error has no state
    (&[ONE, ID, EOF, b"\x02\0\0\x04\x027"], Truncated(53)),
    (&[ONE, b"\x06\0\0\x02\x03def\x03d"], Truncated(15)),
    (&[b"\x03\0\0\x01\xff\x17\x04"], Truncated(7)),
];

fn put(rt: &impl Abort, bytes: &[u8], out: &mut Text) {
    must(rt, out.extend(bytes))
}

/// A blank and a number in decimal digits.
fn put_number(rt: &impl Abort, alloc: Global, number: u64, out: &mut Text) {
    let digits = must(rt, number.to_string(alloc));
    put(rt, b" ", out);
    put(rt, digits.as_bytes(), out)
}

/// A blank and a name.
fn put_name(rt: &impl Abort, name: &Text, out: &mut Text) {
    put(rt, b" ", out);
    put(rt, name.bytes(), out)
}

fn put_error(rt: &impl Abort, alloc: Global, error: &SqlError, out: &mut Text) {
    put(rt, b"error", out);
    put_number(rt, alloc, u64::from(error.code), out);
    put(rt, b" ", out);
    put(rt, error.state.as_slice(), out);
    put_name(rt, &error.message, out)
}

fn put_column(rt: &impl Abort, alloc: Global, column: &ColumnDef, out: &mut Text) {
    put(rt, b";", out);
    put_name(rt, &column.schema, out);
    put_name(rt, &column.table, out);
    put_name(rt, &column.org_table, out);
    put_name(rt, &column.name, out);
    put_name(rt, &column.org_name, out);
    put_number(rt, alloc, u64::from(column.charset), out);
    put_number(rt, alloc, u64::from(column.length), out);
    put_number(rt, alloc, u64::from(column.kind), out);
    put_number(rt, alloc, u64::from(column.flags), out);
    put_number(rt, alloc, u64::from(column.decimals), out)
}

fn put_row(rt: &impl Abort, row: &TextRow, out: &mut Text) {
    put(rt, b";", out);
    for cell in row.items() {
        match cell {
            Some(text) => {
                put(rt, b" '", out);
                put(rt, text.bytes(), out);
                put(rt, b"'", out)
            }
            None => put(rt, b" NULL", out),
        }
    }
}

/// What a reply holds, in words.
fn put_reply(rt: &impl Abort, alloc: Global, reply: &Reply, out: &mut Text) {
    match reply {
        Reply::Ok { affected, status } => {
            put(rt, b"ok", out);
            put_number(rt, alloc, *affected, out);
            put_number(rt, alloc, u64::from(*status), out)
        }
        Reply::Err(error) => put_error(rt, alloc, error, out),
        Reply::Rows {
            columns,
            rows,
            status,
        } => {
            put(rt, b"rows", out);
            put_number(rt, alloc, u64::from(*status), out);
            for column in columns.items() {
                put_column(rt, alloc, column, out);
            }
            for row in rows.items() {
                put_row(rt, row, out);
            }
        }
    }
}

fn joined(rt: &impl Abort, alloc: Global, pieces: &[&[u8]]) -> Text {
    let mut bytes = must(rt, Text::of(alloc, &[]));
    for piece in pieces {
        put(rt, piece, &mut bytes);
    }
    bytes
}

/// These pieces together are the text of a reply that is shown so.
fn accepts(rt: &impl Abort, alloc: Global, pieces: &[&[u8]], want: &[u8]) {
    let bytes = joined(rt, alloc, pieces);
    let reply = must(rt, read_reply(alloc, bytes.bytes()));
    let mut shown = must(rt, Text::of(alloc, &[]));
    put_reply(rt, alloc, &reply, &mut shown);
    same(rt, shown.bytes(), want);
}

/// These pieces together are refused so.
fn refuses(rt: &impl Abort, alloc: Global, pieces: &[&[u8]], want: WireRefusal) {
    let bytes = joined(rt, alloc, pieces);
    match read_reply(alloc, bytes.bytes()) {
        Err(Or::Other(refusal)) => same(rt, refusal, want),
        _ => panic!(rt; "no refusal"),
    }
}

#[test]
fn replies_that_a_stock_client_accepts(rt: HostRuntime) {
    for (pieces, want) in ACCEPTED {
        accepts(&rt, rt.alloc(), pieces, want);
    }
}

#[test]
fn replies_that_a_stock_client_refuses(rt: HostRuntime) {
    for (pieces, want) in REFUSED {
        refuses(&rt, rt.alloc(), pieces, *want);
    }
}
