//! Hashes that FNV's authors published, and a key that was written by hand.

use crate::told::{must, same};
use qc_key::{Flags, KeyParts, can_be_keyed, hash, key_bytes, read_key};
use std::alloc::Global;
use std::process::Abort;

/// Texts with their hashes, as FNV's authors published them.
const PUBLISHED: &[(&[u8], u64)] = &[
    (b"", 0xcbf29ce484222325),
    (b"a", 0xaf63dc4c8601ec8c),
    (b"b", 0xaf63df4c8601f1a5),
    (b"fo", 0x08985907b541d342),
    (b"foo", 0xdcb27518fed9d577),
    (b"fooba", 0xcac165afa2fef40a),
    (b"foobar", 0x85944171f73967e8),
];

#[test]
fn published_hashes(rt: HostRuntime) {
    for (bytes, wanted) in PUBLISHED {
        same(&rt, hash(bytes), *wanted);
    }
}

/// SELECT id FROM t in the database d, outside of a transaction, with autocommit, utf8, no ANSI quotes, and no limit of rows.
const SELECT_KEY: &[u8] =
    b"\x01\x64\0\x01\x21\0\0\xff\xff\xff\xff\xff\xff\xff\xff\0\0\x53\x45\x4c\x45\x43\x54\x20\x69\x64\x20\x46\x52\x4f\x4d\x20\x74";

/// The same in no database, in a transaction without autocommit, with utf8mb4, ANSI quotes and a limit of 1,000 rows.
const OTHER_KEY: &[u8] =
    b"\0\x01\0\x2d\0\x01\xe8\x03\0\0\0\0\0\0\0\0\x53\x45\x4c\x45\x43\x54\x20\x69\x64\x20\x46\x52\x4f\x4d\x20\x74";

fn key_is(rt: &impl Abort, alloc: Global, flags: Flags, db: &[u8], want: &[u8]) {
    let text: &[u8] = b"SELECT id FROM t";
    assert!(rt; can_be_keyed(&flags, db));
    let written = must(rt, key_bytes(alloc, &flags, db, text));
    same(rt, written.bytes(), want);
    same(rt, read_key(want), Some(KeyParts { flags, db, text }));
}

#[test]
fn keys_of_a_select(rt: HostRuntime) {
    let plain = Flags {
        in_trans: false,
        autocommit: true,
        charset: 33,
        ansi: false,
        row_limit: u64::MAX,
        protocol_form: 0,
        row_form: 0,
    };
    key_is(&rt, rt.alloc(), plain, b"d", SELECT_KEY);
    let other = Flags {
        in_trans: true,
        autocommit: false,
        charset: 45,
        ansi: true,
        row_limit: 1000,
        ..plain
    };
    key_is(&rt, rt.alloc(), other, b"", OTHER_KEY);
}
