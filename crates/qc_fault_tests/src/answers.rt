//! The replies that the tests want, byte for byte.

use qc_types::NoMemory;
use std::alloc::Global;

/// Replies by their names. Where a name says nothing else, autocommit is on and no transaction is open.
const REPLIES: &[(&str, &[u8])] = &[
    ("ok", b"\x07\0\0\x01\0\0\0\x02\0\0\0"),
    ("ok 1", b"\x07\0\0\x01\0\x01\0\x02\0\0\0"),
    ("ok 116", b"\x07\0\0\x01\0\x74\0\x02\0\0\0"),
    ("ok, open", b"\x07\0\0\x01\0\0\0\x03\0\0\0"),
    ("ok 1, open", b"\x07\0\0\x01\0\x01\0\x03\0\0\0"),
    ("ok, off", b"\x07\0\0\x01\0\0\0\0\0\0\0"),
    ("ok 1, off and open", b"\x07\0\0\x01\0\x01\0\x01\0\0\0"),
    (
        "no database",
        b"\x1d\0\0\x01\xff\x16\x04#3D000No database selected",
    ),
    (
        "unknown database",
        b"\x1c\0\0\x01\xff\x19\x04#42000Unknown database: d",
    ),
    (
        "no table",
        b"\x1b\0\0\x01\xff\x7a\x04#42S02No such table: d.t",
    ),
    (
        "8, open",
        b"\x01\0\0\x01\x01\x1d\0\0\x02\x03def\x01d\x01t\x01t\x02id\x02id\x0c\x3f\0\x14\0\0\0\x08\x03\0\0\0\0\x05\0\0\x03\xfe\0\0\x03\0\x02\0\0\x04\x018\x05\0\0\x05\xfe\0\0\x03\0",
    ),
];

/// The packets in front of the rows of a SELECT of the column `id`, which have 5, 33 and 9 bytes.
const FRONT: &[u8] =
    b"\x01\0\0\x01\x01\x1d\0\0\x02\x03def\x01d\x01t\x01t\x02id\x02id\x0c\x3f\0\x14\0\0\0\x08\x03\0\0\0\0\x05\0\0\x03\xfe\0\0\x02\0";

/// What stands behind them, by the rows.
const ROWS: &[(&str, &[u8])] = &[
    ("none", b"\x05\0\0\x04\xfe\0\0\x02\0"),
    ("7", b"\x02\0\0\x04\x017\x05\0\0\x05\xfe\0\0\x02\0"),
    ("8", b"\x02\0\0\x04\x018\x05\0\0\x05\xfe\0\0\x02\0"),
    (
        "7 8",
        b"\x02\0\0\x04\x017\x02\0\0\x05\x018\x05\0\0\x06\xfe\0\0\x02\0",
    ),
    (
        "7 8 9",
        b"\x02\0\0\x04\x017\x02\0\0\x05\x018\x02\0\0\x06\x019\x05\0\0\x07\xfe\0\0\x02\0",
    ),
];

/// Puts down the reply with this name, or nothing where there is none. `many` has the 116 rows from 1000 to 1115, which are 1,100 bytes in 120 packets.
pub(crate) fn put_reply(alloc: Global, name: &str, out: &mut Vec<u8>) -> Result<(), NoMemory> {
    for (known, bytes) in REPLIES {
        if *known == name {
            out.extend_from_slice(bytes)?;
        }
    }
    for (known, bytes) in ROWS {
        if *known == name {
            out.extend_from_slice(FRONT)?;
            out.extend_from_slice(bytes)?;
        }
    }
    if name == "many" {
        put_many(alloc, out)?;
    }
    Ok(())
}

fn put_many(alloc: Global, out: &mut Vec<u8>) -> Result<(), NoMemory> {
    out.extend_from_slice(FRONT)?;
    for row in 0..116u8 {
        out.extend_from_slice(&[5, 0, 0, row + 4, 4])?;
        let id = format!(in alloc; "{}", u16::from(row) + 1000)?;
        out.extend_from_slice(id.as_bytes())?;
    }
    out.extend_from_slice(b"\x05\0\0\x78\xfe\0\0\x02\0")?;
    Ok(())
}

/// The statement that inserts the 116 rows.
pub(crate) fn many_rows(alloc: Global) -> Result<String, NoMemory> {
    let mut text = String::from_str(alloc, "INSERT INTO d.t VALUES (1000)")?;
    for id in 1001..1116 {
        let row = format!(in alloc; ", ({id})")?;
        text.push_str(row.as_str())?;
    }
    Ok(text)
}
