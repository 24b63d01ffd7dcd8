//! A session's stream is cut at each byte, a read of it fails, or a put of its replies; then another session begins on its seat.

use crate::faults::{Commands, ENDS, Fault, Visit, at_put, whole};
use crate::player::{agree, sized};
use crate::seats::must;
use std::alloc::Global;
use std::process::Abort;
use std::sync::Wait;

/// Five commands, whose packets have 121 bytes.
const COMMANDS: Commands = &[
    ("CREATE DATABASE d", "ok 1"),
    ("init d", "ok"),
    ("CREATE TABLE t (id BIGINT PRIMARY KEY)", "ok"),
    ("INSERT INTO t VALUES (7)", "ok 1"),
    ("SELECT id FROM t", "7"),
];

/// What is left of the first so many of the commands.
struct Left {
    /// How many bytes their packets have.
    bytes: usize,
    /// What they were answered.
    sent: &'static str,
    /// What the next session sends, and is answered.
    next: Commands,
    /// What is told of it, and the events of both. An entry has three blocks of 512 bytes, of the region's 8,192.
    told: &'static str,
    events: &'static str,
}

const NOWHERE: Commands = &[
    ("init d", "unknown database"),
    ("SELECT id FROM t", "no database"),
];

const NO_TABLE: Commands = &[("init d", "ok"), ("SELECT id FROM t", "no table")];

const NO_ROW: Commands = &[("init d", "ok"), ("SELECT id FROM t", "none")];

const A_ROW: Commands = &[("init d", "ok"), ("SELECT id FROM t", "7")];

const LEFT: &[Left] = &[
    Left {
        bytes: 0,
        sent: "0 bytes",
        next: NOWHERE,
        told: "65 bytes, 2 at rest",
        events: "run 1 1 other; run 1 2 plain error 1046; blocks 1 1 8192",
    },
    Left {
        bytes: 22,
        sent: "11 bytes, 1 at rest",
        next: NO_TABLE,
        told: "42 bytes, 2 at rest",
        events: "commit 1 1; run 1 2 other; run 1 3 plain error 1146; blocks 1 1 8192",
    },
    Left {
        bytes: 28,
        sent: "22 bytes, 2 at rest",
        next: NO_TABLE,
        told: "42 bytes, 2 at rest",
        events: "commit 1 1; run 1 2 other; run 1 3 other; run 1 4 plain error 1146; blocks 1 1 8192",
    },
    Left {
        bytes: 71,
        sent: "33 bytes, 3 at rest",
        next: NO_ROW,
        told: "67 bytes, 1 at rest, 4 at fill 1",
        events: "commit 1 1; run 1 2 other; commit 1 3; run 1 4 other; run 1 5 start 1; done 1; blocks 4 1 6656",
    },
    Left {
        bytes: 100,
        sent: "44 bytes, 4 at rest",
        next: A_ROW,
        told: "73 bytes, 1 at rest, 5 at fill 1",
        events: "commit 1 1; run 1 2 other; commit 1 3; commit 1 4; run 1 5 other; run 1 6 start 1; done 1; blocks 4 1 6656",
    },
    Left {
        bytes: 121,
        sent: "106 bytes, 4 at rest, 5 at fill 1",
        next: A_ROW,
        told: "73 bytes, 1 at rest, 1 at stream 1",
        events: "commit 1 1; run 1 2 other; commit 1 3; commit 1 4; run 1 5 start 1; done 1; run 1 6 other; run 1 7 hit 1; blocks 4 1 6656",
    },
    // the fill of the SELECT has broken off
    Left {
        bytes: BROKEN,
        sent: "",
        next: A_ROW,
        told: "73 bytes, 1 at rest, 5 at fill 2",
        events: "commit 1 1; run 1 2 other; commit 1 3; commit 1 4; run 1 5 start 1; gone 1 ended; run 1 6 other; run 1 7 start 2; done 2; blocks 4 1 6656",
    },
];

/// Stands for the bytes of the last of these, which aren't told.
const BROKEN: usize = 1_000;

/// Where the commands begin of which one stands at this byte, or behind it no other.
fn start_of(bytes: usize) -> usize {
    let mut start = 0;
    for left in LEFT {
        if left.bytes <= bytes {
            start = left.bytes;
        }
    }
    start
}

/// Asserts how a session ends whose commands are whole up to this byte, and what is left. What it was sent is the answers, or is given.
fn asserts<R: Abort + Wait>(
    rt: &R,
    alloc: Global,
    fault: Fault,
    end: &str,
    bytes: usize,
    given: Option<&str>,
) {
    let visit = Visit {
        commands: COMMANDS,
        fault,
    };
    let start = start_of(bytes);
    for left in LEFT {
        if left.bytes == start {
            let sent = given.unwrap_or(left.sent);
            let wanted = must(
                rt,
                format!(in alloc;
                    "1: {end}, {sent}\n1: EndOfInput, {}\n{}\n",
                    left.told, left.events
                ),
            );
            let visits = [visit, whole(left.next)];
            let options = sized(8192, 1_048_576, 512);
            agree(rt, alloc, options, 0, &visits, &[wanted.as_str()]);
        }
    }
}

/// Behind a whole command the stream is at its end, and else it is cut behind so many bytes of a packet. The whole commands are answered.
#[test]
fn a_stream_is_cut(rt: HostRuntime) {
    let alloc = rt.alloc();
    for bytes in 0..122usize {
        let rest = bytes.wrapping_sub(start_of(bytes));
        let cut = must(&rt, format!(in alloc; "Cut({rest})"));
        let end = if rest == 0 {
            "EndOfInput"
        } else {
            cut.as_str()
        };
        asserts(&rt, alloc, Fault::Cut(bytes), end, bytes, None);
    }
}

/// Where a read fails, the replies before are whole, and no later command has an event. Each read gives a byte.
#[test]
fn a_read_of_a_byte_fails(rt: HostRuntime) {
    for bytes in 0..122usize {
        let fault = Fault::ReadOfByte(bytes as u64 + 1);
        asserts(&rt, rt.alloc(), fault, "ReadFault", bytes, None);
    }
}

/// The same where a read gives a header or a payload, here by the bytes in front of its command. The last one finds the end.
#[test]
fn a_read_of_a_part_fails(rt: HostRuntime) {
    let reads = [0, 0, 22, 22, 28, 28, 71, 71, 100, 100, 121];
    for (place, bytes) in reads.iter().enumerate() {
        let fault = Fault::Read((place as u64).wrapping_add(1));
        asserts(&rt, rt.alloc(), fault, "ReadFault", *bytes, None);
    }
}

/// What went out before each put, which isn't done, and how many bytes the commands have that were done. Each of the first four replies has a packet, and the last
/// one five.
const PUTS: &[(u64, &str, usize)] = &[
    (1, "0 bytes", 22),
    (2, "11 bytes, 1 at rest", 28),
    (3, "22 bytes, 2 at rest", 71),
    (4, "33 bytes, 3 at rest", 100),
    (5, "44 bytes, 4 at rest", BROKEN),
    (6, "49 bytes, 4 at rest, 1 at fill 1", BROKEN),
    (7, "82 bytes, 4 at rest, 2 at fill 1", BROKEN),
    (8, "91 bytes, 4 at rest, 3 at fill 1", BROKEN),
    (9, "97 bytes, 4 at rest, 4 at fill 1", BROKEN),
];

/// Where a put isn't done, the replies before are whole, and no later command has an event. Its own command was done.
#[test]
fn a_put_fails(rt: HostRuntime) {
    for (wants, end) in ENDS {
        for (put, sent, bytes) in PUTS {
            let fault = at_put(*wants, *put);
            asserts(&rt, rt.alloc(), fault, end, *bytes, Some(sent));
        }
    }
}

/// Bytes that are no packet of a command, or that end the session, each with how it ends.
const TAILS: &[(&[u8], &str)] = &[
    (&[0xff, 0xff, 0xff, 0], "TooLong(16777215)"),
    (&[0xff, 0xff, 0xff, 1], "TooLong(16777215)"),
    (&[0xff, 0xff, 0xff], "Cut(3)"),
    (&[0, 0, 1, 0], "Cut(4)"),
    (&[1, 0, 0, 1, 14], "BadSequence { found: 1, wanted: 0 }"),
    (&[1, 0, 0, 0, 1, 1, 0, 0, 0, 14], "Quit"),
];

/// They stand behind each number of whole commands, which are answered.
#[test]
fn bytes_stand_behind_commands(rt: HostRuntime) {
    for bytes in [0, 22, 28, 71, 100, 121] {
        for (tail, end) in TAILS {
            let fault = Fault::Tail(bytes, tail);
            asserts(&rt, rt.alloc(), fault, end, bytes, None);
        }
    }
}
