//! A put of a fill or of a hit fails, or wants memory.

use crate::faults::{Commands, ENDS, MANY_ROWS, ONE_ROW, Visit, at_put, whole};
use crate::player::{agree, sized, usual};
use crate::seats::must;
use qc_types::Options;
use std::alloc::Global;
use std::process::Abort;
use std::sync::Wait;

/// A session of four commands, the last of which is a SELECT whose reply breaks off.
#[derive(Clone, Copy)]
struct Broken<'a> {
    options: Options,
    commands: Commands,
    /// The number of the put that isn't done, and what went out before.
    put: u64,
    sent: &'a str,
    /// How the fill ended.
    gone: &'a str,
    /// What the next session sends, and what is told of it and its events.
    next: Commands,
    told: &'a str,
    events: &'a str,
}

/// Asserts what the session leaves, whose put fails, or wants memory.
fn breaks_off<R: Abort + Wait>(rt: &R, alloc: Global, broken: Broken<'_>) {
    for (wants, end) in ENDS {
        let visit = Visit {
            commands: broken.commands,
            fault: at_put(*wants, broken.put),
        };
        let wanted = must(
            rt,
            format!(in alloc;
                "1: {end}, {}\n1: EndOfInput, {}
commit 1 1; commit 1 2; commit 1 3; run 1 4 start 1; gone 1 {}; {}",
                broken.sent, broken.told, broken.gone, broken.events
            ),
        );
        let visits = [visit, whole(broken.next)];
        agree(rt, alloc, broken.options, 0, &visits, &[wanted.as_str()]);
    }
}

/// So many bytes of a reply are kept at most. The put that isn't done, of which the first three are no fill's; what went out before; and how the fill of the reply of
/// 62 bytes ended.
const LIMITS: &[(u32, u64, &str, &str)] = &[
    (62, 4, "33 bytes, 3 at rest", "ended"),
    (62, 5, "38 bytes, 3 at rest, 1 at fill 1", "ended"),
    (62, 6, "71 bytes, 3 at rest, 2 at fill 1", "ended"),
    (62, 7, "80 bytes, 3 at rest, 3 at fill 1", "ended"),
    (62, 8, "86 bytes, 3 at rest, 4 at fill 1", "ended"),
    (61, 7, "80 bytes, 3 at rest, 3 at fill 1", "ended"),
    (61, 8, "86 bytes, 3 at rest, 4 at fill 1", "toolarge 62 61"),
    (50, 6, "71 bytes, 3 at rest, 2 at fill 1", "ended"),
    (50, 7, "80 bytes, 3 at rest, 3 at fill 1", "toolarge 53 50"),
    (
        50,
        8,
        "86 bytes, 3 at rest, 3 at fill 1, 1 at rest",
        "toolarge 53 50",
    ),
];

/// At each put the entry is given up, once, by its size or with its session, and its blocks are free.
#[test]
fn a_fill_breaks_off(rt: HostRuntime) {
    for (limit, put, sent, gone) in LIMITS {
        let broken = Broken {
            options: sized(1_048_576, *limit, 4096),
            commands: ONE_ROW,
            put: *put,
            sent,
            gone,
            next: &[("SELECT SQL_NO_CACHE id FROM d.t", "7")],
            told: "62 bytes, 5 at rest",
            events: "run 1 5 plain notasked; blocks 1 1 1048576\n",
        };
        breaks_off(&rt, rt.alloc(), broken);
    }
}

/// A region of four blocks: the table, the text and two result blocks fill it, and the packet 112 of the 120 asks for a third one.
const WITHOUT_ROOM: &[(u64, &str, &str)] = &[
    (114, "1043 bytes, 3 at rest, 110 at fill 1", "ended"),
    (115, "1052 bytes, 3 at rest, 111 at fill 1", "noroom 64 0"),
    (
        116,
        "1061 bytes, 3 at rest, 111 at fill 1, 1 at rest",
        "noroom 64 0",
    ),
];

/// A fill without room ends once.
#[test]
fn a_fill_without_room_breaks_off(rt: HostRuntime) {
    for (put, sent, gone) in WITHOUT_ROOM {
        let broken = Broken {
            options: sized(2048, 1_048_576, 512),
            commands: MANY_ROWS,
            put: *put,
            sent,
            gone,
            next: &[("SELECT SQL_NO_CACHE id FROM d.t", "many")],
            told: "1100 bytes, 120 at rest",
            events: "run 1 5 plain notasked; blocks 1 1 2048\n",
        };
        breaks_off(&rt, rt.alloc(), broken);
    }
}

/// The bytes of three OKs and of so many packets of the reply with the 116 rows.
fn bytes_of(packets: u64) -> u64 {
    match packets {
        0 => 33,
        1 => 38,
        2 => 71,
        _ => packets.saturating_mul(9).saturating_add(53),
    }
}

/// At each of 120 puts of an entry of three blocks its blocks are free when its session has ended, and the next same SELECT begins another one.
#[test]
fn a_long_fill_breaks_off(rt: HostRuntime) {
    let alloc = rt.alloc();
    for packets in 0..120u64 {
        let bytes = bytes_of(packets);
        let sent = match packets {
            0 => format!(in alloc; "{bytes} bytes, 3 at rest"),
            _ => format!(in alloc; "{bytes} bytes, 3 at rest, {packets} at fill 1"),
        };
        let sent = must(&rt, sent);
        let broken = Broken {
            options: sized(8192, 1_048_576, 512),
            commands: MANY_ROWS,
            put: packets + 4,
            sent: sent.as_str(),
            gone: "ended",
            next: &[
                ("SELECT id FROM d.t", "many"),
                ("SELECT id FROM d.t", "many"),
            ],
            told: "2200 bytes, 120 at fill 2, 3 at stream 2",
            events: "run 1 5 start 2; done 2; run 1 6 hit 2; blocks 6 1 5632\n",
        };
        breaks_off(&rt, alloc, broken);
    }
}

/// The SELECT, whose reply goes out in pieces of 512, 512 and 76 bytes.
const HIT: Commands = &[("SELECT id FROM d.t", "many")];

/// What is told of the first session.
const TOLD: &str = "1: EndOfInput, 1133 bytes, 3 at rest, 120 at fill 1\n1: ";

/// What went out before the put with this number, which isn't done.
const PUTS_OF_A_HIT: &[(u64, &str)] = &[
    (1, ", 0 bytes"),
    (2, ", 512 bytes, 1 at stream 1"),
    (3, ", 1024 bytes, 2 at stream 1"),
];

/// The blocks are those of the entry: one of its table, one of 138 words with its reply, one of its text, and what is free between and behind them.
const AFTER_A_HIT: &str = "
1: EndOfInput, 1100 bytes, 3 at stream 1
commit 1 1; commit 1 2; commit 1 3; run 1 4 start 1; done 1; run 1 5 hit 1; run 1 6 hit 1; blocks 5 2 1046448
";

/// A front of the reply went out. The Hit is the session's last event; the entry still hits, and has the blocks that it had.
#[test]
fn a_hit_breaks_off(rt: HostRuntime) {
    for (wants, end) in ENDS {
        for (put, sent) in PUTS_OF_A_HIT {
            let broken = Visit {
                commands: HIT,
                fault: at_put(*wants, *put),
            };
            let visits = [whole(MANY_ROWS), broken, whole(HIT)];
            let wanted = [TOLD, end, sent, AFTER_A_HIT];
            agree(&rt, rt.alloc(), usual(), 0, &visits, &wanted);
        }
    }
}
