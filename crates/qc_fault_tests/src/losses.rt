//! A reply is lost that is no hit and no fill, or a session ends in a transaction.

use crate::faults::Fault::{Cut, Nothing, Put, Read, Tail};
use crate::faults::{Commands, ENDS, Fault, ONE_ROW, Visit, at_put, whole};
use crate::player::{agree, usual};

/// What is told of a session that makes an entry of one row, and its events.
const TOLD: &str = "1: EndOfInput, 95 bytes, 3 at rest, 5 at fill 1\n1: ";

const EVENTS: &str = "\ncommit 1 1; commit 1 2; commit 1 3; run 1 4 start 1; done 1; ";

/// Commands, each with the events behind the entry's, of which the last is the next session's hit, and with the blocks. A flush moves the block of the entry's text.
const COMMANDS: &[(Commands, &str)] = &[
    (&[("BEGIN", "")], OTHER),
    (&[("ROLLBACK", "")], OTHER),
    (&[("SET autocommit = 0", "")], OTHER),
    (&[("USE d", "")], OTHER),
    (&[("init d", "")], OTHER),
    (&[("INSERT INTO d.t VALUES (7)", "")], OTHER),
    (&[("SET NAMES utf8", "")], NONE),
    (&[("SELEC 1", "")], NONE),
    (&[("unknown", "")], NONE),
    (
        &[("SELECT x FROM d.t", "")],
        "run 1 5 plain error 1054; run 1 6 hit 1; blocks 5 2 1047040\n",
    ),
    (
        &[("SELECT 1", "")],
        "run 1 5 plain; run 1 6 hit 1; blocks 5 2 1047040\n",
    ),
    (
        &[("SELECT SQL_NO_CACHE id FROM d.t", "7")],
        "run 1 5 plain notasked; run 1 6 hit 1; blocks 5 2 1047040\n",
    ),
    (
        &[("SHOW STATUS LIKE 'Qcache%'", "")],
        "run 1 5 status; run 1 6 hit 1; blocks 5 2 1047040\n",
    ),
    (
        &[("FLUSH QUERY CACHE", "")],
        "flush 1 5; run 1 6 hit 1; blocks 4 1 1047040\n",
    ),
];

const OTHER: &str = "run 1 5 other; run 1 6 hit 1; blocks 5 2 1047040\n";

const NONE: &str = "run 1 5 hit 1; blocks 5 2 1047040\n";

/// A command whose reply is lost has its event all the same; the entry still hits.
#[test]
fn replies_are_lost(rt: HostRuntime) {
    for (wants, end) in ENDS {
        for (commands, events) in COMMANDS {
            let broken = Visit {
                commands,
                fault: at_put(*wants, 1),
            };
            let visits = [
                whole(ONE_ROW),
                broken,
                whole(&[("SELECT id FROM d.t", "7")]),
            ];
            let lines = ", 0 bytes\n1: EndOfInput, 62 bytes, 1 at stream 1";
            let wanted = [TOLD, end, lines, EVENTS, events];
            agree(&rt, rt.alloc(), usual(), 0, &visits, &wanted);
        }
    }
}

/// The reply of an INSERT is lost, whose commit stands; that of a SELECT in a transaction, which is lost with its session; and that of a COMMIT, which stands.
const COMMITS: &[Visit] = &[
    Visit {
        commands: &[
            ("CREATE DATABASE d", "ok 1"),
            ("CREATE TABLE d.t (id BIGINT PRIMARY KEY)", "ok"),
            ("INSERT INTO d.t VALUES (7)", "ok 1"),
            ("INSERT INTO d.t VALUES (8)", "ok 1"),
        ],
        fault: Put(4),
    },
    Visit {
        commands: &[
            ("SELECT id FROM d.t", "7 8"),
            ("BEGIN", "ok, open"),
            ("INSERT INTO d.t VALUES (9)", "ok 1, open"),
            ("SELECT id FROM d.t", ""),
        ],
        fault: Put(9),
    },
    Visit {
        commands: &[
            ("SELECT id FROM d.t", "7 8"),
            ("BEGIN", "ok, open"),
            ("INSERT INTO d.t VALUES (9)", "ok 1, open"),
            ("COMMIT", ""),
        ],
        fault: Put(4),
    },
    Visit {
        commands: &[("SELECT id FROM d.t", "7 8 9")],
        fault: Nothing,
    },
];

const COMMITTED: &[&str] = &[
    "1: WriteFault, 33 bytes, 3 at rest\n",
    "1: WriteFault, 90 bytes, 6 at fill 1, 2 at rest\n",
    "1: WriteFault, 90 bytes, 1 at stream 1, 2 at rest\n",
    "1: EndOfInput, 74 bytes, 7 at fill 2\n",
    "commit 1 1; commit 1 2; commit 1 3; commit 1 4; ",
    "run 1 5 start 1; done 1; run 1 6 other; run 1 7 other; run 1 8 plain written; ",
    "run 1 9 hit 1; run 1 10 other; run 1 11 other; commit 1 12; ",
    "run 1 13 start 2; done 2; blocks 5 2 1047040\n",
];

/// A commit whose reply is lost was made, and what wasn't committed ends with its session.
#[test]
fn replies_of_commits_are_lost(rt: HostRuntime) {
    agree(&rt, rt.alloc(), usual(), 0, COMMITS, COMMITTED);
}

/// A transaction that deletes the row and inserts another one, and then selects it. The packets of the first three commands have 74 bytes.
const CHANGES: Commands = &[
    ("BEGIN", "ok, open"),
    ("DELETE FROM d.t WHERE id = 7", "ok 1, open"),
    ("INSERT INTO d.t VALUES (8)", "ok 1, open"),
    ("SELECT id FROM d.t", "8, open"),
];

/// The same without the SELECT, in a transaction that opens by itself.
const CHANGES_OF_ITSELF: Commands = &[
    ("SET autocommit = 0", "ok, off"),
    ("DELETE FROM d.t WHERE id = 7", "ok 1, off and open"),
    ("INSERT INTO d.t VALUES (8)", "ok 1, off and open"),
];

/// The next session finds the entry, and writes both rows.
const NEXT: Commands = &[
    ("SELECT id FROM d.t", "7"),
    ("DELETE FROM d.t WHERE id = 7", "ok 1"),
    ("INSERT INTO d.t VALUES (8)", "ok 1"),
    ("SELECT id FROM d.t", "8"),
];

/// What is told of it; the events of both, without the SELECT; and those with it.
const NEXT_TOLD: &str = "\n1: EndOfInput, 146 bytes, 1 at stream 1, 2 at rest, 5 at fill 2";

const CHANGED: &str =
    "run 1 5 other; run 1 6 other; run 1 7 other; run 1 8 hit 1; commit 1 9; commit 1 10; run 1 11 start 2; done 2; blocks 5 2 1047040\n";

const SELECTED: &str =
    "run 1 5 other; run 1 6 other; run 1 7 other; run 1 8 plain written; run 1 9 hit 1; commit 1 10; commit 1 11; run 1 12 start 2; done 2; blocks 5 2 1047040\n";

/// What happens behind the first three commands, and how the session ends.
const WAYS: &[(Commands, Fault, &str)] = &[
    (CHANGES, Cut(74), "EndOfInput"),
    (CHANGES, Cut(76), "Cut(2)"),
    (CHANGES, Read(7), "ReadFault"),
    (CHANGES, Tail(74, &[1, 0, 0, 0, 1]), "Quit"),
    (CHANGES, Tail(74, &[255, 255, 255, 0]), "TooLong(16777215)"),
    (
        CHANGES,
        Tail(74, &[1, 0, 0, 1, 14]),
        "BadSequence { found: 1, wanted: 0 }",
    ),
    (CHANGES_OF_ITSELF, Nothing, "EndOfInput"),
];

/// There is no Commit of a transaction that is open when its session ends, and its rows can be written by others.
#[test]
fn a_transaction_ends_with_its_session(rt: HostRuntime) {
    for (commands, fault, end) in WAYS {
        let broken = Visit {
            commands,
            fault: *fault,
        };
        let visits = [whole(ONE_ROW), broken, whole(NEXT)];
        let sent = ", 33 bytes, 3 at rest";
        let wanted = [TOLD, end, sent, NEXT_TOLD, EVENTS, CHANGED];
        agree(&rt, rt.alloc(), usual(), 0, &visits, &wanted);
    }
}

/// What went out before the put with this number, which isn't done, and the events.
const PUTS: &[(u64, &str, &str)] = &[
    (3, ", 22 bytes, 2 at rest", CHANGED),
    (4, ", 33 bytes, 3 at rest", SELECTED),
    (5, ", 38 bytes, 4 at rest", SELECTED),
    (7, ", 80 bytes, 6 at rest", SELECTED),
    (8, ", 86 bytes, 7 at rest", SELECTED),
];

/// The session breaks off in a reply of its transaction, the last one that of a SELECT of its own row.
#[test]
fn a_transaction_ends_in_a_reply(rt: HostRuntime) {
    for (wants, end) in ENDS {
        for (put, sent, events) in PUTS {
            let broken = Visit {
                commands: CHANGES,
                fault: at_put(*wants, *put),
            };
            let visits = [whole(ONE_ROW), broken, whole(NEXT)];
            let wanted = [TOLD, end, sent, NEXT_TOLD, EVENTS, events];
            agree(&rt, rt.alloc(), usual(), 0, &visits, &wanted);
        }
    }
}
