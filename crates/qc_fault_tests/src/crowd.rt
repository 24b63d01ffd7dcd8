//! As many sessions are connected as there may be, and one seat more.

use crate::faults::Fault::{Nothing, Put};
use crate::faults::{ONE_ROW, Visit};
use crate::player::{agree, sized};

/// A session breaks off in a fill, and the next one on its seat in a hit.
const VISITS: &[Visit] = &[
    Visit {
        commands: ONE_ROW,
        fault: Put(6),
    },
    Visit {
        commands: &[("SELECT id FROM d.t", "7"), ("SELECT id FROM d.t", "7")],
        fault: Put(6),
    },
    Visit {
        commands: &[("SELECT id FROM d.t", "7")],
        fault: Nothing,
    },
];

const AFTER: &str = "seat 66: 1040 08004 Too many connections
1: WriteFault, 71 bytes, 3 at rest, 2 at fill 1
1: WriteFault, 62 bytes, 5 at fill 2
1: EndOfInput, 62 bytes, 1 at stream 2
commit 1 1; commit 1 2; commit 1 3; run 1 4 start 1; gone 1 ended; run 1 5 start 2; done 2; run 1 6 hit 2; run 1 7 hit 2; blocks 4 1 6656
";

/// Each session on the seat has the number 1 and goes on counting, beside 63 others and a seat that may not connect.
#[test]
fn one_of_64_sessions_breaks_off(rt: HostRuntime) {
    let options = sized(8192, 1_048_576, 512);
    agree(&rt, rt.alloc(), options, 64, VISITS, &[AFTER]);
}
