//! Small regions, whose blocks, chains and entries were worked out by hand.

use crate::steps::Step::{
    Chain, Complete, Cut, Enter, GiveBack, Grow, Has, Leave, MoveDown, NoTake, Oldest, Pin, Prune,
    PruneOn, Room, Start, Table, Take, Text, Touch, Trim, Unpin,
};
use crate::steps::{Step, take_steps};

/// What happens to regions of so many words.
const REGIONS: &[(u32, &[Step<'static>])] = &[
    // no words
    (
        0,
        &[
            NoTake(1, 64, 0),
            MoveDown(&[]),
            Has(0, 0, 0, 0),
            Room(0, 0, 0),
        ],
    ),
    // no block has fewer than 64 words
    (
        128,
        &[
            NoTake(129, 129, 128),
            Take(&[(1, 0, 64), (63, 64, 64)]),
            NoTake(1, 64, 0),
            GiveBack(&[(0, 64)]),
            NoTake(65, 65, 64),
            GiveBack(&[(64, 64)]),
            Take(&[(65, 0, 128)]),
            Trim(0, 128, 65, 128),
            Trim(0, 128, 1, 64),
            Has(2, 1, 64, 64),
        ],
    ),
    // the smallest and then the lowest is taken
    (
        1024,
        &[
            Take(&[(100, 0, 100), (64, 100, 64), (200, 164, 200)]),
            Take(&[(64, 364, 64), (100, 428, 100), (64, 528, 64)]),
            GiveBack(&[(164, 200), (428, 100), (0, 100)]),
            Take(&[(70, 0, 100), (70, 428, 100), (70, 164, 70)]),
            Take(&[(64, 234, 64), (67, 592, 67)]),
            Has(10, 2, 431, 365),
        ],
    ),
    // a table, a result that is cut to the words that its packets need, and a text
    (
        131_072,
        &[
            Take(&[(64, 0, 64), (512, 64, 512), (4, 576, 64)]),
            Trim(64, 512, 8, 64),
            Has(5, 2, 130_880, 130_432),
        ],
    ),
    // a table and a result fill the region, and no entry is there that could leave
    (
        128,
        &[
            Take(&[(64, 0, 64), (64, 64, 64)]),
            NoTake(4, 64, 0),
            Oldest(None),
            GiveBack(&[(64, 64), (0, 64)]),
            Has(1, 1, 128, 128),
        ],
    ),
    // the entry leaves that was completed first, for the text of a third one
    (
        384,
        &[
            Take(&[(64, 0, 64)]),
            Start(1, &["t"], 0, 64, 128),
            Complete(1),
            Start(2, &["t"], 0, 192, 256),
            Complete(2),
            Take(&[(64, 320, 64)]),
            NoTake(4, 64, 0),
            Oldest(Some(1)),
            Prune(1),
            Take(&[(4, 64, 64)]),
            Has(6, 1, 64, 64),
        ],
    ),
    // it was used once more, and the other one leaves
    (
        384,
        &[
            Take(&[(64, 0, 64)]),
            Start(1, &["t"], 0, 64, 128),
            Complete(1),
            Start(2, &["t"], 0, 192, 256),
            Complete(2),
            Touch(1),
            Take(&[(64, 320, 64)]),
            Oldest(Some(2)),
            Prune(2),
            Take(&[(4, 192, 64)]),
            Has(6, 1, 64, 64),
        ],
    ),
    // the entries on a table leave, and the table's block with the last of them
    (
        1024,
        &[
            Take(&[(64, 0, 64)]),
            Start(1, &["t"], 0, 64, 128),
            Take(&[(64, 192, 64)]),
            Start(2, &["t", "u", "t"], 192, 256, 320),
            Start(3, &["u"], 0, 384, 448),
            Room(5, 14, 13),
            Prune(1),
            Table("t", Some(0)),
            PruneOn("t", 1),
            Table("t", None),
            Table("u", Some(192)),
            Has(6, 3, 832, 512),
            PruneOn("u", 1),
            Has(1, 1, 1024, 1024),
            Room(8, 16, 16),
        ],
    ),
    // blocks go down, of a table, of results and of texts, but for one that is pinned
    (
        1024,
        &[
            Take(&[(64, 0, 64), (64, 64, 64)]),
            Start(1, &["t"], 64, 128, 192),
            Start(2, &["t"], 0, 256, 320),
            Start(3, &["t"], 0, 384, 448),
            GiveBack(&[(0, 64)]),
            Prune(2),
            Pin(384, 64),
            Has(8, 3, 704, 512),
            MoveDown(&[(64, 0, 64), (128, 64, 64), (192, 128, 64)]),
            Has(7, 2, 704, 512),
            Table("t", Some(0)),
            Chain(1, &[(64, 64)], 512),
            Text(1, Some(128)),
            Chain(3, &[(384, 64)], 512),
            Unpin(384, 64),
            MoveDown(&[(384, 192, 64), (448, 256, 64)]),
            Has(6, 1, 704, 704),
            Chain(3, &[(192, 64)], 512),
            Text(3, Some(256)),
        ],
    ),
    // a chain grows, is cut twice, and grows again
    (
        1024,
        &[
            Take(&[(64, 0, 64)]),
            Start(1, &["t"], 0, 64, 128),
            Grow(1, 192, 64),
            Grow(1, 256, 200),
            Chain(1, &[(64, 64), (192, 64), (256, 200)], 2624),
            Cut(1, 1825),
            Chain(1, &[(64, 64), (192, 64), (256, 101)], 1825),
            Has(6, 1, 667, 667),
            Cut(1, 1817),
            Chain(1, &[(64, 64), (192, 64), (256, 101)], 1817),
            Grow(1, 357, 64),
            Chain(1, &[(64, 64), (192, 64), (256, 101), (357, 64)], 2344),
            Prune(1),
            Has(1, 1, 1024, 1024),
        ],
    ),
    // the least recently used entry that is complete and has no user
    (
        1024,
        &[
            Take(&[(64, 0, 64)]),
            Start(1, &["t"], 0, 64, 128),
            Start(2, &["t"], 0, 192, 256),
            Start(3, &["t"], 0, 320, 384),
            Oldest(None),
            Complete(3),
            Complete(1),
            Complete(2),
            Oldest(Some(3)),
            Touch(3),
            Oldest(Some(1)),
            Enter(1),
            Oldest(Some(2)),
            Enter(2),
            Enter(2),
            Oldest(Some(3)),
            Leave(2),
            Oldest(Some(3)),
            Leave(2),
            Oldest(Some(2)),
            Leave(1),
            Oldest(Some(1)),
        ],
    ),
];

#[test]
fn small_regions_step_by_step(rt: HostRuntime) {
    for (words, steps) in REGIONS {
        take_steps(&rt, rt.alloc(), *words, *steps);
    }
}
