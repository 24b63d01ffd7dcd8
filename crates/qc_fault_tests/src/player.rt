//! Sessions, one after another on one seat, while others are connected: what they tell.

ghost use Rattle.std.specs.Prelude.{◌≡◌, ◌+◌, ◌<◌, length};
ghost use Rattle.qc_turn.specs.Seats.{IsSeatOf, view};
ghost use Rattle.qc_serve.specs.Connecting.{MayConnect};
ghost use Rattle.qc_fault_tests.specs.Seats.{IsFirst, MeetsMore};

use crate::answers::put_reply;
use crate::faults::{Commands, Visit};
use crate::seats::{begin, join, must, open, part};
use crate::told::{event_told, session_told};
use qc_core::Server;
use qc_journal::Journal;
use qc_serve::{Piece, Ungated, serve};
use qc_turn::{Seat, Turn};
use qc_types::{NoMemory, Options, Steps};
use std::alloc::Global;
use std::marker::Brand;
use std::process::Abort;
use std::sync::Wait;
use std::sync::ledger::{Blank, Ledger};

/// The options with these bytes of memory, of the longest reply and of a result block.
pub(crate) fn sized(size: u32, limit: u32, unit: u32) -> Options {
    Options {
        size,
        limit,
        unit,
        kind: 1,
    }
}

/// The options with which the program starts.
pub(crate) fn usual() -> Options {
    sized(1_048_576, 1_048_576, 4096)
}

/// The bytes of the replies to commands.
fn wanted_of(alloc: Global, commands: Commands) -> Result<Vec<u8>, NoMemory> {
    let mut bytes = Vec::new(alloc);
    for (_, reply) in commands {
        put_reply(alloc, reply, &mut bytes)?;
    }
    Ok(bytes)
}

/// Asserts that pieces are a front of the wanted replies.
fn has_front(rt: &impl Abort, alloc: Global, visit: Visit, pieces: &[Piece]) {
    let wanted = must(rt, wanted_of(alloc, visit.commands));
    let mut rest = wanted.as_slice();
    for piece in pieces {
        let bytes = piece.bytes.bytes();
        match rest.strip_prefix(bytes) {
            Some(behind) => rest = behind,
            None => panic!(rt; "not {bytes:?}"),
        }
    }
}

/// A session on a seat, from its beginning to its end, and a line that tells it. Its steps are counted on this ledger.
fn visit_by<R: Abort + Wait, L: Ledger>(
    rt: &R,
    alloc: Global,
    turn: &Turn<Server>,
    seat: Seat<Server>,
    options: &Options,
    visit: Visit,
    lines: &mut String,
    blank: Blank,
) -> Seat<Server>
    requires seat { MayConnect turn.now options.now seat }
    requires name { blank.name ≡ L.name }
    requires parts { blank.parts ≡ L.parts }
    requires one { 0 < blank.parts }
    ensures { MayConnect turn.now options.now result × ((view result).number ≡ (view seat).number) }
{
    let mut source = must(rt, visit.source(alloc));
    let mut sink = visit.sink(alloc);
    let mut steps = Steps::<L>::new(blank);
    let session = begin(rt, alloc, turn, seat, options);
    let session = serve(
        rt,
        alloc,
        turn,
        session,
        &mut source,
        &mut sink,
        &Ungated,
        &mut steps,
    );
    let pieces = sink.replies.pieces().items();
    has_front(rt, alloc, visit, pieces);
    let line = must(
        rt,
        session_told(alloc, session.state().session(), session.end(), pieces),
    );
    must(rt, lines.push_str(line.as_str()));
    let (seat, _receipt) = session.into_seat();
    seat
}

/// Sessions on a seat, one after another.
fn visit_all<R: Abort + Wait>(
    rt: &R,
    alloc: Global,
    turn: &Turn<Server>,
    seat: Seat<Server>,
    options: &Options,
    visits: &[Visit],
    lines: &mut String,
) -> Seat<Server>
    requires { MayConnect turn.now options.now seat }
    ensures { MayConnect turn.now options.now result × ((view result).number ≡ (view seat).number) }
{
    let mut seat = seat;
    for visit in visits {
        seat = visit_by::<R, Brand>(rt, alloc, turn, seat, options, *visit, lines, Blank::new(1));
    }
    seat
}

/// The same while so many others are connected, each on a new seat; they end behind it, the last one first.
fn visit_among<R: Abort + Wait>(
    rt: &R,
    alloc: Global,
    turn: &Turn<Server>,
    first: &mut Seat<Server>,
    seat: Seat<Server>,
    options: &Options,
    others: u8,
    visits: &[Visit],
    lines: &mut String,
) -> Seat<Server>
    requires first { IsFirst turn.now options.now first.old }
    requires few { length (view first.old).registry + others < 100 }
    requires seat { MayConnect turn.now options.now seat }
    ensures first { IsSeatOf turn.now first.new × ((view first.new).number ≡ 1) }
    ensures met { MeetsMore (view first.old).registry (view first.new).registry }
    ensures seat { MayConnect turn.now options.now result × ((view result).number ≡ (view seat).number) }
{
    if others == 0 {
        return visit_all(rt, alloc, turn, seat, options, visits, lines);
    }
    let other = join(rt, alloc, turn, first, options, lines);
    let seat = visit_among(
        rt,
        alloc,
        turn,
        first,
        seat,
        options,
        others - 1,
        visits,
        lines,
    );
    part(rt, alloc, turn, first, other);
    seat
}

/// Puts the events of a journal down.
fn put_events(alloc: Global, journal: &Journal, lines: &mut String) -> Result<(), NoMemory> {
    for number in 0..journal.len() {
        let line = event_told(alloc, journal.event(number + 1))?;
        lines.push_str(line.as_str())?;
    }
    Ok(())
}

/// What sessions tell on a new server: a line for each of them, and one with the events, and the blocks that there are, the free ones, and the bytes of these.
fn told<R: Abort + Wait>(
    rt: &R,
    alloc: Global,
    options: Options,
    others: u8,
    visits: &[Visit],
) -> String {
    let mut lines = String::new(alloc);
    assert!(rt; others < 90);
    let (turn, mut first) = open(rt, alloc, options);
    let seat = must(rt, first.split(alloc, &turn));
    let seat = visit_among(
        rt, alloc, &turn, &mut first, seat, &options, others, visits, &mut lines,
    );
    first.meet(&turn, seat);
    let server = turn.close(first);
    must(rt, put_events(alloc, server.journal(), &mut lines));
    let totals = server.totals();
    let bytes = u64::from(totals.free_words) * 8;
    let line = must(
        rt,
        format!(in alloc; "blocks {} {} {bytes}\n", totals.blocks, totals.free_blocks),
    );
    must(rt, lines.push_str(line.as_str()));
    lines
}

/// Asserts that sessions, while so many others are connected, tell the lines that these parts make.
pub(crate) fn agree<R: Abort + Wait>(
    rt: &R,
    alloc: Global,
    options: Options,
    others: u8,
    visits: &[Visit],
    wanted: &[&str],
) {
    let told = told(rt, alloc, options, others, visits);
    let mut rest = told.as_str();
    for part in wanted {
        match rest.strip_prefix(*part) {
            Some(behind) => rest = behind,
            None => panic!(rt; "{told}"),
        }
    }
    assert!(rt; rest.is_empty(), "{told}");
}
