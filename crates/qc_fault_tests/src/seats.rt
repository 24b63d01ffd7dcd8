//! A turn over a new server, and the sessions on its seats.

ghost use Rattle.std.specs.Prelude.{◌≡◌, ◌+◌, ◌<◌, ◌++◌, ◌∷◌, [], None, Ok, length};
ghost use Rattle.qc_turn.specs.Seats.{IsSeatOf, view};
ghost use Rattle.qc_serve.specs.Connecting.{HasBegun, MayConnect};
ghost use Rattle.qc_serve.specs.Going.{IsAtRest};
ghost use Rattle.qc_serve.specs.Leaving.{IsApart};
ghost use Rattle.qc_fault_tests.specs.Seats.{HasMet, IsFirst, IsOther, other_number};

use crate::told::refusal_told;
use qc_core::Server;
use qc_serve::{Executed, NotConnected, Replies, Session, Ungated, connect, execute};
use qc_sql::commands::Command;
use qc_turn::{Seat, Turn};
use qc_types::{Options, Steps};
use std::alloc::Global;
use std::fmt::Debug;
use std::marker::Brand;
use std::process::Abort;
use std::sync::Wait;
use std::sync::ledger::{Blank, Ledger};

/// The value of an answer that has to be `Ok`.
pub(crate) fn must<T, E: Debug + Drop>(rt: &impl Abort, answer: Result<T, E>) -> T
    ensures { answer ≡ Ok result }
{
    match answer {
        Ok(value) => value,
        Err(error) => panic!(rt; "{error:?}"),
    }
}

/// A turn over a server with these options, and the first seat.
pub(crate) fn open(rt: &impl Abort, alloc: Global, options: Options) -> (Turn<Server>, Seat<Server>)
    ensures first { IsFirst result.0 options result.1 }
    ensures none { (view result.1).registry ≡ [] }
{
    let size = options.size;
    let unit = options.unit;
    assert!(rt; size % 1024 == 0);
    assert!(rt; size <= 67_108_864);
    assert!(rt; unit % 8 == 0);
    assert!(rt; unit >= 512);
    assert!(rt; unit <= 1_048_576);
    let server = must(rt, Server::new(alloc, options));
    must(rt, Turn::new(alloc, server, size / 8))
}

/// A session on a seat, which has to be granted one.
pub(crate) fn begin<R: Abort + Wait>(
    rt: &R,
    alloc: Global,
    turn: &Turn<Server>,
    seat: Seat<Server>,
    options: &Options,
) -> Session
    requires { MayConnect turn.now options.now seat }
    ensures { HasBegun turn.now options.now seat result }
{
    match connect(rt, alloc, turn, seat, options) {
        Ok(session) => session,
        Err(NotConnected::Memory(seat)) => panic!(rt; "no memory at {}", seat.number()),
        Err(NotConnected::Refused(seat, _)) => panic!(rt; "refused at {}", seat.number()),
    }
}

/// A session on a new seat, or the seat, which was refused; a line tells that.
pub(crate) fn join<R: Abort + Wait>(
    rt: &R,
    alloc: Global,
    turn: &Turn<Server>,
    first: &mut Seat<Server>,
    options: &Options,
    lines: &mut String,
) -> Result<Session, Seat<Server>>
    requires first { IsFirst turn.now options.now first.old }
    requires few { length (view first.old).registry < 100 }
    ensures first { IsFirst turn.now options.now first.new }
    ensures split { (view first.new).registry ≡ (view first.old).registry ++ None ∷ [] }
    ensures other { IsOther turn.now result × (other_number result ≡ length (view first.old).registry + 2) }
{
    let seat = must(rt, first.split(alloc, turn));
    match connect(rt, alloc, turn, seat, options) {
        Ok(session) => Ok(session),
        Err(NotConnected::Memory(seat)) => panic!(rt; "no memory at {}", seat.number()),
        Err(NotConnected::Refused(seat, error)) => {
            let line = must(rt, refusal_told(alloc, seat.number(), &error));
            must(rt, lines.push_str(line.as_str()));
            Err(seat)
        }
    }
}

/// A session that did nothing so far answers COM_PING and COM_QUIT. Its steps are counted on this ledger.
fn dismiss_by<R: Abort + Wait, L: Ledger>(
    rt: &R,
    alloc: Global,
    turn: &Turn<Server>,
    session: Session,
    blank: Blank,
) -> Seat<Server>
    requires rests { IsAtRest turn.now session × (session.end ≡ None) }
    requires name { blank.name ≡ L.name }
    requires parts { blank.parts ≡ L.parts }
    requires one { 0 < blank.parts }
    ensures { IsApart turn.now result × ((view result).number ≡ (view session.seat).number) }
{
    let mut session = session;
    let mut sink = Replies::new(alloc, Vec::new(alloc));
    let mut steps = Steps::<L>::new(blank);
    match execute(
        rt,
        alloc,
        turn,
        &mut session,
        &Command::Ping,
        &mut sink,
        &Ungated,
        &mut steps,
    ) {
        Executed::Replied => {}
        Executed::Ended(end) => panic!(rt; "{end:?}"),
    }
    let _quits = execute(
        rt,
        alloc,
        turn,
        &mut session,
        &Command::Quit,
        &mut sink,
        &Ungated,
        &mut steps,
    );
    match sink.pieces().items() {
        [piece] => assert!(rt; piece.bytes.bytes() == b"\x07\0\0\x01\0\0\0\x02\0\0\0".as_slice()),
        _ => panic!(rt; "not one piece"),
    }
    let (seat, _receipt) = session.into_seat();
    seat
}

/// The first seat meets that of a session, which ends, or one that was refused.
pub(crate) fn part<R: Abort + Wait>(
    rt: &R,
    alloc: Global,
    turn: &Turn<Server>,
    first: &mut Seat<Server>,
    other: Result<Session, Seat<Server>>,
)
    requires first { IsSeatOf turn.now first.old × ((view first.old).number ≡ 1) }
    requires other { IsOther turn.now other × (1 < other_number other) }
    ensures first { IsSeatOf turn.now first.new × ((view first.new).number ≡ 1) }
    ensures met { HasMet (other_number other) (view first.old).registry (view first.new).registry }
{
    let seat = match other {
        Ok(session) => dismiss_by::<R, Brand>(rt, alloc, turn, session, Blank::new(1)),
        Err(seat) => seat,
    };
    first.meet(turn, seat);
}
