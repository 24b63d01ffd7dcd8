//! A SELECT that the cache answers moves no step. The counter takes no bytes, so a contract looks at it.

ghost use Rattle.std.specs.Prelude.{◌≡◌, ◌<◌, None};
ghost use Rattle.qc_model.specs.declared.reports.Word.TheVariants as word;
ghost use Rattle.qc_serve.specs.Going.{IsAtRest, number_of};

use crate::player::usual;
use crate::seats::{begin, must, open, part};
use qc_core::Server;
use qc_model::reports::Word;
use qc_serve::{Executed, Replies, Session, Ungated, execute};
use qc_sql::commands::Command;
use qc_turn::Turn;
use qc_types::{Steps, Text};
use std::alloc::Global;
use std::marker::Brand;
use std::process::Abort;
use std::sync::Wait;
use std::sync::ledger::{Blank, Ledger};

/// The queries before the SELECT is answered by the cache.
const QUERIES: &[(&str, Word)] = &[
    ("CREATE DATABASE d", Word::Other),
    ("CREATE TABLE d.t (id BIGINT PRIMARY KEY)", Word::Other),
    ("INSERT INTO d.t VALUES (7)", Word::Other),
    ("SELECT id FROM d.t", Word::Start),
];

/// A query, which has to be answered in this way. Where that is a hit, the counter of steps is as it was.
fn query<R: Abort + Wait, L: Ledger>(
    rt: &R,
    alloc: Global,
    turn: &Turn<Server>,
    session: &mut Session,
    text: &str,
    how: Word,
    sink: &mut Replies,
    steps: &mut Steps<L>,
)
    requires { IsAtRest turn.now session.old × (session.old.end ≡ None) }
    ensures rests { IsAtRest turn.now session.new × (session.new.end ≡ None) × (number_of session.new ≡ number_of session.old) }
    ensures counter { how ≡ word.Hit → steps.new ≡ steps.old }
{
    assert!(rt; text.len() < 100);
    let command = Command::Query(must(rt, Text::of(alloc, text.as_bytes())));
    match execute(rt, alloc, turn, session, &command, sink, &Ungated, steps) {
        Executed::Replied => {}
        Executed::Ended(end) => panic!(rt; "{end:?}"),
    }
    match session.log().lines().last() {
        Some(line) => assert!(rt; line.how == how),
        None => panic!(rt; "no line"),
    }
}

/// The SELECT again. The cache has its reply, and no step is moved.
fn hit<R: Abort + Wait, L: Ledger>(
    rt: &R,
    alloc: Global,
    turn: &Turn<Server>,
    session: &mut Session,
    sink: &mut Replies,
    steps: &mut Steps<L>,
)
    requires { IsAtRest turn.now session.old × (session.old.end ≡ None) }
    ensures rests { IsAtRest turn.now session.new × (session.new.end ≡ None) × (number_of session.new ≡ number_of session.old) }
    ensures counter { steps.new ≡ steps.old }
{
    query(
        rt,
        alloc,
        turn,
        session,
        "SELECT id FROM d.t",
        Word::Hit,
        sink,
        steps,
    );
}

/// One session sends the queries and then the SELECT again.
fn play<R: Abort + Wait, L: Ledger>(rt: &R, alloc: Global, blank: Blank)
    requires name { blank.name ≡ L.name }
    requires parts { blank.parts ≡ L.parts }
    requires one { 0 < blank.parts }
{
    let options = usual();
    let (turn, mut first) = open(rt, alloc, options);
    let seat = must(rt, first.split(alloc, &turn));
    let mut session = begin(rt, alloc, &turn, seat, &options);
    let mut sink = Replies::new(alloc, Vec::new(alloc));
    let mut steps = Steps::<L>::new(blank);
    for (text, how) in QUERIES {
        query(
            rt,
            alloc,
            &turn,
            &mut session,
            text,
            *how,
            &mut sink,
            &mut steps,
        );
    }
    hit(rt, alloc, &turn, &mut session, &mut sink, &mut steps);
    part(rt, alloc, &turn, &mut first, Ok(session));
    let _server = turn.close(first);
}

#[test]
fn a_hit_moves_no_step(rt: HostRuntime) {
    play::<HostRuntime, Brand>(&rt, rt.alloc(), Blank::new(1));
}
