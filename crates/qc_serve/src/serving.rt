//! A session serves the commands of a source.

ghost use Rattle.std.specs.Prelude.{◌≡◌, ◌≤◌, None, IfSome, IfErr, IsSome};
ghost use Rattle.qc_serve.specs.Going.{IsAtRest};
ghost use Rattle.qc_serve.specs.Served as served;
ghost use Rattle.qc_serve.specs.Served.{HasFault, IsServed};

use crate::ending::End;
use crate::execution::{Executed, execute_keeping};
use crate::session::Session;
use crate::sinks::{Gate, ReplySink};
use qc_core::Server;
use qc_parsed::ParsedSelects;
use qc_sql::commands::CommandEnd;
use qc_turn::Turn;
use qc_types::{Or, Source, Steps};
use qc_wire::read_command;
use std::alloc::Global;
use std::sync::Wait;
use std::sync::ledger::Ledger;

/// Reads commands from a source and executes them, until the session ends: by COM_QUIT, where the input ends or no packet of a command stands in it, and where
/// a read or a put fails or memory lacks. Its connection ends with it. It takes the turn for each command, for which it may wait. Costs what the commands cost.
pub fn serve<R: Wait, S: Source, K: ReplySink, G: Gate, L: Ledger>(
    rt: &R,
    alloc: Global,
    turn: &Turn<Server>,
    session: Session,
    source: &mut S,
    sink: &mut K,
    gate: &G,
    steps: &mut Steps<L>,
) -> Session
    requires { IsAtRest turn.now session × (session.end ≡ None) }
    ensures served { IfSome result.end (IsServed turn.now session result (S.left source.old) (K.held sink.old) (K.held sink.new)) × IsSome result.end }
    ensures fault { IfSome result.end (HasFault (S.faults source.old) (S.faults source.new) (K.faults sink.old) (K.faults sink.new)) }
{
    let mut session = session;
    serve_on(rt, alloc, turn, &mut session, source, sink, gate, steps);
    session
}

/// The same of a session that is lent.
pub fn serve_on<R: Wait, S: Source, K: ReplySink, G: Gate, L: Ledger>(
    rt: &R,
    alloc: Global,
    turn: &Turn<Server>,
    session: &mut Session,
    source: &mut S,
    sink: &mut K,
    gate: &G,
    steps: &mut Steps<L>,
)
    requires { IsAtRest turn.now session.old × (session.old.end ≡ None) }
    ensures served { IfSome session.new.end (IsServed turn.now session.old session.new (S.left source.old) (K.held sink.old) (K.held sink.new)) × IsSome session.new.end }
    ensures fault { IfSome session.new.end (HasFault (S.faults source.old) (S.faults source.new) (K.faults sink.old) (K.faults sink.new)) }
{
    let mut parsed = ParsedSelects::new(alloc);
    for _ in rt.forever() {
        let command = match read_command(alloc, source) {
            Ok(command) => command,
            Err(why) => {
                session.finish(rt, turn, reading_end(why));
                return;
            }
        };
        if let Executed::Ended(_) = execute_keeping(
            rt,
            alloc,
            turn,
            session,
            &command,
            sink,
            gate,
            steps,
            &mut parsed,
        ) {
            return;
        }
    }
    unreachable!()
}

/// Why a session ends of whose input no command is left.
pub fn reading_end(why: Or<CommandEnd>) -> End
    ensures { result ≡ served.reading_end why }
{
    match why {
        Or::Memory => End::Memory,
        Or::Other(CommandEnd::EndOfInput) => End::EndOfInput,
        Or::Other(CommandEnd::Cut(count)) => End::Cut(count),
        Or::Other(CommandEnd::TooLong(length)) => End::TooLong(length),
        Or::Other(CommandEnd::BadSequence { found, wanted }) => End::BadSequence { found, wanted },
        Or::Other(CommandEnd::Failed) => End::ReadFault,
    }
}
