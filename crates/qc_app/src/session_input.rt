//! A session serves an input in memory.

ghost use Rattle.std.specs.Prelude.{◌≡◌, ◌<◌, ◌≤◌, ◌++◌, ◌∷◌, [], None, length, IfErr, IfSome, OnOk, OnErr};
ghost use Rattle.qc_sql.specs.Commands.{command_payload};
ghost use Rattle.qc_sql.specs.Packets.{most_payload};
ghost use Rattle.qc_model.specs.declared.reports.ReportLine.{ReportLine};
ghost use Rattle.qc_serve.specs.Going.{IsAtRest};
ghost use Rattle.qc_app.specs.SessionInput.{EndsAt, HasAnswered, HasEnded, IsLastLine, KeepsLine};

use crate::reply_buffer::ReplyBuffer;
use qc_core::Server;
use qc_model::reports::{Ending, ReportLine, ReportLines};
use qc_parsed::ParsedSelects;
use qc_serve::{End, Executed, Gate, Session, execute_keeping, reading_end};
use qc_sql::commands::Command;
use qc_turn::Turn;
use qc_types::{NoMemory, Steps};
use qc_wire::read_command;
use std::alloc::Global;
use std::sync::Wait;
use std::sync::ledger::{Blank, Ledger};

/// Serves the commands of an input until the session ends, and keeps a line for each that was answered. The answer is how the input ends, or nothing where
/// memory lacked. The rows that it reads are counted over the ledger of the blank.
pub(crate) fn serve_input<R: Wait, G: Gate, L: Ledger>(
    rt: &R,
    alloc: Global,
    turn: &Turn<Server>,
    session: &mut Session,
    input: &[u8],
    lines: &mut ReportLines,
    gate: &G,
    blank: Blank,
) -> Option<Ending>
    requires rests { IsAtRest turn.now session.old × (session.old.end ≡ None) }
    requires none { lines.old ≡ [] }
    requires name { blank.name ≡ L.name }
    requires parts { blank.parts ≡ L.parts }
    requires one { 0 < blank.parts }
    ensures ended { HasEnded turn.now session.old session.new }
    ensures answered { IfSome result (HasAnswered session.old session.new input.now lines.new) }
{
    let mut steps = Steps::<L>::new(blank);
    let mut left = input;
    let mut sink = ReplyBuffer::new(alloc);
    let mut parsed = ParsedSelects::new(alloc);
    for _ in rt.forever() {
        let command = match read_command(alloc, &mut left) {
            Ok(command) => command,
            Err(why) => {
                let end = reading_end(why);
                session.finish(rt, turn, end);
                return end.ending();
            }
        };
        if let Err(end) = answer(
            rt,
            alloc,
            turn,
            session,
            &command,
            lines,
            gate,
            &mut steps,
            &mut sink,
            &mut parsed,
        ) {
            return end.ending();
        }
    }
    unreachable!()
}

/// Executes a command, and keeps its line. The error is why the session has ended.
fn answer<R: Wait, G: Gate, L: Ledger>(
    rt: &R,
    alloc: Global,
    turn: &Turn<Server>,
    session: &mut Session,
    command: &Command,
    lines: &mut ReportLines,
    gate: &G,
    steps: &mut Steps<L>,
    sink: &mut ReplyBuffer,
    parsed: &mut ParsedSelects,
) -> Result<(), End>
    requires rests { IsAtRest turn.now session.old × (session.old.end ≡ None) }
    requires within { length (command_payload command.now) ≤ most_payload }
    ensures answers { OnOk result (KeepsLine turn.now command.now session.old session.new lines.old lines.new) }
    ensures ends { IfErr result (EndsAt turn.now command.now session.old session.new) }
    ensures same { OnErr result (lines.new ≡ lines.old) }
{
    sink.clear();
    match execute_keeping(rt, alloc, turn, session, command, sink, gate, steps, parsed) {
        Executed::Ended(end) => Err(end),
        Executed::Replied => match keep_line(alloc, session, sink, lines) {
            Ok(()) => Ok(()),
            Err(NoMemory) => {
                session.finish(rt, turn, End::Memory);
                Err(End::Memory)
            }
        },
    }
}

/// Keeps the line of the command that was answered last, with its reply.
fn keep_line(
    alloc: Global,
    session: &Session,
    sink: &ReplyBuffer,
    lines: &mut ReportLines,
) -> Result<(), NoMemory>
    requires { 0 < length session.now.log.lines }
    ensures kept { (l : ReportLine) → IsLastLine l session.now sink.now → OnOk result (lines.new ≡ lines.old ++ l ∷ []) }
    ensures same { OnErr result (lines.new ≡ lines.old) }
{
    let Some(line) = session.log().lines().last() else {
        unreachable!()
    };
    let reply = sink.reply(alloc)?;
    lines.push(ReportLine {
        place: line.place,
        how: line.how,
        reply,
    })
}
