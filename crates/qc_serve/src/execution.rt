//! A command is executed.

ghost use Rattle.std.specs.Prelude.{◌≡◌, ◌≢◌, ◌≤◌, ◌∷◌, [], ◌++◌, length, None, Some, IfOk, IfErr, OnOk, OnErr};
ghost use Rattle.qc_sql.specs.declared.commands.Command.TheVariants as sent;
ghost use Rattle.qc_sql.specs.Commands.{command_payload};
ghost use Rattle.qc_sql.specs.Packets.{most_payload};
ghost use Rattle.qc_model.specs.declared.reports.Word.TheVariants as word;
ghost use Rattle.qc_serve.specs.Executed.{Executes, IsOther, IsReplied, MayFail, MustEnd, Quits};
ghost use Rattle.qc_serve.specs.Going.{IsAtRest};

use crate::ending::End;
use crate::leaving::leave_now;
use crate::session::Session;
use crate::sinks::{Gate, Moment, ReplySink};
use qc_core::Server;
use qc_parsed::ParsedSelects;
use qc_sql::commands::Command;
use qc_turn::Turn;
use qc_types::{NoMemory, Steps, Text};
use std::alloc::Global;
use std::sync::Wait;
use std::sync::ledger::Ledger;

/// What became of a command.
#[derive(Clone, Copy, Debug, PartialEq, Eq)]
pub enum Executed {
    /// Its whole reply went out.
    Replied,
    /// The session has ended.
    Ended(End),
}

/// Executes a command of a session that hasn't ended: looks, decides and pushes its one event under the turn, for which it may wait, and does all else
/// outside of it. The reply goes
/// out in pieces, of a packet each, or of 512 bytes where the cache has it. The session ends at COM_QUIT, and where a put fails or memory lacks; its
/// connection ends with it. Then no event of the session came and nothing went out; or the command's own event came, as it is at its place, the log has its
/// line, and a front of the command's reply went out, which may be empty; that of a hit went out while the seat streamed it.
/// Costs what the command's statement costs; where the cache has the reply, no stored row is read.
pub fn execute<R: Wait, K: ReplySink, G: Gate, L: Ledger>(
    rt: &R,
    alloc: Global,
    turn: &Turn<Server>,
    session: &mut Session,
    command: &Command,
    sink: &mut K,
    gate: &G,
    steps: &mut Steps<L>,
) -> Executed
    requires rests { IsAtRest turn.now session.old × (session.old.end ≡ None) }
    requires within { length (command_payload command.now) ≤ most_payload }
    ensures executes { command.now ≢ sent.Quit → Executes turn.now command.now session.old session.new (K.held sink.old) (K.held sink.new) (K.faults sink.old) (K.faults sink.new) result }
    ensures quits { command.now ≡ sent.Quit → Quits turn.now session.old session.new (K.held sink.old) (K.held sink.new) result }
    ensures later { K.faults sink.old ≤ K.faults sink.new }
    ensures hits_read_no_row { (line : _) → session.new.log.lines ≡ session.old.log.lines ++ line ∷ [] → line.how ≡ word.Hit → steps.new ≡ steps.old }
{
    let mut parsed = ParsedSelects::new(alloc);
    execute_keeping(
        rt,
        alloc,
        turn,
        session,
        command,
        sink,
        gate,
        steps,
        &mut parsed,
    )
}

/// The same, by one who keeps the SELECTs that were parsed lately, so that one that comes again isn't parsed again.
pub fn execute_keeping<R: Wait, K: ReplySink, G: Gate, L: Ledger>(
    rt: &R,
    alloc: Global,
    turn: &Turn<Server>,
    session: &mut Session,
    command: &Command,
    sink: &mut K,
    gate: &G,
    steps: &mut Steps<L>,
    parsed: &mut ParsedSelects,
) -> Executed
    requires rests { IsAtRest turn.now session.old × (session.old.end ≡ None) }
    requires within { length (command_payload command.now) ≤ most_payload }
    ensures executes { command.now ≢ sent.Quit → Executes turn.now command.now session.old session.new (K.held sink.old) (K.held sink.new) (K.faults sink.old) (K.faults sink.new) result }
    ensures quits { command.now ≡ sent.Quit → Quits turn.now session.old session.new (K.held sink.old) (K.held sink.new) result }
    ensures later { K.faults sink.old ≤ K.faults sink.new }
    ensures hits_read_no_row { (line : _) → session.new.log.lines ≡ session.old.log.lines ++ line ∷ [] → line.how ≡ word.Hit → steps.new ≡ steps.old }
{
    if let Command::Quit = command {
        session.pass_before(gate);
        session.finish(rt, turn, End::Quit);
        return Executed::Ended(End::Quit);
    }
    match session.reply(rt, alloc, turn, command, sink, gate, steps, parsed) {
        Ok(()) => Executed::Replied,
        Err(end) => {
            session.finish(rt, turn, end);
            Executed::Ended(end)
        }
    }
}

impl Session {
    ghost use Rattle.qc_serve.specs.Executed.{Leaves};
    ghost use Rattle.qc_serve.specs.Going.{DoesOne, IsEventOf, MayAnswer, Stops, number_of};
    ghost use Rattle.qc_serve.specs.Seats.{SeatRests};

    /// Answers a command other than COM_QUIT, and sends its reply. The error is why the session has to end.
    fn reply<R: Wait, K: ReplySink, G: Gate, L: Ledger>(
        &mut self,
        rt: &R,
        alloc: Global,
        turn: &Turn<Server>,
        command: &Command,
        sink: &mut K,
        gate: &G,
        steps: &mut Steps<L>,
        parsed: &mut ParsedSelects,
    ) -> Result<(), End>
        requires rests { IsAtRest turn.now self.old }
        requires within { length (command_payload command.now) ≤ most_payload }
        requires answered { command.now ≢ sent.Quit }
        ensures replied { OnOk result (IsReplied turn.now command.now self.old self.new (K.held sink.old) (K.held sink.new)) }
        ensures ends { OnErr result (MustEnd turn.now command.now self.old self.new (K.held sink.old) (K.held sink.new)) }
        ensures cause { IfErr result (MayFail (K.faults sink.old) (K.faults sink.new)) }
        ensures later { K.faults sink.old ≤ K.faults sink.new }
        ensures hits_read_no_row { (line : _) → self.new.log.lines ≡ self.old.log.lines ++ line ∷ [] → line.how ≡ word.Hit → steps.new ≡ steps.old }
    {
        if self.log.reserve().is_err() {
            return Err(End::Memory);
        }
        let number = self.pass_before(gate);
        match command {
            Command::Quit => unreachable!(),
            Command::Query(text) => {
                self.answer_query(
                    rt,
                    alloc,
                    turn,
                    text.bytes(),
                    number,
                    sink,
                    gate,
                    steps,
                    parsed,
                )
            }
            command => self.answer_other(rt, alloc, turn, command, number, sink, gate),
        }
    }

    /// Passes the gate before the next command, and gives the command's number.
    fn pass_before<G: Gate>(&self, gate: &G) -> u64 {
        let number = self.log.lines().len() as u64 + 1;
        gate.pass(&self.seat, self.state.session(), Moment::Before(number));
        number
    }

    /// Answers a command that is no COM_QUERY, and sends its reply.
    fn answer_other<R: Wait, K: ReplySink, G: Gate>(
        &mut self,
        rt: &R,
        alloc: Global,
        turn: &Turn<Server>,
        command: &Command,
        number: u64,
        sink: &mut K,
        gate: &G,
    ) -> Result<(), End>
        requires rest { MayAnswer turn.now self.old }
        requires other { IsOther command.now }
        ensures replied { OnOk result (IsReplied turn.now command.now self.old self.new (K.held sink.old) (K.held sink.new)) }
        ensures ends { OnErr result (MustEnd turn.now command.now self.old self.new (K.held sink.old) (K.held sink.new)) }
        ensures cause { IfErr result (MayFail (K.faults sink.old) (K.faults sink.new)) }
        ensures later { K.faults sink.old ≤ K.faults sink.new }
    {
        match self.reply_to(rt, alloc, turn, command) {
            Ok(reply) => self.send_reply(reply.bytes(), number, sink, gate),
            Err(NoMemory) => Err(End::Memory),
        }
    }

    /// The reply of a command that is no COM_QUERY.
    fn reply_to<R: Wait>(
        &mut self,
        rt: &R,
        alloc: Global,
        turn: &Turn<Server>,
        command: &Command,
    ) -> Result<Text, NoMemory>
        requires rest { MayAnswer turn.now self.old }
        requires other { IsOther command.now }
        ensures does { IfOk result (DoesOne turn.now command.now self.old self.new) }
        ensures stops { OnErr result (Stops turn.now self.old self.new (IsEventOf command.now self.old)) }
    {
        match command {
            Command::InitDb(name) => self.use_db(rt, alloc, turn, name),
            Command::Ping => self.tell_ok(alloc, turn),
            Command::Unknown(_) => self.refuse_command(alloc, turn),
            Command::Empty => self.refuse_command(alloc, turn),
            Command::Query(_) | Command::Quit => unreachable!(),
        }
    }

    /// Ends the session, and with it its connection, as `serve` does where no command is left. It takes the turn, for which it may wait. Costs what
    /// `qc_core::leave` costs.
    pub fn finish<R: Wait>(&mut self, rt: &R, turn: &Turn<Server>, end: End)
        requires { SeatRests turn.now (number_of self.old) self.old.seat }
        ensures leaves { Leaves turn.now self.old self.new end }
    {
        let session = self.state.session();
        leave_now(rt, turn, &mut self.seat, session);
        self.end = Some(end);
    }
}
