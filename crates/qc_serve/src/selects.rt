//! SELECT.

ghost use Rattle.std.specs.Prelude.{◌≡◌, ◌≤◌, ◌<◌, ◌∷◌, [], ◌++◌, length, true, Ok, Err, IfOk, IfErr, OnOk, OnErr};
ghost use Rattle.qc_sql.specs.declared.commands.Command.TheVariants as sent;
ghost use Rattle.qc_sql.specs.Packets.{most_payload};
ghost use Rattle.qc_model.specs.declared.reports.Word.TheVariants as word;
ghost use Rattle.qc_select.specs.Selects.{place_of};
ghost use Rattle.qc_serve.specs.Executed.{IsReplied, MayFail, MustEnd, size_by};
ghost use Rattle.qc_serve.specs.Querying.{IsPlanned, plan_packets, word_of_selected};

use crate::decision::{Decide, Decision};
use crate::desk::Desk;
use crate::ending::End;
use crate::hits_sent::send_stream;
use crate::holding::hold;
use crate::rows_sent::{end_fill, fill_plan, loaded, send_rows};
use crate::session::Session;
use crate::sinks::{Gate, ReplySink};
use qc_core::{Hit, Server};
use qc_eval::Plan;
use qc_flow::{Fill, Stream};
use qc_key::key_bytes;
use qc_lex::{head, trimmed};
use qc_model::reports::Word;
use qc_rules::asks;
use qc_select::Selected;
use qc_sql::statements::Select;
use qc_statements::error_reply;
use qc_table::Database;
use qc_turn::Turn;
use qc_types::{NoMemory, SqlError, Steps};
use std::alloc::Global;
use std::sync::Wait;
use std::sync::ledger::Ledger;

impl Session {
    ghost use Rattle.std.specs.List.{concat};
    ghost use Rattle.qc_sql.specs.declared.statements.Statement.TheVariants as statement;
    ghost use Rattle.qc_sql.specs.Grammar as grammar;
    ghost use Rattle.qc_laws.specs.sizes.Names.{is_short_select};
    ghost use Rattle.std.specs.Prelude.{take};
    ghost use Rattle.qc_sql.specs.Packets.{packets};
    ghost use Rattle.qc_laws.specs.sizes.Replies.{FitsError};
    ghost use Rattle.qc_model.specs.Machine as machine;
    ghost use Rattle.qc_model.specs.Session.{flags_of, status_of};
    ghost use Rattle.qc_turn.specs.Bytes.{bytes_of};
    ghost use Rattle.qc_turn.specs.Seats.{view};
    ghost use Rattle.qc_turn.specs.declared.task.Task.TheVariants as task;
    ghost use Rattle.qc_flow.specs.Seats.{HasEnded};
    ghost use Rattle.qc_flow.specs.Streams.{IsStreamOf};
    ghost use Rattle.qc_serve.specs.Holding.{HasTask};
    ghost use Rattle.qc_serve.specs.Going.{MayAnswer, as_fixed, number_of};
    ghost use Rattle.qc_serve.specs.Querying.{EndsFill, EndsStream, EndsWith, FillsWith, HasDecided, HasEndedFill, LacksMemory, MaySend, arrives, bytes_for, is_hit, sees_at};
    ghost use Rattle.qc_serve.specs.Sent.{Adds, AreCut, NoneIsEmpty, Sends, SendsFrontOf, hit_size, packet_size};
    ghost use Rattle.qc_serve.specs.SentAt.{FillsAt, SendsAs, SendsAt, SendsFrontAs, SendsFrontAt};

    /// Answers a SELECT, and sends its reply.
    pub(crate) fn answer_select<R: Wait, K: ReplySink, G: Gate, L: Ledger>(
        &mut self,
        rt: &R,
        alloc: Global,
        turn: &Turn<Server>,
        text: &[u8],
        select: &Select,
        number: u64,
        sink: &mut K,
        gate: &G,
        steps: &mut Steps<L>,
    ) -> Result<(), End>
        requires rest { MayAnswer turn.now self.old }
        requires within { length text.now < most_payload }
        requires short { is_short_select select.now ≡ true }
        requires means { grammar.meaning (grammar.trimmed text.now) self.old.state.state.ansi ≡ Ok (statement.Select select.now) }
        ensures replied { OnOk result (IsReplied turn.now (sent.Query text.now) self.old self.new (K.held sink.old) (K.held sink.new)) }
        ensures ends { OnErr result (MustEnd turn.now (sent.Query text.now) self.old self.new (K.held sink.old) (K.held sink.new)) }
        ensures cause { IfErr result (MayFail (K.faults sink.old) (K.faults sink.new)) }
        ensures later { K.faults sink.old ≤ K.faults sink.new }
        ensures hits_read_no_row { (line : _) → self.new.log.lines ≡ self.old.log.lines ++ line ∷ [] → line.how ≡ word.Hit → steps.new ≡ steps.old }
    {
        let selected = self.decide(rt, alloc, turn, text, select)?;
        self.send_selected(rt, alloc, turn, selected, number, sink, gate, steps)
    }

    /// Decides a SELECT and logs its line. One that names a table has arrived, and its transaction has a snapshot then.
    fn decide<R: Wait>(
        &mut self,
        rt: &R,
        alloc: Global,
        turn: &Turn<Server>,
        text: &[u8],
        select: &Select,
    ) -> Result<Selected, NoMemory>
        requires rest { MayAnswer turn.now self.old }
        requires within { length text.now < most_payload }
        requires means { grammar.meaning (grammar.trimmed text.now) self.old.state.state.ansi ≡ Ok (statement.Select select.now) }
        ensures decided { IfOk result (HasDecided turn.now text.now select.now self.old self.new) }
        ensures memory { OnErr result (LacksMemory turn.now self.old self.new) }
    {
        self.arrive_for(select);
        let asked = asks(head(trimmed(text)), self.state.kind());
        let key = key_bytes(alloc, &self.state.flags(), self.state.db(), trimmed(text))?;
        let session = self.state.session();
        let Decision { selected, database } = hold(
            Desk { rt, alloc, turn },
            &mut self.seat,
            session,
            &mut Decide {
                alloc,
                key,
                select,
                asked,
                state: &self.state,
            },
        )?;
        let (place, word) = line_of(&selected);
        self.see_for(select, place, database);
        self.put_line(place, word);
        Ok(selected)
    }

    /// A SELECT arrives: one that names a table opens a transaction where autocommit is off.
    fn arrive_for(&mut self, select: &Select)
        ensures { self.new ≡ record self.old { state = arrives select.now self.old.state } }
    {
        if !select.from.items().is_empty() {
            self.state.arrive();
        }
    }

    /// A SELECT that names a table sees the database at its place: where its transaction has no snapshot yet, it takes one.
    fn see_for(&mut self, select: &Select, place: u64, database: Database)
        ensures { self.new ≡ record self.old { state = sees_at select.now place database self.old.state } }
    {
        if !select.from.items().is_empty() {
            self.state.see(place, database);
        }
    }

    /// Sends the reply of a SELECT that was decided.
    fn send_selected<R: Wait, K: ReplySink, G: Gate, L: Ledger>(
        &mut self,
        rt: &R,
        alloc: Global,
        turn: &Turn<Server>,
        selected: Selected,
        number: u64,
        sink: &mut K,
        gate: &G,
        steps: &mut Steps<L>,
    ) -> Result<(), End>
        requires { MaySend turn.now self.old selected }
        ensures seat { EndsWith turn.now (number_of self.old) self.old.seat self.new.seat }
        ensures same { self.new ≡ record self.old { seat = self.new.seat } }
        ensures sends { OnOk result (Sends (K.held sink.old) (K.held sink.new) (bytes_for self.old selected)) }
        ensures at { OnOk result (SendsAs selected (view self.new.seat).seen (K.held sink.old) (K.held sink.new) (bytes_for self.old selected)) }
        ensures front { OnErr result (SendsFrontAs selected (K.held sink.old) (K.held sink.new) (bytes_for self.old selected)) }
        ensures ended { OnOk result (HasEndedFill self.new.seat selected) }
        ensures cut { Adds (K.held sink.old) (K.held sink.new) (AreCut (size_by (word_of_selected selected))) }
        ensures some { OnOk result (Adds (K.held sink.old) (K.held sink.new) NoneIsEmpty) }
        ensures cause { IfErr result (MayFail (K.faults sink.old) (K.faults sink.new)) }
        ensures later { K.faults sink.old ≤ K.faults sink.new }
        ensures hits_read_no_row { is_hit selected ≡ true → steps.new ≡ steps.old }
    {
        match selected {
            Selected::Hit(hit) => self.stream_hit(turn, hit, number, sink, gate),
            Selected::Start { serial, plan, .. } => {
                self.fill_entry(rt, alloc, turn, serial, plan, number, sink, gate, steps)
            }
            Selected::Plain { plan, .. } => match plan {
                Ok(plan) => self.send_plan(alloc, plan, number, sink, gate, steps),
                Err(error) => self.send_error(alloc, &error, number, sink, gate),
            },
        }
    }

    /// Sends a hit while the seat streams it.
    pub(crate) fn stream_hit<K: ReplySink, G: Gate>(
        &mut self,
        turn: &Turn<Server>,
        hit: Hit,
        number: u64,
        sink: &mut K,
        gate: &G,
    ) -> Result<(), End>
        requires has { HasTask turn.now (number_of self.old) (task.Stream hit.serial) self.old.seat }
        requires streams { (x : Stream) → x.serial ≡ hit.serial → x.bytes ≡ hit.bytes → IsStreamOf x (view self.old.seat) }
        ensures seat { EndsStream turn.now (number_of self.old) self.old.seat self.new.seat }
        ensures same { self.new ≡ record self.old { seat = self.new.seat } }
        ensures sends { OnOk result (SendsAt (task.Stream hit.serial) (K.held sink.old) (K.held sink.new) (take hit.bytes (bytes_of (view self.old.seat).content))) }
        ensures front { OnErr result (SendsFrontAt (task.Stream hit.serial) (K.held sink.old) (K.held sink.new) (take hit.bytes (bytes_of (view self.old.seat).content))) }
        ensures cut { Adds (K.held sink.old) (K.held sink.new) (AreCut hit_size) }
        ensures some { OnOk result (Adds (K.held sink.old) (K.held sink.new) NoneIsEmpty) }
        ensures cause { IfErr result (MayFail (K.faults sink.old) (K.faults sink.new)) }
        ensures later { K.faults sink.old ≤ K.faults sink.new }
    {
        let session = self.state.session();
        let mut stream = Stream::of(hit);
        let sent = send_stream(
            turn,
            &mut self.seat,
            &mut stream,
            session,
            number,
            sink,
            gate,
        );
        stream.end(turn, &mut self.seat);
        sent
    }

    /// Sends the rows of a plan while the seat fills the entry that was begun for it.
    fn fill_entry<R: Wait, K: ReplySink, G: Gate, L: Ledger>(
        &mut self,
        rt: &R,
        alloc: Global,
        turn: &Turn<Server>,
        serial: u64,
        plan: Plan,
        number: u64,
        sink: &mut K,
        gate: &G,
        steps: &mut Steps<L>,
    ) -> Result<(), End>
        requires fills { FillsWith turn.now (number_of self.old) serial (plan_packets plan (status_of (flags_of self.old.state.state))) self.old.seat }
        requires plan { IsPlanned plan }
        requires options { (view self.old.seat).fixed ≡ as_fixed self.old.options }
        ensures seat { EndsFill turn.now (number_of self.old) self.old.seat self.new.seat }
        ensures same { self.new ≡ record self.old { seat = self.new.seat } }
        ensures sends { OnOk result (Sends (K.held sink.old) (K.held sink.new) (concat (plan_packets plan (status_of (flags_of self.old.state.state))))) }
        ensures at { OnOk result (FillsAt serial (view self.new.seat).seen (K.held sink.old) (K.held sink.new) (concat (plan_packets plan (status_of (flags_of self.old.state.state))))) }
        ensures front { OnErr result (SendsFrontOf (K.held sink.old) (K.held sink.new) (concat (plan_packets plan (status_of (flags_of self.old.state.state))))) }
        ensures ended { OnOk result (HasEnded serial (view self.new.seat)) }
        ensures cut { Adds (K.held sink.old) (K.held sink.new) (AreCut packet_size) }
        ensures some { OnOk result (Adds (K.held sink.old) (K.held sink.new) NoneIsEmpty) }
        ensures cause { IfErr result (MayFail (K.faults sink.old) (K.faults sink.new)) }
        ensures later { K.faults sink.old ≤ K.faults sink.new }
    {
        let session = self.state.session();
        let status = self.state.status();
        let mut fill = Some(Fill::of(serial, &self.options));
        let sent = fill_plan(
            rt,
            alloc,
            turn,
            &mut self.seat,
            &mut fill,
            plan,
            status,
            session,
            number,
            sink,
            gate,
            steps,
        );
        end_fill(rt, turn, &mut self.seat, fill, sent.is_ok());
        sent
    }

    /// Sends the rows of a plan that no entry takes.
    fn send_plan<K: ReplySink, G: Gate, L: Ledger>(
        &self,
        alloc: Global,
        plan: Plan,
        number: u64,
        sink: &mut K,
        gate: &G,
        steps: &mut Steps<L>,
    ) -> Result<(), End>
        requires { IsPlanned plan }
        ensures sends { OnOk result (Sends (K.held sink.old) (K.held sink.new) (concat (plan_packets plan (status_of (flags_of self.now.state.state))))) }
        ensures front { OnErr result (SendsFrontOf (K.held sink.old) (K.held sink.new) (concat (plan_packets plan (status_of (flags_of self.now.state.state))))) }
        ensures cut { Adds (K.held sink.old) (K.held sink.new) (AreCut packet_size) }
        ensures some { OnOk result (Adds (K.held sink.old) (K.held sink.new) NoneIsEmpty) }
        ensures cause { IfErr result (MayFail (K.faults sink.old) (K.faults sink.new)) }
        ensures later { K.faults sink.old ≤ K.faults sink.new }
    {
        let mut packets = loaded(alloc, plan, self.state.status(), steps)?;
        let session = self.state.session();
        send_rows(
            alloc,
            &self.seat,
            &mut packets,
            session,
            number,
            sink,
            gate,
            steps,
        )
    }

    /// Sends the error that refuses a SELECT.
    fn send_error<K: ReplySink, G: Gate>(
        &self,
        alloc: Global,
        error: &SqlError,
        number: u64,
        sink: &mut K,
        gate: &G,
    ) -> Result<(), End>
        requires { FitsError error.now }
        ensures sends { OnOk result (Sends (K.held sink.old) (K.held sink.new) (packets (machine.refused error.now))) }
        ensures front { OnErr result (SendsFrontOf (K.held sink.old) (K.held sink.new) (packets (machine.refused error.now))) }
        ensures cut { Adds (K.held sink.old) (K.held sink.new) (AreCut packet_size) }
        ensures some { OnOk result (Adds (K.held sink.old) (K.held sink.new) NoneIsEmpty) }
        ensures cause { IfErr result (MayFail (K.faults sink.old) (K.faults sink.new)) }
        ensures later { K.faults sink.old ≤ K.faults sink.new }
    {
        let reply = error_reply(alloc, error)?;
        self.send(reply.bytes(), number, sink, gate)
    }
}

/// The place and the word of a SELECT's line.
fn line_of(selected: &Selected) -> (u64, Word)
    ensures { (result.0 ≡ place_of selected.now) × (result.1 ≡ word_of_selected selected.now) }
{
    match selected {
        Selected::Hit(hit) => (hit.place, Word::Hit),
        Selected::Start { place, .. } => (*place, Word::Start),
        Selected::Plain { place, .. } => (*place, Word::Plain),
    }
}
