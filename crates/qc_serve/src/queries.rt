//! COM_QUERY.

ghost use Rattle.std.specs.Prelude.{◌≡◌, ◌≢◌, ◌≤◌, ◌<◌, ◌∷◌, [], ◌++◌, length, IfErr, OnOk, OnErr};
ghost use Rattle.qc_sql.specs.declared.commands.Command.TheVariants as sent;
ghost use Rattle.qc_sql.specs.Packets.{most_payload};
ghost use Rattle.qc_model.specs.declared.reports.Word.TheVariants as word;
ghost use Rattle.qc_serve.specs.Executed.{IsReplied, MayFail, MustEnd};

use crate::desk::Desk;
use crate::ending::End;
use crate::holding::hold;
use crate::lookup::{Found, Lookup};
use crate::session::Session;
use crate::sinks::{Gate, ReplySink};
use qc_core::Server;
use qc_lex::trimmed;
use qc_model::reports::Word;
use qc_parse::{ParseRefusal, parse};
use qc_parsed::{ParsedSelect, ParsedSelects};
use qc_sql::statements::{Select, Statement};
use qc_statements::{asks_cache, fault_error, key};
use qc_table::Database;
use qc_turn::Turn;
use qc_types::{NoMemory, Or, Steps, Text};
use std::alloc::Global;
use std::sync::Wait;
use std::sync::ledger::Ledger;

impl Session {
    ghost use Rattle.qc_sql.specs.declared.statements.Statement.TheVariants as statement;
    ghost use Rattle.std.specs.Prelude.{true, false, Ok, Err, IfOk, MatchOption};
    ghost use Rattle.qc_sql.specs.Grammar as grammar;
    ghost use Rattle.qc_laws.specs.sizes.Names.{is_short_select, is_short_statement};
    ghost use Rattle.qc_model.specs.Machine as machine;
    ghost use Rattle.qc_parse.specs.Refusals.{as_meant};
    ghost use Rattle.qc_statements.specs.Told.{IsTold};
    ghost use Rattle.qc_trx.specs.SnapshotStates.{after_arrival};
    ghost use Rattle.qc_serve.specs.Going.{DoesStatement, MayAnswer, Stops, TellsOut};
    ghost use Rattle.qc_serve.specs.Querying.{HasFound, LooksAgain, seen_with};
    ghost use Rattle.qc_serve.specs.Stage.{is_select};

    /// Answers a query, and sends its reply. Where the cache is asked, a hit is looked for before the text is parsed.
    pub(crate) fn answer_query<R: Wait, K: ReplySink, G: Gate, L: Ledger>(
        &mut self,
        rt: &R,
        alloc: Global,
        turn: &Turn<Server>,
        text: &[u8],
        number: u64,
        sink: &mut K,
        gate: &G,
        steps: &mut Steps<L>,
        parsed: &mut ParsedSelects,
    ) -> Result<(), End>
        requires rest { MayAnswer turn.now self.old }
        requires within { length text.now < most_payload }
        ensures replied { OnOk result (IsReplied turn.now (sent.Query text.now) self.old self.new (K.held sink.old) (K.held sink.new)) }
        ensures ends { OnErr result (MustEnd turn.now (sent.Query text.now) self.old self.new (K.held sink.old) (K.held sink.new)) }
        ensures cause { IfErr result (MayFail (K.faults sink.old) (K.faults sink.new)) }
        ensures later { K.faults sink.old ≤ K.faults sink.new }
        ensures hits_read_no_row { (line : _) → self.new.log.lines ≡ self.old.log.lines ++ line ∷ [] → line.how ≡ word.Hit → steps.new ≡ steps.old }
    {
        match self.look(rt, alloc, turn, text)? {
            Some(found) => self.answer_hit(turn, found, number, sink, gate),
            None => self.answer_text(rt, alloc, turn, text, number, sink, gate, steps, parsed),
        }
    }

    /// Looks for what the cache has for a text, where it is asked. Where it has nothing, the session has only seen what others did.
    fn look<R: Wait>(
        &mut self,
        rt: &R,
        alloc: Global,
        turn: &Turn<Server>,
        text: &[u8],
    ) -> Result<Option<Found>, NoMemory>
        requires { MayAnswer turn.now self.old }
        ensures found { IfOk result (λ r. MatchOption r (LooksAgain turn.now self.old self.new) (HasFound turn.now text.now self.old self.new)) }
        ensures memory { OnErr result (LooksAgain turn.now self.old self.new) }
    {
        if !asks_cache(&self.options, &self.state, text) {
            return Ok(None);
        }
        let key = key(alloc, &self.state, text)?;
        let session = self.state.session();
        hold(
            Desk { rt, alloc, turn },
            &mut self.seat,
            session,
            &mut Lookup {
                key: key.bytes(),
                state: &self.state,
            },
        )
    }

    /// Answers a query by a hit, which the seat streams.
    fn answer_hit<K: ReplySink, G: Gate>(
        &mut self,
        turn: &Turn<Server>,
        found: Found,
        number: u64,
        sink: &mut K,
        gate: &G,
    ) -> Result<(), End>
        requires { (text : _) × (before : _) × MayAnswer turn.now before × HasFound turn.now text before self.old found }
        ensures replied { (text : _) (before : _) → MayAnswer turn.now before → HasFound turn.now text before self.old found → OnOk result (IsReplied turn.now (sent.Query text) before self.new (K.held sink.old) (K.held sink.new)) }
        ensures ends { (text : _) (before : _) → MayAnswer turn.now before → HasFound turn.now text before self.old found → OnErr result (MustEnd turn.now (sent.Query text) before self.new (K.held sink.old) (K.held sink.new)) }
        ensures cause { IfErr result (MayFail (K.faults sink.old) (K.faults sink.new)) }
        ensures later { K.faults sink.old ≤ K.faults sink.new }
    {
        let Found { hit, database } = found;
        self.arrive_at(hit.place, database);
        self.put_line(hit.place, Word::Hit);
        self.stream_hit(turn, hit, number, sink, gate)
    }

    /// A hit's SELECT arrives. Where its transaction has no snapshot, it takes one of the share that was made for it.
    fn arrive_at(&mut self, place: u64, share: Option<Database>)
        ensures { self.new ≡ record self.old { state = seen_with place share (after_arrival self.old.state) } }
    {
        self.state.arrive();
        if let Some(database) = share {
            self.state.see(place, database);
        }
    }

    /// Answers a text that no hit was found for. One that was parsed lately, and is kept, isn't parsed again.
    fn answer_text<R: Wait, K: ReplySink, G: Gate, L: Ledger>(
        &mut self,
        rt: &R,
        alloc: Global,
        turn: &Turn<Server>,
        text: &[u8],
        number: u64,
        sink: &mut K,
        gate: &G,
        steps: &mut Steps<L>,
        parsed: &mut ParsedSelects,
    ) -> Result<(), End>
        requires rest { MayAnswer turn.now self.old }
        requires within { length text.now < most_payload }
        ensures replied { OnOk result (IsReplied turn.now (sent.Query text.now) self.old self.new (K.held sink.old) (K.held sink.new)) }
        ensures ends { OnErr result (MustEnd turn.now (sent.Query text.now) self.old self.new (K.held sink.old) (K.held sink.new)) }
        ensures cause { IfErr result (MayFail (K.faults sink.old) (K.faults sink.new)) }
        ensures later { K.faults sink.old ≤ K.faults sink.new }
        ensures hits_read_no_row { (line : _) → self.new.log.lines ≡ self.old.log.lines ++ line ∷ [] → line.how ≡ word.Hit → steps.new ≡ steps.old }
    {
        let ansi = self.state.flags().ansi;
        match parsed.take(trimmed(text), ansi) {
            Some(select) => self.answer_parsed(
                rt, alloc, turn, text, select, number, sink, gate, steps, parsed,
            ),
            None => self.answer_unparsed(rt, alloc, turn, text, number, sink, gate, steps, parsed),
        }
    }

    /// Answers a SELECT that was kept, and keeps it again.
    fn answer_parsed<R: Wait, K: ReplySink, G: Gate, L: Ledger>(
        &mut self,
        rt: &R,
        alloc: Global,
        turn: &Turn<Server>,
        text: &[u8],
        select: ParsedSelect,
        number: u64,
        sink: &mut K,
        gate: &G,
        steps: &mut Steps<L>,
        parsed: &mut ParsedSelects,
    ) -> Result<(), End>
        requires rest { MayAnswer turn.now self.old }
        requires within { length text.now < most_payload }
        requires means { grammar.meaning (grammar.trimmed text.now) self.old.state.state.ansi ≡ Ok (statement.Select select) }
        ensures replied { OnOk result (IsReplied turn.now (sent.Query text.now) self.old self.new (K.held sink.old) (K.held sink.new)) }
        ensures ends { OnErr result (MustEnd turn.now (sent.Query text.now) self.old self.new (K.held sink.old) (K.held sink.new)) }
        ensures cause { IfErr result (MayFail (K.faults sink.old) (K.faults sink.new)) }
        ensures later { K.faults sink.old ≤ K.faults sink.new }
        ensures hits_read_no_row { (line : _) → self.new.log.lines ≡ self.old.log.lines ++ line ∷ [] → line.how ≡ word.Hit → steps.new ≡ steps.old }
    {
        let replied = self.answer_select(
            rt,
            alloc,
            turn,
            text,
            select.select(),
            number,
            sink,
            gate,
            steps,
        );
        parsed.keep(select);
        replied
    }

    /// Parses a text, and answers it.
    fn answer_unparsed<R: Wait, K: ReplySink, G: Gate, L: Ledger>(
        &mut self,
        rt: &R,
        alloc: Global,
        turn: &Turn<Server>,
        text: &[u8],
        number: u64,
        sink: &mut K,
        gate: &G,
        steps: &mut Steps<L>,
        parsed: &mut ParsedSelects,
    ) -> Result<(), End>
        requires rest { MayAnswer turn.now self.old }
        requires within { length text.now < most_payload }
        ensures replied { OnOk result (IsReplied turn.now (sent.Query text.now) self.old self.new (K.held sink.old) (K.held sink.new)) }
        ensures ends { OnErr result (MustEnd turn.now (sent.Query text.now) self.old self.new (K.held sink.old) (K.held sink.new)) }
        ensures cause { IfErr result (MayFail (K.faults sink.old) (K.faults sink.new)) }
        ensures later { K.faults sink.old ≤ K.faults sink.new }
        ensures hits_read_no_row { (line : _) → self.new.log.lines ≡ self.old.log.lines ++ line ∷ [] → line.how ≡ word.Hit → steps.new ≡ steps.old }
    {
        match parse(alloc, trimmed(text), self.state.flags().ansi) {
            Ok(statement) => self.answer_statement(
                rt, alloc, turn, text, statement, number, sink, gate, steps, parsed,
            ),
            Err(Or::Other(refusal)) => self.answer_fault(alloc, turn, &refusal, number, sink, gate),
            Err(Or::Memory) => Err(End::Memory),
        }
    }

    /// Answers the statement that a text is.
    fn answer_statement<R: Wait, K: ReplySink, G: Gate, L: Ledger>(
        &mut self,
        rt: &R,
        alloc: Global,
        turn: &Turn<Server>,
        text: &[u8],
        statement: Statement,
        number: u64,
        sink: &mut K,
        gate: &G,
        steps: &mut Steps<L>,
        parsed: &mut ParsedSelects,
    ) -> Result<(), End>
        requires rest { MayAnswer turn.now self.old }
        requires within { length text.now < most_payload }
        requires short { is_short_statement statement ≡ true }
        requires means { grammar.meaning (grammar.trimmed text.now) self.old.state.state.ansi ≡ Ok statement }
        ensures replied { OnOk result (IsReplied turn.now (sent.Query text.now) self.old self.new (K.held sink.old) (K.held sink.new)) }
        ensures ends { OnErr result (MustEnd turn.now (sent.Query text.now) self.old self.new (K.held sink.old) (K.held sink.new)) }
        ensures cause { IfErr result (MayFail (K.faults sink.old) (K.faults sink.new)) }
        ensures later { K.faults sink.old ≤ K.faults sink.new }
        ensures hits_read_no_row { (line : _) → self.new.log.lines ≡ self.old.log.lines ++ line ∷ [] → line.how ≡ word.Hit → steps.new ≡ steps.old }
    {
        match statement {
            Statement::Select(select) => {
                self.answer_new(
                    rt, alloc, turn, text, select, number, sink, gate, steps, parsed,
                )
            }
            other => self.execute_and_reply(rt, alloc, turn, &other, number, sink, gate, steps),
        }
    }

    /// Answers a SELECT that was just parsed, and keeps it.
    fn answer_new<R: Wait, K: ReplySink, G: Gate, L: Ledger>(
        &mut self,
        rt: &R,
        alloc: Global,
        turn: &Turn<Server>,
        text: &[u8],
        select: Select,
        number: u64,
        sink: &mut K,
        gate: &G,
        steps: &mut Steps<L>,
        parsed: &mut ParsedSelects,
    ) -> Result<(), End>
        requires rest { MayAnswer turn.now self.old }
        requires within { length text.now < most_payload }
        requires short { is_short_select select ≡ true }
        requires means { grammar.meaning (grammar.trimmed text.now) self.old.state.state.ansi ≡ Ok (statement.Select select) }
        ensures replied { OnOk result (IsReplied turn.now (sent.Query text.now) self.old self.new (K.held sink.old) (K.held sink.new)) }
        ensures ends { OnErr result (MustEnd turn.now (sent.Query text.now) self.old self.new (K.held sink.old) (K.held sink.new)) }
        ensures cause { IfErr result (MayFail (K.faults sink.old) (K.faults sink.new)) }
        ensures later { K.faults sink.old ≤ K.faults sink.new }
        ensures hits_read_no_row { (line : _) → self.new.log.lines ≡ self.old.log.lines ++ line ∷ [] → line.how ≡ word.Hit → steps.new ≡ steps.old }
    {
        let ansi = self.state.flags().ansi;
        let replied = self.answer_select(rt, alloc, turn, text, &select, number, sink, gate, steps);
        if let Some(select) = ParsedSelect::of(alloc, trimmed(text), ansi, select) {
            parsed.keep(select);
        }
        replied
    }

    /// Answers a statement that is no SELECT, and sends its reply.
    fn execute_and_reply<R: Wait, K: ReplySink, G: Gate, L: Ledger>(
        &mut self,
        rt: &R,
        alloc: Global,
        turn: &Turn<Server>,
        statement: &Statement,
        number: u64,
        sink: &mut K,
        gate: &G,
        steps: &mut Steps<L>,
    ) -> Result<(), End>
        requires rest { MayAnswer turn.now self.old }
        requires short { is_short_statement statement.now ≡ true }
        requires other { is_select statement.now ≡ false }
        ensures replied { (text : _) → grammar.meaning (grammar.trimmed text) self.old.state.state.ansi ≡ Ok statement.now → OnOk result (IsReplied turn.now (sent.Query text) self.old self.new (K.held sink.old) (K.held sink.new)) }
        ensures ends { (text : _) → grammar.meaning (grammar.trimmed text) self.old.state.state.ansi ≡ Ok statement.now → OnErr result (MustEnd turn.now (sent.Query text) self.old self.new (K.held sink.old) (K.held sink.new)) }
        ensures cause { IfErr result (MayFail (K.faults sink.old) (K.faults sink.new)) }
        ensures later { K.faults sink.old ≤ K.faults sink.new }
        ensures no_hit { (text : _) (line : _) → grammar.meaning (grammar.trimmed text) self.old.state.state.ansi ≡ Ok statement.now → self.new.log.lines ≡ self.old.log.lines ++ line ∷ [] → line.how ≢ word.Hit }
    {
        let reply = self.execute_statement(rt, alloc, turn, statement, steps)?;
        self.send_reply(reply.bytes(), number, sink, gate)
    }

    /// Answers a text that is no statement.
    fn answer_fault<K: ReplySink, G: Gate>(
        &mut self,
        alloc: Global,
        turn: &Turn<Server>,
        refusal: &ParseRefusal,
        number: u64,
        sink: &mut K,
        gate: &G,
    ) -> Result<(), End>
        requires rest { MayAnswer turn.now self.old }
        requires told { IsTold (as_meant refusal.now) }
        ensures replied { (text : _) → grammar.meaning (grammar.trimmed text) self.old.state.state.ansi ≡ Err (as_meant refusal.now) → OnOk result (IsReplied turn.now (sent.Query text) self.old self.new (K.held sink.old) (K.held sink.new)) }
        ensures ends { (text : _) → grammar.meaning (grammar.trimmed text) self.old.state.state.ansi ≡ Err (as_meant refusal.now) → OnErr result (MustEnd turn.now (sent.Query text) self.old self.new (K.held sink.old) (K.held sink.new)) }
        ensures cause { IfErr result (MayFail (K.faults sink.old) (K.faults sink.new)) }
        ensures later { K.faults sink.old ≤ K.faults sink.new }
    {
        let reply = self.tell_fault(alloc, turn, refusal)?;
        self.send_reply(reply.bytes(), number, sink, gate)
    }

    /// What a text is told that is no statement.
    fn tell_fault(
        &mut self,
        alloc: Global,
        turn: &Turn<Server>,
        refusal: &ParseRefusal,
    ) -> Result<Text, NoMemory>
        requires rest { MayAnswer turn.now self.old }
        requires told { IsTold (as_meant refusal.now) }
        ensures tells { IfOk result (λ reply. TellsOut turn.now self.old self.new reply (machine.refused (machine.fault_error (as_meant refusal.now))) self.old.state.state) }
        ensures same { OnErr result (self.new ≡ self.old) }
    {
        let error = fault_error(alloc, refusal)?;
        self.tell_error(alloc, turn, &error)
    }
}
