//! The top call: everything that the program does.

ghost use Rattle.std.specs.Prelude.{◌≡◌, ◌≤◌, ◌⊎◌, ◌==◌, true, false, map, string_bytes, Some, None, is_some, IfOk, IfErr, IfSome};
ghost use Rattle.qc_types.specs.declared.options.Options.{Options};
ghost use Rattle.qc_types.specs.Streams.{Rose};
ghost use Rattle.qc_script.specs.ShortNames.{HasShortNames};
ghost use Rattle.qc_core.specs.Whole.{IsSomewhereSound};
ghost use Rattle.qc_app.specs.ScriptRun.{AreTaken, MayRun};
ghost use Rattle.qc_app.specs.declared.arguments.reading.Asked.TheVariants as ask;
ghost use Rattle.qc_app.specs.Arguments.{asked_of, begins_with_run, options_asked};
ghost use Rattle.qc_app.specs.Ends.{HasEnded, HasRun, Seen, seen, text_made};
ghost use Rattle.qc_app.specs.Outcomes.{ended_of};
ghost use Rattle.qc_app.specs.Top.{HasReadFault, HoldsMore, HoldsPrefix, IsRunOf, IsScriptOf, IsShown, LeavesRun, RefusesAsked, Spells, TellsRefusal, reads_input, text_put};

use crate::arguments::{Asked, read_words};
use crate::reading::{Unread, read_input};
use crate::script_run::{Ran, run_script};
use crate::summary::summary_text;
use qc_core::Server;
use qc_model::reports::{Report, Script, ScriptRefusal};
use qc_script::{read_script, report_text, workload};
use qc_serve::{Gate, Receipts};
use qc_types::{NoMemory, Or, PutStep, Sink, Source, Text};
use std::alloc::Global;
use std::sync::Wait;
use std::thread::Threads;

/// How a call of the program ended.
#[derive(Drop)]
pub struct Ended {
    /// 0 where the whole report or summary was written, 1 for words that aren't in the form, 2 for a script that is refused, 3 for a fault of the
    /// input, 4 for one of the output, and 5 for want of memory.
    pub status: u8,
    /// The report: there at 0 and 4, and at 5 wherever something was written.
    pub report: Option<Report>,
    /// Why the script was refused: there at 2.
    pub bad: Option<ScriptRefusal>,
    /// The server as the last seat left it: there where the report is.
    pub server: Option<Server>,
    /// A receipt of each session of the report, in its order: there where the report is.
    pub receipts: Option<Receipts>,
}

/// What a call of the program ends with.
#[derive(Drop)]
enum Outcome {
    /// The whole text was written.
    Reported(Ran),
    /// The words aren't in the form.
    WrongArguments,
    /// The script is refused.
    Refused(ScriptRefusal),
    /// The input failed.
    ReadFault,
    /// The output failed. A prefix of this run's text was written.
    WriteFault(Ran),
    /// Memory was wanting: before there was a text, or when it was written.
    NoMemory(Option<Ran>),
}

impl Outcome {
    /// The same as a status, with the run and the refusal.
    fn ended(self) -> Ended
        ensures { result ≡ ended_of self }
    {
        let (status, ran, bad) = match self {
            Outcome::Reported(ran) => (0, Some(ran), None),
            Outcome::WrongArguments => (1, None, None),
            Outcome::Refused(refusal) => (2, None, Some(refusal)),
            Outcome::ReadFault => (3, None, None),
            Outcome::WriteFault(ran) => (4, Some(ran), None),
            Outcome::NoMemory(ran) => (5, ran, None),
        };
        let Some(ran) = ran else {
            return Ended {
                status,
                report: None,
                bad,
                server: None,
                receipts: None,
            };
        };
        let Ran {
            report,
            server,
            receipts,
        } = ran;
        Ended {
            status,
            report: Some(report),
            bad,
            server: Some(server),
            receipts: Some(receipts),
        }
    }
}

/// Does what the words behind the program's name ask for. `run` reads a script from the input to its end, or until it is too long for a
/// script, runs it over one shared server, and puts the text of the report to the output. The setup part of the script is run alone, and then its
/// sessions at the same time, each in a thread of its own where one can be made. `--size` is the bytes of the cache's memory, of which with 0 there is
/// none, `--limit` the most bytes of a reply that is kept, `--unit` the bytes of the least block for a reply, and `--type` the cache type with which
/// each session begins. `workload` and a number reads no input: it runs the workload's script with the default options, and puts six lines, whose numbers are
/// counted in the report. Each session passes the gate before each command, and between two pieces of a reply.
///
/// The words are validated first, then the input is read, then the script is validated, then it is run. Nothing is put before the run has ended.
/// A source or a sink that doesn't tell what it has left or holds is promised less: the clauses then speak of some input of which the
/// report is the run. The cost is linear in the input and the report, and besides each change costs what its table holds, and each
/// SELECT the row combinations that it reads.
pub fn qcache_main<R: Threads + Wait + Sync, S: Source, K: Sink, G: Gate + Sync>(
    rt: &R,
    alloc: Global,
    words: &[String],
    input: &mut S,
    out: &mut K,
    gate: &G,
) -> Ended
    ensures statuses { result.status ≤ 5 }
    ensures usage { result.status ≡ 1 → asked_of (map string_bytes words.now) ≡ None }
    ensures refuses_words { asked_of (map string_bytes words.now) ≡ None → (result.status ≡ 1) ⊎ (result.status ≡ 5) }
    ensures usage_at_once { asked_of (map string_bytes words.now) ≡ None → begins_with_run (map string_bytes words.now) ≡ false → result.status ≡ 1 }
    ensures untouched { reads_input (asked_of (map string_bytes words.now)) ≡ false → input.new ≡ input.old }
    ensures refusal_there { is_some result.bad ≡ (result.status == 2) }
    ensures refusal { IfSome result.bad (RefusesAsked (asked_of (map string_bytes words.now)) (S.left input.old)) }
    ensures report_there { (result.status ≡ 0) ⊎ (result.status ≡ 4) → is_some result.report ≡ true }
    ensures report_lacks { is_some result.report ≡ true → (result.status ≡ 0) ⊎ (result.status ≡ 4) ⊎ (result.status ≡ 5) }
    ensures agrees { IfSome result.report (IsRunOf (asked_of (map string_bytes words.now)) (S.left input.old) (S.left input.new)) }
    ensures shown { IsShown result }
    ensures nothing_written { result.report ≡ None → out.new ≡ out.old }
    ensures prefix_written { IfSome result.report (λ report. HoldsPrefix (K.held out.old) (K.held out.new) (text_put (asked_of (map string_bytes words.now)) report)) }
    ensures all_written { result.status ≡ 0 → IfSome result.report (λ report. HoldsMore (K.held out.old) (K.held out.new) (text_put (asked_of (map string_bytes words.now)) report)) }
    ensures read_fault { result.status ≡ 3 → HasReadFault (asked_of (map string_bytes words.now)) (S.faults input.old) (S.faults input.new) }
    ensures write_fault { result.status ≡ 4 → Rose (K.faults out.old) (K.faults out.new) }
    ensures refuses { TellsRefusal (asked_of (map string_bytes words.now)) (S.left input.old) true
        → (HasReadFault (asked_of (map string_bytes words.now)) (S.faults input.old) (S.faults input.new) → ⊥) → (result.status ≡ 2) ⊎ (result.status ≡ 5) }
    ensures completes { TellsRefusal (asked_of (map string_bytes words.now)) (S.left input.old) false
        → (HasReadFault (asked_of (map string_bytes words.now)) (S.faults input.old) (S.faults input.new) → ⊥)
        → (Rose (K.faults out.old) (K.faults out.new) → ⊥) → (result.status ≡ 0) ⊎ (result.status ≡ 5) }
{
    let asked = match read_words(alloc, words) {
        Ok(Some(asked)) => asked,
        Ok(None) => return Outcome::WrongArguments.ended(),
        Err(_) => return Outcome::NoMemory(None).ended(),
    };
    match script_asked(alloc, asked, input) {
        Ok(script) => run_asked(rt, alloc, asked, script, out, gate).ended(),
        Err(outcome) => outcome.ended(),
    }
}

/// The script that was asked for. The error is how the call ends without it.
fn script_asked<S: Source>(alloc: Global, asked: Asked, input: &mut S) -> Result<Script, Outcome>
    ensures script { IfOk result (λ script. MayRun script × IsScriptOf asked (S.left input.old) (S.left input.new) script) }
    ensures ends { IfErr result (λ outcome. (out out-now : Seen)
        → HasEnded (Some asked) (seen (S.left input.old) (S.faults input.old)) (seen (S.left input.new) (S.faults input.new)) out out-now (ended_of outcome)) }
    ensures untouched { reads_input (Some asked) ≡ false → input.new ≡ input.old }
{
    match asked {
        Asked::Run(_) => script_of_input(alloc, input),
        Asked::Workload(number) => match workload(alloc, number) {
            Ok(script) => Ok(script),
            Err(_) => Err(Outcome::NoMemory(None)),
        },
    }
}

/// The script that the input spells, which is read to its end. The error is how the call ends without it.
fn script_of_input<S: Source>(alloc: Global, input: &mut S) -> Result<Script, Outcome>
    ensures script { IfOk result (λ script. MayRun script × Spells (S.left input.old) (S.left input.new) script) }
    ensures ends { IfErr result (λ outcome. (options : Options) (out out-now : Seen)
        → HasEnded (Some (ask.Run options)) (seen (S.left input.old) (S.faults input.old)) (seen (S.left input.new) (S.faults input.new)) out out-now (ended_of outcome)) }
{
    let bytes = match read_input(alloc, input) {
        Ok(bytes) => bytes,
        Err(Unread::Failed) => return Err(Outcome::ReadFault),
        Err(Unread::Memory) => return Err(Outcome::NoMemory(None)),
    };
    match read_script(alloc, &bytes) {
        Ok(script) => Ok(script),
        Err(Or::Other(refusal)) => Err(Outcome::Refused(refusal)),
        Err(Or::Memory) => Err(Outcome::NoMemory(None)),
    }
}

/// Runs the script that was asked for, and puts the text of its run.
fn run_asked<R: Threads + Wait + Sync, K: Sink, G: Gate + Sync>(
    rt: &R,
    alloc: Global,
    asked: Asked,
    script: Script,
    out: &mut K,
    gate: &G,
) -> Outcome
    requires options { AreTaken (options_asked asked) }
    requires script { MayRun script }
    ensures run { HasRun asked script (seen (K.held out.old) (K.faults out.old)) (seen (K.held out.new) (K.faults out.new)) (ended_of result) }
    ensures nothing { (ended_of result).report ≡ None → out.new ≡ out.old }
{
    let Ok(ran) = run_script(rt, alloc, asked.options(), script, gate) else {
        return Outcome::NoMemory(None);
    };
    let Ok(text) = text_of(alloc, asked, &ran) else {
        return Outcome::NoMemory(None);
    };
    put_text(ran, text.bytes(), out)
}

/// The text that is put of a run: that of its report, or the summary of the workload.
fn text_of(alloc: Global, asked: Asked, ran: &Ran) -> Result<Text, NoMemory>
    requires names { HasShortNames ran.now.report }
    requires sound { IsSomewhereSound ran.now.server }
    requires journal { ran.now.server.journal.events ≡ ran.now.report.journal }
    ensures { IfOk result (λ text. text ≡ text_made asked ran.now.report) }
{
    match asked {
        Asked::Run(_) => report_text(alloc, &ran.report),
        Asked::Workload(number) => {
            summary_text(alloc, number, &ran.report, ran.server.database())
        }
    }
}

/// Puts a run's text at once, and ends.
fn put_text<K: Sink>(ran: Ran, text: &[u8], out: &mut K) -> Outcome
    ensures statuses { ((ended_of result).status ≡ 0) ⊎ ((ended_of result).status ≡ 4) ⊎ ((ended_of result).status ≡ 5) }
    ensures bad { (ended_of result).bad ≡ None }
    ensures there { ((ended_of result).status ≡ 0) ⊎ ((ended_of result).status ≡ 4) → is_some (ended_of result).report ≡ true }
    ensures same { LeavesRun ran (ended_of result) }
    ensures nothing { (ended_of result).report ≡ None → out.new ≡ out.old }
    ensures prefix { IfSome (ended_of result).report (λ _. HoldsPrefix (K.held out.old) (K.held out.new) text.now) }
    ensures all { (ended_of result).status ≡ 0 → IfSome (ended_of result).report (λ _. HoldsMore (K.held out.old) (K.held out.new) text.now) }
    ensures fault { (ended_of result).status ≡ 4 → Rose (K.faults out.old) (K.faults out.new) }
{
    match out.put(text) {
        PutStep::Done => Outcome::Reported(ran),
        PutStep::Failed => Outcome::WriteFault(ran),
        PutStep::Memory => Outcome::NoMemory(Some(ran)),
    }
}
