//! A case is played, and what comes of it is compared.

use crate::cases::{Block, Case};
use crate::gate::CaseGate;
use crate::line::Line;
use crate::script::{ended, owned, script_of};
use crate::steps::compare_steps;
use crate::told::Told;
use crate::views::compare_view;
use qc_app::{Ended, Report, qcache_main};
use qc_script::{read_report, report_text};
use qc_types::{BytesSink, BytesSource, NoMemory, Or};
use std::sync::Wait;
use std::thread::Threads;

/// The most bytes that a read gives, unless a case says otherwise.
const PIECE: u64 = 65_536;

/// How a call ended, and what it wrote.
#[derive(Drop)]
struct Ran {
    ended: Ended,
    out: BytesSink,
}

/// What a run is for.
#[derive(Clone, Copy)]
enum Aim<'a> {
    /// What comes of the case.
    Whole,
    /// The read with this number fails. Unless the case says how it ends, nothing is run.
    Read(u64),
    /// The put with this number fails. Unless the case says how it ends, what is written is the beginning of what this run wrote.
    Put(u64, &'a Ran),
    /// The case on other words, where each reply is that of this run.
    On(&'a str, &'a Ran),
}

/// A case with its script, and the most bytes that a read gives.
#[derive(Clone, Copy)]
struct Stage<'a, R> {
    rt: &'a R,
    case: &'a Case<'a>,
    script: &'a [u8],
    piece: u64,
}

/// Plays a case, and gives how many runs it has and what differs.
pub fn play<R: Threads + Wait + Sync>(rt: &R, case: &Case<'_>) -> Result<(u64, Told), NoMemory> {
    let mut told = Told::new(case.alloc);
    for number in &case.bad_lines {
        told.tell_number("a line that means nothing there: ", *number)?;
    }
    if let Some(misfit) = case.misfit() {
        told.tell(misfit.as_bytes())?;
    }
    if !told.is_empty() {
        return Ok((0, told));
    }
    if case.asks_for("show") {
        compare_view(case, &mut told)?;
        return Ok((1, told));
    }
    let script = script_of(case)?;
    let mut runs = 0u64;
    let pieces: &[u64] = if case.pieces.is_empty() {
        &[PIECE]
    } else {
        &case.pieces
    };
    for piece in pieces {
        let stage = Stage {
            rt,
            case,
            script: ended(case, script.bytes()),
            piece: *piece,
        };
        runs = runs.wrapping_add(stage.play(&mut told)?);
    }
    Ok((runs, told))
}

impl<'a, R: Threads + Wait + Sync> Stage<'a, R> {
    /// Plays one run for each read that fails, or else one, and then one for each put that fails and one on each other words.
    fn play(&self, told: &mut Told) -> Result<u64, NoMemory> {
        for read in &self.case.reads {
            self.play_one(Aim::Read(*read), told)?;
        }
        if !self.case.reads.is_empty() {
            return Ok(self.case.reads.len() as u64);
        }
        let whole = self.play_one(Aim::Whole, told)?;
        for put in &self.case.puts {
            self.play_one(Aim::Put(*put, &whole), told)?;
        }
        for words in &self.case.same_on {
            self.play_one(Aim::On(words, &whole), told)?;
        }
        let others = self.case.puts.len().wrapping_add(self.case.same_on.len());
        Ok(others.wrapping_add(1) as u64)
    }

    fn play_one(&self, aim: Aim<'_>, all: &mut Told) -> Result<Ran, NoMemory> {
        let gate = CaseGate::new(self.case, !matches!(aim, Aim::On(..)))?;
        let ran = self.run(aim, &gate)?;
        let mut told = Told::new(self.case.alloc);
        if gate.has_met_limit() {
            told.tell(b"a wait met its limit")?;
        }
        match aim {
            Aim::On(_, whole) => compare_on(&ran, whole, &mut told)?,
            Aim::Read(_) if !self.case.has_outcome() => {
                compare_end(self.case, &ran.ended, 3, &mut told)?;
                compare_report(self.case, &ran, &mut told)?;
                told.compare(b"written", ran.out.bytes(), b"")?;
            }
            Aim::Put(_, whole) if !self.case.has_outcome() => {
                compare_end(self.case, &ran.ended, 4, &mut told)?;
                if !whole.out.bytes().starts_with(ran.out.bytes()) {
                    told.compare(b"written", ran.out.bytes(), whole.out.bytes())?;
                }
            }
            _ => compare_whole(self.case, &ran, &gate, &mut told)?,
        }
        all.tell_all(&self.name_of(aim)?, &told)?;
        Ok(ran)
    }

    fn run(&self, aim: Aim<'_>, gate: &CaseGate<'_>) -> Result<Ran, NoMemory> {
        let alloc = self.case.alloc;
        let (mut reads, mut puts) = (Vec::new(alloc), Vec::new(alloc));
        match aim {
            Aim::Read(number) => reads.push(number)?,
            Aim::Put(number, _) => puts.push(number)?,
            _ => {}
        }
        let words = match aim {
            Aim::On(words, _) => owned(alloc, &words.split(' ').collect::<Vec<&str>>(alloc)?)?,
            _ => owned(alloc, &self.case.words)?,
        };
        let script = Vec::from_slice(alloc, self.script)?;
        let input = BytesSource::new(script, self.piece.max(1) as usize, reads);
        Ok(self.call(&words, input, BytesSink::new(alloc, puts), gate))
    }

    /// The call of the program.
    fn call(
        &self,
        words: &[String],
        input: BytesSource,
        out: BytesSink,
        gate: &CaseGate<'_>,
    ) -> Ran {
        let (mut input, mut out) = (input, out);
        let ended = qcache_main(self.rt, self.case.alloc, words, &mut input, &mut out, gate);
        Ran { ended, out }
    }

    /// A run, for people.
    fn name_of(&self, aim: Aim<'_>) -> Result<Line, NoMemory> {
        let mut name = Line::new(self.case.alloc);
        name.put_number("in pieces of ", self.piece)?;
        match aim {
            Aim::Whole => {}
            Aim::Read(number) => name.put_number(", where a read fails: ", number)?,
            Aim::Put(number, _) => name.put_number(", where a put fails: ", number)?,
            Aim::On(words, _) => {
                name.put(", on ")?;
                name.put(words)?;
            }
        }
        Ok(name)
    }
}

/// Each reply has the same bytes.
fn compare_on(ran: &Ran, whole: &Ran, told: &mut Told) -> Result<(), NoMemory> {
    match (&ran.ended.report, &whole.ended.report) {
        (Some(found), Some(wanted)) => {
            let found = replies_of(found, told)?;
            let wanted = replies_of(wanted, told)?;
            told.compare(b"replies", &found, &wanted)?;
        }
        _ => told.tell(b"there is no report")?,
    }
    compare_text(ran.out.bytes(), told)
}

/// The bytes of all replies, each behind its session.
fn replies_of(report: &Report, told: &Told) -> Result<Vec<u8>, NoMemory> {
    let mut replies = Vec::new(told.alloc);
    for session in report.sessions.items() {
        for line in session.lines.items() {
            replies.push(session.session)?;
            replies.extend_from_slice(line.reply.bytes())?;
        }
    }
    Ok(replies)
}

fn compare_whole(
    case: &Case<'_>,
    ran: &Ran,
    gate: &CaseGate<'_>,
    told: &mut Told,
) -> Result<(), NoMemory> {
    let written = ran.out.bytes();
    gate.compare(told)?;
    compare_end(case, &ran.ended, case.status.unwrap_or(0), told)?;
    compare_report(case, ran, told)?;
    match case.text(Block::Written) {
        Some(wanted) => told.compare(b"written", written, wanted)?,
        None if ran.ended.status != 0 => told.compare(b"written", written, b"")?,
        None => {}
    }
    if ran.ended.status == 0 && case.asks_for("run") {
        compare_text(written, told)?;
    }
    Ok(())
}

/// Compares what came of the steps, of which none came to anything where there is no report.
fn compare_report(case: &Case<'_>, ran: &Ran, told: &mut Told) -> Result<(), NoMemory> {
    match &ran.ended.report {
        Some(report) if !case.steps.is_empty() => compare_steps(case, report, told),
        None if case.steps.iter().any(|step| step.wanted.is_some()) => told.tell(
            b"there is no report",
        ),
        _ => Ok(()),
    }
}

/// Compares the status, the refusal and what they are told in.
fn compare_end(
    case: &Case<'_>,
    ended: &Ended,
    status: u8,
    told: &mut Told,
) -> Result<(), NoMemory> {
    let found = ended.status;
    if found != status {
        told.tell_number("status ", u64::from(found))?;
    }
    let refusal = match &ended.bad {
        Some(refusal) => refusal.to_string(case.alloc)?,
        None => String::new(case.alloc),
    };
    let wanted = case.refused.unwrap_or("");
    told.compare(b"refusal", refusal.as_bytes(), wanted.as_bytes())?;
    match case.text(Block::Told) {
        // Where puts fail, it is told of them.
        Some(wanted) if case.puts.is_empty() || case.has_outcome() || found == 4 => {
            told.compare_lines(&ended.to_string(case.alloc)?, wanted)
        }
        _ => Ok(()),
    }
}

/// A report is read as one whose text it is.
pub fn compare_text(report: &[u8], told: &mut Told) -> Result<(), NoMemory> {
    if report.len() >= u32::MAX as usize {
        return told.tell(b"the report is too long");
    }
    match read_report(told.alloc, report) {
        Ok(read) => {
            let text = report_text(told.alloc, &read)?;
            told.compare(b"the text of the report that is read", text.bytes(), report)
        }
        Err(Or::Other(line)) => told.tell_number("the report isn't read: line ", u64::from(line)),
        Err(Or::Memory) => Err(NoMemory),
    }
}
