//! What is shown of a report.

ghost use Rattle.std.specs.Prelude.{◌≡◌, ◌⊎◌, IfErr, OnOk, option_map};
ghost use Rattle.qc_show.specs.Refusals.{HasCause, HasScriptCause, IsScript, MayShow};

use crate::arguments::View;
use crate::client::put_packets;
use crate::fault::{Fault, Refusal};
use crate::lives::{Life, Lives, database_of, statement_of};
use crate::page::put_page;
use crate::plain::{Within, put_count, put_plain};
use crate::script::{Commands, commands_of_events, put_command};
use crate::sessions::SessionName;
use crate::summary::put_summary;
use crate::tables::put_tables;
use crate::words::{Seen, put_end, put_event};
use qc_model::reports::{Ending, Report, SessionReport, Word};
use qc_script::{read_report, read_script};
use std::alloc::Global;
use std::io::Write;

/// The most bytes of a report.
const MOST_REPORT: usize = 4_294_967_294;

/// Shows a report, as the view says, with the texts of the script's commands where there is a script. About linear in the report.
pub fn show<W: Write>(
    alloc: Global,
    view: View,
    report: &[u8],
    script: Option<&[u8]>,
    out: &mut W,
) -> Result<(), Refusal>
    // Only a report is shown, and beside it only a script.
    ensures shown { OnOk result (MayShow report.now (option_map (λ text. text.now) script.entry)) }
    ensures cause { IfErr result (HasCause report.now (option_map (λ text. text.now) script.entry)) }
    // Whatever the result, nothing is written where it is no report, or no script beside it.
    ensures untouched { (out.new ≡ out.old) ⊎ MayShow report.now (option_map (λ text. text.now) script.entry) }
{
    if report.len() > MOST_REPORT {
        return Err(Refusal::TooLong);
    }
    let report = read_report(alloc, report)?;
    let commands = commands_in(alloc, script)?;
    put_view(alloc, out, view, &report, &commands)?;
    Ok(())
}

/// The commands of the script, or none where there is no script.
fn commands_in(alloc: Global, script: Option<&[u8]>) -> Result<Commands, Refusal>
    ensures read { OnOk result (IsScript (option_map (λ text. text.now) script.entry)) }
    ensures cause { IfErr result (HasScriptCause (option_map (λ text. text.now) script.entry)) }
{
    let Some(script) = script else {
        return Ok(Commands::none(alloc));
    };
    let script = read_script(alloc, script)?;
    match Commands::of(alloc, &script) {
        Ok(commands) => Ok(commands),
        Err(_) => Err(Refusal::Fault(Fault::Memory)),
    }
}

fn put_view<W: Write>(
    alloc: Global,
    out: &mut W,
    view: View,
    report: &Report,
    commands: &Commands,
) -> Result<(), Fault> {
    match view {
        View::Replies => put_sessions(alloc, out, report, commands),
        View::Journal => put_journal(alloc, out, report, commands),
        View::Entries => put_entries(alloc, out, report),
        View::Summary => put_summary(alloc, out, report, commands),
        View::Html => put_page(alloc, out, report, commands),
    }
}

// ---- sessions

fn put_sessions<W: Write>(
    alloc: Global,
    out: &mut W,
    report: &Report,
    commands: &Commands,
) -> Result<(), Fault> {
    for (index, session) in report.sessions.items().iter().enumerate() {
        if index != 0 {
            out.write_all(b"\n")?;
        }
        put_session(alloc, out, session, commands)?;
    }
    Ok(())
}

fn put_session<W: Write>(
    alloc: Global,
    out: &mut W,
    session: &SessionReport,
    commands: &Commands,
) -> Result<(), Fault> {
    let name = SessionName(session.session);
    write!(out, "{name}: ")?;
    put_count(
        out,
        session.lines.items().len() as u64,
        "command",
        "commands",
    )?;
    out.write_all(b", ")?;
    put_ending(out, session.ending)?;
    out.write_all(b"\n")?;
    for (index, line) in session.lines.items().iter().enumerate() {
        let place = line.place;
        let word = word_text(line.how);
        writeln!(out, "\n{place} {word}")?;
        if let Some(command) = commands.get(session.session, index) {
            out.write_all(b"> ")?;
            put_command(out, Within::Line, command)?;
            out.write_all(b"\n")?;
        }
        put_packets(alloc, out, line.reply.bytes())?;
    }
    Ok(())
}

fn word_text(word: Word) -> &'static str {
    match word {
        Word::Hit => "hit",
        Word::Start => "start",
        Word::Plain => "plain",
        Word::Other => "other",
        Word::Local => "local",
    }
}

fn put_ending<W: Write>(out: &mut W, ending: Ending) -> Result<(), Fault> {
    match ending {
        Ending::Quit => out.write_all(b"and then it quit")?,
        Ending::Input => out.write_all(b"to the end of its input")?,
        Ending::Cut(bytes) => write!(
            out,
            "and then a packet that is cut off behind {bytes} bytes"
        )?,
        Ending::TooLong(bytes) => write!(
            out,
            "and then a packet that is too long, of {bytes} bytes"
        )?,
        Ending::BadSequence { found, wanted } => write!(
            out,
            "and then a packet with number {found} in place of {wanted}"
        )?,
    }
    Ok(())
}

// ---- the journal

fn put_journal<W: Write>(
    alloc: Global,
    out: &mut W,
    report: &Report,
    commands: &Commands,
) -> Result<(), Fault> {
    let decided = commands_of_events(alloc, report, commands)?;
    let mut lives = Lives::new(alloc);
    for (index, event) in report.journal.items().iter().enumerate() {
        let place = index as u64 + 1;
        let ended = lives.take(place, event)?;
        let seen = Seen {
            event,
            ended: ended.as_slice(),
            command: decided.get(index).copied().flatten(),
        };
        write!(out, "{place}  ")?;
        put_event(out, Within::Line, &lives, seen)?;
        out.write_all(b"\n")?;
    }
    Ok(())
}

// ---- entries

fn put_entries<W: Write>(alloc: Global, out: &mut W, report: &Report) -> Result<(), Fault> {
    let lives = Lives::of(alloc, report.journal.items())?;
    for (index, life) in lives.all().iter().enumerate() {
        if index != 0 {
            out.write_all(b"\n")?;
        }
        put_life(out, life)?;
    }
    Ok(())
}

fn put_life<W: Write>(out: &mut W, life: &Life<'_>) -> Result<(), Fault> {
    let serial = life.serial;
    write!(out, "entry {serial}: ")?;
    put_plain(out, Within::Line, statement_of(life.key))?;
    out.write_all(b"\n  tables: ")?;
    put_tables(out, Within::Line, life.tables)?;
    out.write_all(b"; current database: ")?;
    put_database(out, database_of(life.key))?;
    put_course(out, life)
}

fn put_database<W: Write>(out: &mut W, name: &[u8]) -> Result<(), Fault> {
    if name.is_empty() {
        out.write_all(b"none")?;
        return Ok(());
    }
    put_plain(out, Within::Line, name)
}

fn put_course<W: Write>(out: &mut W, life: &Life<'_>) -> Result<(), Fault> {
    let session = SessionName(life.session);
    let begun = life.begun;
    write!(out, "\n  begun by {session} at event {begun}")?;
    match life.complete {
        Some(place) => write!(out, ", complete at event {place}\n  ")?,
        None => out.write_all(b", never complete\n  ")?,
    }
    put_count(out, life.hits, "hit", "hits")?;
    if life.hits > 0 {
        let last = life.last_hit;
        write!(out, ", the last at event {last}")?;
    }
    out.write_all(b"\n  ")?;
    match life.end {
        Some(end) => put_end(out, end)?,
        None => out.write_all(b"there at the end")?,
    }
    out.write_all(b"\n")?;
    Ok(())
}
