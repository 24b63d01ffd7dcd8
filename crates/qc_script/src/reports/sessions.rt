//! The sessions of a report.

ghost use Rattle.std.specs.Prelude.{◌≡◌, ◌++◌, ◌∷◌, [], codes, OnOk};
ghost use Rattle.qc_model.specs.ReportText.{lines, fields, session_lines, ending_fields, line_text, word_text};
ghost use Rattle.qc_script.specs.ReportParts.{sessions_part, session_fields, head_fields, spaced};

use crate::reports::fields::{
    put_bytes, put_count, put_digits, put_number, put_word, put_word_of_pair,
};
use qc_model::reports::{Ending, ReportLine, SessionReport, Word};
use qc_types::{NoMemory, Text};
use std::alloc::Global;

/// What the line that begins a session tells of it.
#[derive(Clone, Copy)]
pub struct Head {
    pub session: u8,
    /// How many lines of commands follow.
    pub commands: u64,
    pub ending: Ending,
}

/// Puts how many sessions there are, and the lines of each. It takes time linear in the lines.
pub fn put_sessions(
    alloc: Global,
    sessions: &[SessionReport],
    out: &mut Text,
) -> Result<(), NoMemory>
    ensures { OnOk result (out.new ≡ out.old ++ lines (sessions_part sessions.now)) }
{
    put_count(alloc, b"sessions", sessions.len(), out)?;
    for session in sessions {
        put_session(alloc, session, out)?;
    }
    Ok(())
}

fn put_session(alloc: Global, session: &SessionReport, out: &mut Text) -> Result<(), NoMemory>
    ensures { OnOk result (out.new ≡ out.old ++ lines (session_lines session.now)) }
{
    put_head(alloc, head_of(session), out)?;
    for line in session.lines.items() {
        put_line(alloc, line, out)?;
    }
    Ok(())
}

/// The line that begins a session.
#[tactic(auto, using(crate::proofs::Joined::joined))]
pub fn put_head(alloc: Global, head: Head, out: &mut Text) -> Result<(), NoMemory>
    ensures { OnOk result (out.new ≡ out.old ++ lines (fields (codes "session" ∷ head_fields head) ∷ [])) }
{
    out.extend(b"session")?;
    put_head_fields(alloc, head, out)?;
    out.extend(b"\n")
}

fn put_head_fields(alloc: Global, head: Head, out: &mut Text) -> Result<(), NoMemory>
    ensures { OnOk result (out.new ≡ out.old ++ spaced (head_fields head)) }
{
    put_number(alloc, head.session as u64, out)?;
    put_word(b"commands", out)?;
    put_number(alloc, head.commands, out)?;
    put_word(b"end", out)?;
    put_ending(alloc, head.ending, out)
}

/// What the line that begins a session tells of it.
fn head_of(session: &SessionReport) -> Head
    ensures { head_fields result ≡ session_fields session.now }
{
    Head {
        session: session.session,
        commands: session.lines.items().len() as u64,
        ending: session.ending,
    }
}

fn put_ending(alloc: Global, ending: Ending, out: &mut Text) -> Result<(), NoMemory>
    ensures { OnOk result (out.new ≡ out.old ++ spaced (ending_fields ending)) }
{
    match ending {
        Ending::Quit => put_word(b"quit", out),
        Ending::Input => put_word(b"input", out),
        Ending::Cut(bytes) => {
            put_word(b"cut", out)?;
            put_number(alloc, bytes as u64, out)
        }
        Ending::TooLong(bytes) => {
            put_word(b"toolong", out)?;
            put_number(alloc, bytes as u64, out)
        }
        Ending::BadSequence { found, wanted } => {
            put_word_of_pair(alloc, b"badsequence", found as u64, wanted as u64, out)
        }
    }
}

/// Puts the line of a command.
pub fn put_line(alloc: Global, line: &ReportLine, out: &mut Text) -> Result<(), NoMemory>
    ensures { OnOk result (out.new ≡ out.old ++ lines (line_text line.now ∷ [])) }
{
    put_digits(alloc, line.place, out)?;
    put_word(word_bytes(line.how), out)?;
    put_bytes(alloc, line.reply.bytes(), out)?;
    out.extend(b"\n")
}

fn word_bytes(word: Word) -> &'static [u8]
    ensures { result.now ≡ word_text word }
{
    match word {
        Word::Hit => b"hit",
        Word::Start => b"start",
        Word::Plain => b"plain",
        Word::Other => b"other",
        Word::Local => b"local",
    }
}
