//! The script of a case.

use crate::cases::{Block, Case, Step};
use crate::line::Line;
use qc_types::NoMemory;
use std::alloc::Global;

/// The bytes of the script: those that stand there, or the commands of the sessions. Behind the commands of each of several sessions stands a ping.
pub fn script_of(case: &Case<'_>) -> Result<Line, NoMemory> {
    let mut script = Line::new(case.alloc);
    match case.text(Block::Script) {
        Some(lines) => script.put_bytes(lines)?,
        None => put_sessions(case, &mut script)?,
    }
    Ok(script)
}

fn put_sessions(case: &Case<'_>, script: &mut Line) -> Result<(), NoMemory> {
    let steps = case.steps.as_slice();
    if steps.iter().any(|step| step.session == 0) {
        script.put("setup\n")?;
        put_commands(steps, 0, script)?;
    }
    for session in 1..case.last_session().saturating_add(1) {
        script.put_number("session ", u64::from(session))?;
        script.put("\n")?;
        put_commands(steps, session, script)?;
        if case.last_session() > 1 {
            script.put("ping\n")?;
        }
    }
    Ok(())
}

/// Puts the commands of a session down.
fn put_commands(steps: &[Step<'_>], session: u8, script: &mut Line) -> Result<(), NoMemory> {
    for step in steps {
        if step.session == session && !step.is_piece {
            let (front, text) = line_of(step.text);
            script.put(front)?;
            script.put(text)?;
            script.put("\n")?;
        }
    }
    Ok(())
}

/// A text, or where it has an open end, the text without its last byte.
pub fn ended<'a>(case: &Case<'_>, text: &'a [u8]) -> &'a [u8] {
    match text {
        [front @ .., _] if case.has_open_end => front,
        whole => whole,
    }
}

/// The line of a command in a script, in two parts.
fn line_of(text: &str) -> (&str, &str) {
    if text == "empty" {
        ("raw ", "00000000")
    } else if is_line(text) {
        ("", text)
    } else {
        ("query ", text)
    }
}

/// Whether a text is a line of a script as it is.
fn is_line(text: &str) -> bool {
    text == "ping"
        || text == "quit"
        || text.starts_with("init ")
        || text.starts_with("query ")
        || text.starts_with("raw ")
}

/// Words as the program takes them.
pub fn owned(alloc: Global, words: &[&str]) -> Result<Vec<String>, NoMemory> {
    let mut all = Vec::new(alloc);
    for word in words {
        all.push(String::from_str(alloc, word)?)?;
    }
    Ok(all)
}
