//! What came of each step is compared.

use crate::answers::Form;
use crate::cases::{Case, Step};
use crate::events::Seen;
use crate::line::Line;
use crate::told::Told;
use qc_app::{Event, Report, ReportLine, SessionReport};
use qc_types::NoMemory;

/// So many bytes of a command are told.
const MOST_TOLD: usize = 120;

/// Compares what came of the commands of all sessions.
pub fn compare_steps(case: &Case<'_>, report: &Report, told: &mut Told) -> Result<(), NoMemory> {
    let sessions = report.sessions.items();
    for number in 0..case.last_session().saturating_add(1) {
        match sessions.iter().find(|session| session.session == number) {
            Some(session) => compare_session(case, session, report.journal.items(), told)?,
            None if case.steps.iter().any(|step| step.session == number) => {
                told.tell_number("no session ", u64::from(number))?
            }
            None => {}
        }
    }
    Ok(())
}

fn compare_session(
    case: &Case<'_>,
    session: &SessionReport,
    journal: &[Event],
    told: &mut Told,
) -> Result<(), NoMemory> {
    let number = session.session;
    let mut lines = session.lines.items().iter();
    let mut seen = Seen::none(number);
    let mut commands = own_pings(case, number);
    for step in &case.steps {
        if step.session == number && step.has_line() {
            commands = commands.wrapping_add(1);
            if let Some(line) = lines.next() {
                compare_line(case, step, line, journal, &mut seen, told)?;
            }
        }
    }
    if session.lines.items().len() != commands {
        told.tell_number("more or fewer lines of session ", u64::from(number))?;
    }
    if case.form == Form::Whole && !seen.are_all(journal) {
        told.tell_number("events without a line of session ", u64::from(number))?;
    }
    Ok(())
}

/// How many lines the suite's own commands of a session have: a ping stands behind those of each of several sessions, unless it ends before.
fn own_pings(case: &Case<'_>, session: u8) -> usize {
    let mut goes_on = true;
    for step in &case.steps {
        if step.session == session && !step.is_piece {
            goes_on = step.has_line();
        }
    }
    usize::from(goes_on && session > 0 && case.last_session() > 1)
}

/// The form in which an answer is wanted.
fn form_of(case: &Case<'_>, wanted: &str) -> Form {
    match case.form {
        Form::Whole if wanted.starts_with("bytes ") => Form::Bytes,
        Form::Columns { .. } => Form::Columns {
            with_names: has_names(wanted),
        },
        form => form,
    }
}

/// Whether the name of the first column has those of databases and tables beside it, and so four points.
fn has_names(wanted: &str) -> bool {
    match wanted.split_once(" flags ") {
        Some((first, _)) => first.split('.').count() > 4,
        None => false,
    }
}

/// Compares what came of a command, in the form in which it is wanted.
fn compare_line(
    case: &Case<'_>,
    step: &Step<'_>,
    line: &ReportLine,
    journal: &[Event],
    seen: &mut Seen,
    told: &mut Told,
) -> Result<(), NoMemory> {
    let wanted = step.wanted.unwrap_or("");
    let mut found = Line::new(case.alloc);
    found.put_answer(line.reply.bytes(), form_of(case, wanted))?;
    if case.form == Form::Whole {
        found.put(" | ")?;
        found.put_event_of(line, journal, seen)?;
    }
    if step.wanted.is_some() && found.bytes() != wanted.as_bytes() {
        told.compare(
            what_of(case, step)?.bytes(),
            found.bytes(),
            wanted.as_bytes(),
        )?;
    }
    Ok(())
}

/// A step, for people.
fn what_of(case: &Case<'_>, step: &Step<'_>) -> Result<Line, NoMemory> {
    let text = step.text.as_bytes();
    let mut what = Line::new(case.alloc);
    what.put_number("line ", step.line)?;
    what.put_number(", session ", u64::from(step.session))?;
    what.put(": ")?;
    what.put_bytes(text.get(..MOST_TOLD).unwrap_or(text))?;
    Ok(what)
}
