//! What became of a session and what stands in the journal, in words.

use qc_model::events::{Event, GoneWhy, How, Reason, Who};
use qc_serve::{End, Piece};
use qc_turn::Task;
use qc_types::SqlError;
use std::alloc::{AllocError, Global};

/// A line with a session's number, how it has ended, how many bytes it was sent, and in how many puts, each with the task that the seat had.
pub(crate) fn session_told(
    alloc: Global,
    number: u8,
    end: Option<End>,
    pieces: &[Piece],
) -> Result<String, AllocError> {
    let mut bytes = 0usize;
    for piece in pieces {
        bytes = bytes.wrapping_add(piece.bytes.bytes().len());
    }
    let puts = puts_told(alloc, pieces)?;
    match end {
        Some(end) => format!(in alloc; "{number}: {end:?}, {bytes} bytes{puts}\n"),
        None => format!(in alloc; "{number}: goes on, {bytes} bytes{puts}\n"),
    }
}

/// A line with the number of a seat that was refused, and why.
pub(crate) fn refusal_told(
    alloc: Global,
    seat: u32,
    error: &SqlError,
) -> Result<String, AllocError> {
    let state = String::from_utf8_lossy(alloc, &error.state)?;
    let message = String::from_utf8_lossy(alloc, error.message.bytes())?;
    format!(in alloc; "seat {seat}: {} {state} {message}\n", error.code)
}

/// How many puts there were while the seat had one task, one after another.
fn puts_told(alloc: Global, pieces: &[Piece]) -> Result<String, AllocError> {
    let mut told = String::new(alloc);
    let mut count = 0usize;
    for (place, piece) in pieces.iter().enumerate() {
        count = count.wrapping_add(1);
        let next = pieces.get(place.wrapping_add(1));
        if !next.is_some_and(|next| is_same(next.task, piece.task)) {
            put_puts(alloc, count, piece.task, &mut told)?;
            count = 0;
        }
    }
    Ok(told)
}

fn is_same(one: Task, other: Task) -> bool {
    match (one, other) {
        (Task::Rest, Task::Rest) => true,
        (Task::Stream(a), Task::Stream(b)) | (Task::Fill(a), Task::Fill(b)) => a == b,
        _ => false,
    }
}

fn put_puts(alloc: Global, count: usize, task: Task, told: &mut String) -> Result<(), AllocError> {
    let puts = match task {
        Task::Rest => format!(in alloc; ", {count} at rest"),
        Task::Stream(serial) => format!(in alloc; ", {count} at stream {serial}"),
        Task::Fill(serial) => format!(in alloc; ", {count} at fill {serial}"),
    }?;
    told.push_str(puts.as_str())
}

/// An event and a comma, as a report has it, but without keys, tables and operations.
pub(crate) fn event_told(alloc: Global, event: &Event) -> Result<String, AllocError> {
    match event {
        Event::Run { who, how } => how_told(alloc, *who, how),
        Event::Commit { who, ops: _ } => who_told(alloc, "commit", *who, ""),
        Event::Flush { who } => who_told(alloc, "flush", *who, ""),
        Event::Done { serial } => format!(in alloc; "done {serial}; "),
        Event::Gone { serial, why } => gone_told(alloc, *serial, *why),
        Event::Reset { .. } | Event::Prune { .. } => String::from_str(alloc, "another event; "),
    }
}

/// A word, a session and the number of its event, and what else there is.
fn who_told(alloc: Global, word: &str, who: Who, rest: &str) -> Result<String, AllocError> {
    let Who { session, number } = who;
    format!(in alloc; "{word} {session} {number}{rest}; ")
}

fn how_told(alloc: Global, who: Who, how: &How) -> Result<String, AllocError> {
    let Who { session, number } = who;
    match how {
        How::Hit(serial) => format!(in alloc; "run {session} {number} hit {serial}; "),
        How::Start { serial, .. } => format!(in alloc; "run {session} {number} start {serial}; "),
        How::Plain(Reason::Error(code)) => {
            format!(in alloc; "run {session} {number} plain error {code}; ")
        }
        How::Plain(Reason::NotAsked) => who_told(alloc, "run", who, " plain notasked"),
        How::Plain(Reason::Written(_)) => who_told(alloc, "run", who, " plain written"),
        How::Plain(_) => who_told(alloc, "run", who, " plain"),
        How::Status(_) => who_told(alloc, "run", who, " status"),
        How::Conflict { .. } => who_told(alloc, "run", who, " conflict"),
        How::Other => who_told(alloc, "run", who, " other"),
    }
}

fn gone_told(alloc: Global, serial: u64, why: GoneWhy) -> Result<String, AllocError> {
    match why {
        GoneWhy::TooLarge { length, limit } => {
            format!(in alloc; "gone {serial} toolarge {length} {limit}; ")
        }
        GoneWhy::NoRoom { need, largest } => {
            format!(in alloc; "gone {serial} noroom {need} {largest}; ")
        }
        GoneWhy::Ended => format!(in alloc; "gone {serial} ended; "),
    }
}
