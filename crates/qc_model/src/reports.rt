//! Scripts and reports.

use crate::events::{Counters, Events};
use qc_types::{Options, OwnedList, Text, Texts};
use thiserror::Error;

/// The input of each session.
#[derive(Drop)]
pub struct Script {
    /// The input that is run alone first.
    pub setup: Option<Text>,
    /// The input of each session, from session 1 on: packets one after another.
    pub sessions: Texts,
}

/// Why a script means nothing: the first line that is wrong, by its number from 1, or its length.
#[derive(Debug, Drop, Error)]
pub enum ScriptRefusal {
    /// The line is none of a script's, or stands where it may not.
    #[error("script: bad line {0}")]
    BadLine(u32),
    /// A command stands before every session.
    #[error("script: no session at line {0}")]
    NoSession(u32),
    /// A session more than a script may have.
    #[error("script: too many sessions at line {0}")]
    TooManySessions(u32),
    /// More than 67,108,864 bytes.
    #[error("script: input too long")]
    InputTooLong,
}

/// How a command's reply came about.
#[derive(Clone, Copy, Debug, PartialEq, Eq)]
pub enum Word {
    /// From an entry of the cache.
    Hit,
    /// By a select that began an entry.
    Start,
    /// By a select outside the cache.
    Plain,
    /// By a command that is no select.
    Other,
    /// By the session alone, without an event.
    Local,
}

/// A command that was answered.
#[derive(Drop)]
pub struct ReportLine {
    /// The place in the journal of its event, or where it has none that of the line before, which is 0 for a first one.
    pub place: u64,
    /// How its reply came about.
    pub how: Word,
    /// Its packets.
    pub reply: Text,
}

/// What a session was answered, in order.
pub type ReportLines = OwnedList<ReportLine>;

/// How a session's input ended.
#[derive(Clone, Copy, Debug, PartialEq, Eq)]
pub enum Ending {
    /// By COM_QUIT.
    Quit,
    /// Behind a whole packet.
    Input,
    /// In a packet of which so many bytes stand there.
    Cut(u32),
    /// At a packet whose payload would have so many bytes, more than one may have.
    TooLong(u32),
    /// At a packet with a wrong sequence number.
    BadSequence {
        /// The number that it has.
        found: u8,
        /// The number that is wanted.
        wanted: u8,
    },
}

/// What one session did.
#[derive(Drop)]
pub struct SessionReport {
    /// 1 to 64, or 0 for the setup part.
    pub session: u8,
    /// What it was answered.
    pub lines: ReportLines,
    /// How its input ended.
    pub ending: Ending,
}

/// The sessions, the lowest number first.
pub type SessionReports = OwnedList<SessionReport>;

/// What a run of a script did.
#[derive(Drop)]
pub struct Report {
    /// The options of the server.
    pub options: Options,
    /// What each session did.
    pub sessions: SessionReports,
    /// All events.
    pub journal: Events,
    /// At the end of the journal.
    pub counters: Counters,
}
