//! The words of the command line.

use clap::error::ErrorKind;
use clap::{Arg, ArgAction, ArgGroup, ArgMatches, Command, Error};
use std::alloc::{AllocError, Global};

/// What is shown of a report.
#[derive(Clone, Copy, Debug, PartialEq, Eq)]
pub enum View {
    /// Each session's commands with their replies.
    Replies,
    /// The events, one a line.
    Journal,
    /// Each entry's life.
    Entries,
    /// Counters, and which statements hit.
    Summary,
    /// A page of HTML.
    Html,
}

/// What the words ask for.
#[derive(Debug, Drop)]
pub struct Request<'a> {
    pub view: View,
    /// The file with the script of the run.
    pub script: Option<&'a str>,
}

/// What is to be told in place of a report.
#[derive(Debug, Drop)]
pub enum Told {
    /// Help, or the version: it was asked for.
    Asked(String),
    /// Why the words are wrong.
    Wrong(String),
    /// Memory ran out.
    Memory,
}

impl From<AllocError> for Told {
    fn from(_error: AllocError) -> Told {
        Told::Memory
    }
}

/// What the words behind the program's name ask for. Linear in the words.
pub fn read_words<'a>(alloc: Global, words: &'a [String]) -> Result<Request<'a>, Told> {
    match show_command(alloc)?.try_get_matches_from(words) {
        Ok(matches) => Ok(Request {
            view: view_in(&matches),
            script: matches.get_str("script"),
        }),
        Err(error) => Err(told_of(alloc, &error)?),
    }
}

/// The command with its options, of which each view is one, and at most one may be there.
fn show_command<'a>(alloc: Global) -> Result<Command<'a>, AllocError> {
    let views = ArgGroup::new(alloc, "view")
        .arg("journal")?
        .arg("entries")?
        .arg("summary")?
        .arg("html")?;
    Command::new(alloc, "qcache-show")
        .version("1.0")
        .about(
            "Shows a report of qcache, which it reads from the standard input: each session's commands with their replies, or one of the views",
        )
        .no_binary_name(true)
        .arg(script_option(alloc))?
        .arg(view_option(alloc, "journal", "the events, one a line, in words"))?
        .arg(view_option(
            alloc,
            "entries",
            "each entry of the cache: its statement, what began it, what it answered, what ended it",
        ))?
        .arg(view_option(
            alloc,
            "summary",
            "the counters, and the statements that hit most and that never did",
        ))?
        .arg(view_option(alloc, "html", "a page with a timeline of the sessions"))?
        .group(views)
}

fn script_option<'a>(alloc: Global) -> Arg<'a> {
    Arg::new(alloc, "script")
        .long("script")
        .value_name("FILE")
        .action(ArgAction::Set)
        .help("the script of the run, whose texts are shown beside")
}

fn view_option<'a>(alloc: Global, name: &'a str, help: &'a str) -> Arg<'a> {
    Arg::new(alloc, name)
        .long(name)
        .action(ArgAction::SetTrue)
        .help(help)
}

fn view_in(matches: &ArgMatches) -> View {
    if matches.get_flag("journal") {
        View::Journal
    } else if matches.get_flag("entries") {
        View::Entries
    } else if matches.get_flag("summary") {
        View::Summary
    } else if matches.get_flag("html") {
        View::Html
    } else {
        View::Replies
    }
}

fn told_of(alloc: Global, error: &Error) -> Result<Told, AllocError> {
    match error.kind() {
        ErrorKind::OutOfMemory => Ok(Told::Memory),
        ErrorKind::DisplayHelp | ErrorKind::DisplayVersion => Ok(Told::Asked(error.to_string(
            alloc,
        )?)),
        _ => Ok(Told::Wrong(error.to_string(alloc)?)),
    }
}
