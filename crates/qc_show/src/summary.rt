//! Counters, and which statements hit.

ghost use Rattle.std.specs.Prelude.{◌≤◌, length};

use crate::fault::Fault;
use crate::lives::{Life, Lives, statement_of};
use crate::plain::{Within, put_count, put_plain};
use crate::script::{Commands, commands_of_events, trimmed};
use crate::words::{put_end, put_reason};
use qc_model::events::{Counters, Event, How, Reason};
use qc_model::reports::Report;
use qc_sql::commands::Command;
use qc_types::NoMemory;
use std::alloc::Global;
use std::collections::BTreeMap;
use std::io::Write;

/// The most statements of a list.
const MOST_SHOWN: usize = 10;

/// Why a statement never hit, as its last run has it.
#[derive(Clone, Copy)]
enum Last<'a> {
    /// It ran outside the cache.
    Plain(&'a Reason),
    /// It began this entry.
    Entry(u64),
}

/// How often a statement ran, and how often as a hit.
#[derive(Clone, Copy)]
struct Tally<'a> {
    text: &'a [u8],
    hits: u64,
    runs: u64,
    last: Last<'a>,
}

/// The statements of a journal, and the SELECTs whose text isn't known.
#[derive(Drop)]
struct Statements<'a> {
    tallies: Vec<Tally<'a>>,
    by_text: BTreeMap<Vec<u8>, usize>,
    /// The SELECTs outside the cache whose text isn't known.
    unknown: u64,
}

/// Puts the counters, the rate of hits, the statements that hit most, and those that never did. About linear in the report, but that the
/// statements are sorted.
pub fn put_summary<W: Write>(
    alloc: Global,
    out: &mut W,
    report: &Report,
    commands: &Commands,
) -> Result<(), Fault> {
    put_counters(out, report.counters)?;
    let lives = Lives::of(alloc, report.journal.items())?;
    let decided = commands_of_events(alloc, report, commands)?;
    let statements = statements_of(alloc, report.journal.items(), &lives, decided.as_slice())?;
    put_most(alloc, out, statements.tallies.as_slice())?;
    put_never(alloc, out, &lives, &statements)
}

fn put_counters<W: Write>(out: &mut W, counters: Counters) -> Result<(), Fault> {
    let hits = counters.hits;
    let selects = counters.com_select;
    let inserts = counters.inserts;
    let not_cached = counters.not_cached;
    let prunes = counters.lowmem_prunes;
    let entries = counters.queries_in_cache;
    writeln!(out, "Qcache_hits              {hits}")?;
    writeln!(out, "Com_select               {selects}")?;
    writeln!(out, "Qcache_inserts           {inserts}")?;
    writeln!(out, "Qcache_not_cached        {not_cached}")?;
    writeln!(out, "Qcache_lowmem_prunes     {prunes}")?;
    writeln!(out, "Qcache_queries_in_cache  {entries}")?;
    put_rate(out, hits, selects)
}

/// Puts the share of the SELECTs that were hits, in tenths of a hundredth.
fn put_rate<W: Write>(out: &mut W, hits: u64, selects: u64) -> Result<(), Fault> {
    let all = u128::from(hits) + u128::from(selects);
    if all == 0 {
        out.write_all(b"hit rate                 no SELECT ran\n")?;
        return Ok(());
    }
    let share = u128::from(hits) * 1000 / all;
    let whole = share / 10;
    let tenth = share % 10;
    writeln!(
        out,
        "hit rate                 {whole}.{tenth} % of {all} SELECTs"
    )?;
    Ok(())
}

fn statements_of<'a>(
    alloc: Global,
    events: &'a [Event],
    lives: &Lives<'a>,
    decided: &[Option<&'a Command>],
) -> Result<Statements<'a>, NoMemory> {
    let mut statements = Statements {
        tallies: Vec::new(alloc),
        by_text: BTreeMap::new(alloc),
        unknown: 0,
    };
    for (index, event) in events.iter().enumerate() {
        if let Event::Run { how, .. } = event {
            let command = decided.get(index).copied().flatten();
            count(alloc, &mut statements, lives, how, command)?;
        }
    }
    Ok(statements)
}

/// Counts a run of a SELECT.
fn count<'a>(
    alloc: Global,
    statements: &mut Statements<'a>,
    lives: &Lives<'a>,
    how: &'a How,
    command: Option<&'a Command>,
) -> Result<(), NoMemory> {
    match how {
        How::Hit(serial) => match lives.get(*serial) {
            Some(life) => add(
                alloc,
                statements,
                statement_of(life.key),
                1,
                Last::Entry(*serial),
            ),
            None => Ok(()),
        },
        How::Start { serial, key, .. } => add(
            alloc,
            statements,
            statement_of(key.bytes()),
            0,
            Last::Entry(*serial),
        ),
        How::Plain(reason) => match command {
            Some(Command::Query(text)) => add(
                alloc,
                statements,
                trimmed(text.bytes()),
                0,
                Last::Plain(reason),
            ),
            _ => {
                statements.unknown = statements.unknown.saturating_add(1);
                Ok(())
            }
        },
        _ => Ok(()),
    }
}

/// Counts a run of a statement, and so many hits.
fn add<'a>(
    alloc: Global,
    statements: &mut Statements<'a>,
    text: &'a [u8],
    hits: u64,
    last: Last<'a>,
) -> Result<(), NoMemory> {
    if let Some(index) = statements.by_text.get(text) {
        if let Some(tally) = statements.tallies.get_mut(*index) {
            tally.hits = tally.hits.saturating_add(hits);
            tally.runs = tally.runs.saturating_add(1);
            tally.last = last;
        }
        return Ok(());
    }
    statements
        .by_text
        .insert(Vec::from_slice(alloc, text)?, statements.tallies.len())?;
    statements.tallies.push(Tally {
        text,
        hits,
        runs: 1,
        last,
    })?;
    Ok(())
}

// ---- the statements that hit most

fn put_most<W: Write>(alloc: Global, out: &mut W, tallies: &[Tally<'_>]) -> Result<(), Fault> {
    out.write_all(b"\nThe statements that hit most:\n")?;
    let chosen = most(alloc, tallies, true)?;
    if chosen.is_empty() {
        out.write_all(b"  none\n")?;
    }
    for tally in &chosen {
        out.write_all(b"  ")?;
        put_count(out, tally.hits, "hit", "hits")?;
        out.write_all(b" of ")?;
        put_count(out, tally.runs, "run", "runs")?;
        out.write_all(b": ")?;
        put_plain(out, Within::Line, tally.text)?;
        out.write_all(b"\n")?;
    }
    Ok(())
}

/// The first statements that have hits, or the first that have none, by how often they hit or ran, and else in the order in which they came.
fn most<'a>(alloc: Global, tallies: &[Tally<'a>], hit: bool) -> Result<Vec<Tally<'a>>, NoMemory> {
    let mut chosen: Vec<Tally<'a>> = Vec::new(alloc);
    for tally in tallies {
        if (tally.hits > 0) == hit {
            let place = place_of(&chosen, tally);
            if place < MOST_SHOWN {
                chosen.insert(place, *tally)?;
                chosen.truncate(MOST_SHOWN);
            }
        }
    }
    Ok(chosen)
}

/// The place in front of the first that weighs less.
fn place_of(chosen: &[Tally<'_>], tally: &Tally<'_>) -> usize
    ensures { result ≤ length chosen.now }
{
    match chosen
        .iter()
        .position(|other| weight(other) < weight(tally))
    {
        Some(place) => place,
        None => chosen.len(),
    }
}

/// How often it hit, or where it never did how often it ran.
fn weight(tally: &Tally<'_>) -> u64 {
    if tally.hits > 0 {
        tally.hits
    } else {
        tally.runs
    }
}

// ---- the statements that never hit

fn put_never<W: Write>(
    alloc: Global,
    out: &mut W,
    lives: &Lives<'_>,
    statements: &Statements<'_>,
) -> Result<(), Fault> {
    out.write_all(b"\nThe statements that ran most and never hit:\n")?;
    let chosen = most(alloc, statements.tallies.as_slice(), false)?;
    if chosen.is_empty() {
        out.write_all(b"  none\n")?;
    }
    for tally in &chosen {
        put_never_line(out, lives, tally)?;
    }
    if statements.unknown > 0 {
        out.write_all(b"  and ")?;
        put_count(out, statements.unknown, "SELECT", "SELECTs")?;
        out.write_all(b" outside the cache, whose texts the script has (--script FILE)\n")?;
    }
    Ok(())
}

fn put_never_line<W: Write>(
    out: &mut W,
    lives: &Lives<'_>,
    tally: &Tally<'_>,
) -> Result<(), Fault> {
    out.write_all(b"  ")?;
    put_count(out, tally.runs, "run", "runs")?;
    out.write_all(b": ")?;
    put_plain(out, Within::Line, tally.text)?;
    out.write_all(b"\n    ")?;
    match tally.last {
        Last::Plain(reason) => put_reason(out, Within::Line, reason)?,
        Last::Entry(serial) => {
            write!(out, "entry {serial} ")?;
            put_fate(out, lives.get(serial))?;
        }
    }
    out.write_all(b"\n")?;
    Ok(())
}

/// Puts what became of the last entry of a statement that never hit.
fn put_fate<W: Write>(out: &mut W, life: Option<&Life<'_>>) -> Result<(), Fault> {
    match life {
        Some(Life { end: Some(end), .. }) => {
            out.write_all(b"was ")?;
            put_end(out, *end)
        }
        _ => Ok(out.write_all(b"is there, and the statement didn't come again")?),
    }
}
