//! A page of HTML that stands alone.

mod timeline;

use crate::fault::Fault;
use crate::lives::{Life, Lives, statement_of};
use crate::page::timeline::put_timeline;
use crate::plain::{Within, put_plain};
use crate::script::{Commands, commands_of_events};
use crate::sessions::SessionName;
use crate::tables::put_tables;
use crate::words::put_end;
use qc_model::events::Counters;
use qc_model::reports::Report;
use std::alloc::Global;
use std::io::Write;

/// The most entries of the table.
const MOST_ENTRIES: usize = 1000;

const HEAD: &str = "<!DOCTYPE html>
<html lang=\"en\">
<head>
<meta charset=\"utf-8\"/>
<title>qcache report</title>
<style>
body { font-family: sans-serif; margin: 1.5em; color: #222; }
h1 { font-size: 1.4em; }
h2 { font-size: 1.1em; }
table { border-collapse: collapse; }
th, td { border: 1px solid #bbb; padding: 0.2em 0.5em; text-align: left; vertical-align: top; }
td.number { text-align: right; }
td.statement { font-family: monospace; max-width: 50em; overflow-wrap: anywhere; }
.timeline { overflow-x: auto; border: 1px solid #bbb; }
.label { font-size: 11px; fill: #444; }
.lane { stroke: #ddd; }
.hit { fill: #2a8a3c; }
.start { fill: #2f6fbf; }
.plain { fill: #c98a00; }
.commit { fill: #b03030; }
.other { fill: #999; }
.clear { fill: #7a3fa0; }
.entry { fill: #bcd4f0; stroke: #2f6fbf; }
.filling { fill: #eef4fc; stroke: #2f6fbf; }
.hits { stroke: #2a8a3c; }
.removes { stroke: #b03030; }
.prunes { fill: #c98a00; }
.gone { fill: #999; }
</style>
</head>
<body>
<h1>qcache report</h1>
";

/// Puts the page: the counters, a timeline of the sessions, and the table of the entries. About linear in the report.
pub fn put_page<W: Write>(
    alloc: Global,
    out: &mut W,
    report: &Report,
    commands: &Commands,
) -> Result<(), Fault> {
    out.write_all(HEAD.as_bytes())?;
    put_counters(out, report.counters)?;
    let decided = commands_of_events(alloc, report, commands)?;
    put_timeline(alloc, out, report.journal.items(), decided.as_slice())?;
    let lives = Lives::of(alloc, report.journal.items())?;
    put_entries(out, lives.all())?;
    out.write_all(b"</body>\n</html>\n")?;
    Ok(())
}

fn put_counters<W: Write>(out: &mut W, counters: Counters) -> Result<(), Fault> {
    out.write_all(b"<h2>Counters</h2>\n<table>\n")?;
    put_counter(out, "Qcache_hits", counters.hits)?;
    put_counter(out, "Com_select", counters.com_select)?;
    put_counter(out, "Qcache_inserts", counters.inserts)?;
    put_counter(out, "Qcache_not_cached", counters.not_cached)?;
    put_counter(out, "Qcache_lowmem_prunes", counters.lowmem_prunes)?;
    put_counter(out, "Qcache_queries_in_cache", counters.queries_in_cache)?;
    out.write_all(b"</table>\n")?;
    Ok(())
}

fn put_counter<W: Write>(out: &mut W, name: &str, value: u64) -> Result<(), Fault> {
    writeln!(
        out,
        "<tr><th>{name}</th><td class=\"number\">{value}</td></tr>"
    )?;
    Ok(())
}

// ---- the table of entries

fn put_entries<W: Write>(out: &mut W, lives: &[Life<'_>]) -> Result<(), Fault> {
    out.write_all(b"<h2>Entries</h2>\n")?;
    let shown = lives.get(..MOST_ENTRIES).unwrap_or(lives);
    if shown.len() < lives.len() {
        writeln!(
            out,
            "<p>Of {} entries the first {MOST_ENTRIES} are shown.</p>",
            lives.len()
        )?;
    }
    if shown.is_empty() {
        out.write_all(b"<p>There were none.</p>\n")?;
        return Ok(());
    }
    out.write_all(
        b"<table>\n<tr><th>Entry</th><th>Statement</th><th>Tables</th><th>Begun</th><th>Complete</th><th>Hits</th><th>End</th></tr>\n",
    )?;
    for life in shown {
        put_entry(out, life)?;
    }
    out.write_all(b"</table>\n")?;
    Ok(())
}

fn put_entry<W: Write>(out: &mut W, life: &Life<'_>) -> Result<(), Fault> {
    let serial = life.serial;
    write!(
        out,
        "<tr><td class=\"number\">{serial}</td><td class=\"statement\">"
    )?;
    put_plain(out, Within::Html, statement_of(life.key))?;
    out.write_all(b"</td><td>")?;
    put_tables(out, Within::Html, life.tables)?;
    let session = SessionName(life.session);
    let begun = life.begun;
    write!(out, "</td><td>event {begun}, by {session}</td><td>")?;
    match life.complete {
        Some(place) => write!(out, "event {place}")?,
        None => out.write_all(b"never")?,
    }
    let hits = life.hits;
    write!(out, "</td><td class=\"number\">{hits}</td><td>")?;
    match life.end {
        Some(end) => put_end(out, end)?,
        None => out.write_all(b"there at the end")?,
    }
    out.write_all(b"</td></tr>\n")?;
    Ok(())
}
