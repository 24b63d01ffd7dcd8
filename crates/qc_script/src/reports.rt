//! The text of a report.

ghost use Rattle.std.specs.Prelude.{◌≡◌, ◌++◌, ◌∷◌, [], IfOk, OnOk};
ghost use Rattle.qc_model.specs.ReportText.{text_of_report, lines, fields, option_fields, counter_fields};
ghost use Rattle.qc_script.specs.ShortNames.{HasShortNames};

mod digits;
mod events;
pub(crate) mod fields;
pub(crate) mod journal;
mod operations;
mod payloads;
pub(crate) mod sessions;

use crate::reports::fields::put_pair;
use crate::reports::journal::put_journal;
use crate::reports::sessions::put_sessions;
use qc_model::events::Counters;
use qc_model::reports::Report;
use qc_types::{NoMemory, Options, Text};
use std::alloc::Global;

/// The text of a report: lines that end with LF, of fields with one space between two.
/// They tell the options, then each session with its commands, then the journal with its events numbered from 1, then the counters.
/// A column's name has at most 255 bytes, since its length is told as one byte.
/// The error is want of memory. It takes time and memory linear in the text.
pub fn report_text(alloc: Global, report: &Report) -> Result<Text, NoMemory>
    requires { HasShortNames report.now }
    ensures { IfOk result (λ text. text ≡ text_of_report report.now) }
{
    let mut out = Text::of(alloc, b"qcache report 1\n")?;
    put_options(alloc, report.options, &mut out)?;
    put_sessions(alloc, report.sessions.items(), &mut out)?;
    put_journal(alloc, report.journal.items(), &mut out)?;
    put_counters(alloc, report.counters, &mut out)?;
    out.extend(b"end\n")?;
    Ok(out)
}

pub(crate) fn put_options(alloc: Global, options: Options, out: &mut Text) -> Result<(), NoMemory>
    ensures { OnOk result (out.new ≡ out.old ++ lines (fields (option_fields options) ∷ [])) }
{
    out.extend(b"options")?;
    put_pair(alloc, options.size as u64, options.limit as u64, out)?;
    put_pair(alloc, options.unit as u64, options.kind as u64, out)?;
    out.extend(b"\n")
}

pub(crate) fn put_counters(
    alloc: Global,
    counters: Counters,
    out: &mut Text,
) -> Result<(), NoMemory>
    ensures { OnOk result (out.new ≡ out.old ++ lines (fields (counter_fields counters) ∷ [])) }
{
    out.extend(b"counters")?;
    put_pair(alloc, counters.com_select, counters.hits, out)?;
    put_pair(alloc, counters.inserts, counters.not_cached, out)?;
    put_pair(
        alloc,
        counters.lowmem_prunes,
        counters.queries_in_cache,
        out,
    )?;
    out.extend(b"\n")
}
