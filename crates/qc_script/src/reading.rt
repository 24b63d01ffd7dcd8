//! Reads the text of a report.

ghost use Rattle.std.specs.Prelude.{◌≡◌, ◌<◌, ◌^◌, ◌-◌, ◌++◌, ◌∷◌, [], length, Ok, IfOk, IfErr, OnOk};
ghost use Rattle.qc_types.specs.Answers.{Gives};
ghost use Rattle.qc_script.specs.Told as told;
ghost use Rattle.qc_script.specs.Told.{Is, unread};
ghost use Rattle.qc_model.specs.ReportText.{text_of_report, lines as lines_text, fields, option_fields, counter_fields};
ghost use Rattle.qc_script.specs.BadLine.{Blames};
ghost use Rattle.qc_script.specs.ShortNames.{HasShortNames};
ghost use Rattle.qc_script.specs.Tellable.{IsTellable};

mod events;
mod fields;
mod journal;
mod left;
mod lines;
mod made;
mod misspelt;
mod operations;
mod payloads;
mod sessions;

use crate::reading::fields::{cut, number, number_of_8, number_of_32};
use crate::reading::journal::read_journal;
use crate::reading::left::Lines;
use crate::reading::lines::{at_line, behind_line, behind_word, is_spelt, next_line};
use crate::reading::misspelt::Misspelt;
use crate::reading::sessions::read_sessions;
use crate::reports::{put_counters, put_options};
use qc_model::events::Counters;
use qc_model::reports::Report;
use qc_types::{Options, Or, Text};
use std::alloc::Global;

/// Reads the text of a report, as `report_text` writes it. The refusal is the number of the first bad line: the first with which no report's
/// text goes on. Where the text ends too early, that is the line which is missing, or which lacks its LF.
///
/// A row of the journal doesn't tell whether a cell is a number or a text. It is a number exactly where the table was last made with BIGINT in
/// that column and the cell is a number as a row writes it.
///
/// Linear in the bytes, but that each row that is put looks up its table among those that were made.
pub fn read_report(alloc: Global, bytes: &[u8]) -> Result<Report, Or<u32>>
    requires { length bytes.now < 2 ^ 32 - 1 }
    // What was read can be written again.
    ensures short { IfOk result HasShortNames }
    // The bytes are the text of what was read, and tell the whole of it.
    ensures found { IfOk result (λ report. IsTellable report × (bytes.now ≡ text_of_report report)) }
    // The text of such a report is read as that report, unless memory lacks.
    ensures only { (r : Report) → IsTellable r → bytes.now ≡ text_of_report r → Gives (λ report. report) (λ n. n) result (Ok r) }
    // The refusal is the number of the first bad line.
    ensures line { IfErr result (Blames bytes.now) }
{
    let lines = Lines {
        number: 1,
        left: bytes,
    };
    report(alloc, lines)
}

#[tactic(auto, unfolding(crate::specs::Told::report_told))]
fn report(alloc: Global, lines: Lines<'_>) -> Result<Report, Or<u32>>
    ensures short { IfOk result HasShortNames }
    ensures found { IfOk result (λ report. IsTellable report × (lines.entry.left.now ≡ text_of_report report)) }
    ensures told { Gives (λ report. report) (λ n. n) result (told.report_told (unread lines.entry)) }
{
    let lines = behind_line(b"qcache report 1\n", lines)?;
    let (options, lines) = read_options(alloc, lines)?;
    let (sessions, lines) = read_sessions(alloc, lines)?;
    let (journal, lines) = read_journal(alloc, lines)?;
    let (counters, lines) = read_counters(alloc, lines)?;
    let lines = behind_line(b"end\n", lines)?;
    nothing_left(lines)?;
    Ok(Report {
        options,
        sessions,
        journal,
        counters,
    })
}

/// No line is left.
fn nothing_left(lines: Lines<'_>) -> Result<(), Or<u32>>
    ensures text { OnOk result (lines.entry.left.now ≡ []) }
    ensures told { Gives (λ _. lines.entry.left.now) (λ n. n) result (told.ended (unread lines.entry)) }
{
    if !lines.left.is_empty() {
        return Err(Or::Other(lines.number));
    }
    Ok(())
}

fn read_options(alloc: Global, lines: Lines<'_>) -> Result<(Options, Lines<'_>), Or<u32>>
    ensures told { Gives (λ r. (r.0, unread r.1)) (λ n. n) result (told.told_at told.options_line (unread lines.entry)) }
    ensures text { IfOk result (λ r. lines.entry.left.now ≡ lines_text (fields (option_fields r.0) ∷ []) ++ r.1.left.now) }
{
    let (line, behind) = next_line(lines)?;
    let options = at_line(lines.number, options_line(alloc, line))?;
    Ok((options, behind))
}

#[tactic(auto, unfolding(crate::specs::Told::options_line))]
fn options_line(alloc: Global, line: &[u8]) -> Result<Options, Or<Misspelt>>
    ensures told { Gives (λ o. o) (λ e. e) result (told.options_line line.now) }
    ensures text { IfOk result (λ options. line.now ≡ lines_text (fields (option_fields options) ∷ [])) }
{
    let options = options_in(behind_word(line))?;
    let mut spelt = Text::of(alloc, &[])?;
    put_options(alloc, options, &mut spelt)?;
    is_spelt(spelt.bytes(), line)?;
    Ok(options)
}

#[tactic(auto, unfolding(crate::specs::Told::options_in))]
fn options_in(fields: &[u8]) -> Result<Options, Misspelt>
    ensures { Is (λ o. o) result (told.options_in fields.now) }
{
    let (size, fields) = cut(b' ', fields);
    let (limit, fields) = cut(b' ', fields);
    let (unit, kind) = cut(b' ', fields);
    Ok(Options {
        size: number_of_32(size)?,
        limit: number_of_32(limit)?,
        unit: number_of_32(unit)?,
        kind: number_of_8(kind)?,
    })
}

fn read_counters(alloc: Global, lines: Lines<'_>) -> Result<(Counters, Lines<'_>), Or<u32>>
    ensures told { Gives (λ r. (r.0, unread r.1)) (λ n. n) result (told.told_at told.counters_line (unread lines.entry)) }
    ensures text { IfOk result (λ r. lines.entry.left.now ≡ lines_text (fields (counter_fields r.0) ∷ []) ++ r.1.left.now) }
{
    let (line, behind) = next_line(lines)?;
    let counters = at_line(lines.number, counters_line(alloc, line))?;
    Ok((counters, behind))
}

#[tactic(auto, unfolding(crate::specs::Told::counters_line))]
fn counters_line(alloc: Global, line: &[u8]) -> Result<Counters, Or<Misspelt>>
    ensures told { Gives (λ c. c) (λ e. e) result (told.counters_line line.now) }
    ensures text { IfOk result (λ counters. line.now ≡ lines_text (fields (counter_fields counters) ∷ [])) }
{
    let counters = counters_in(behind_word(line))?;
    let mut spelt = Text::of(alloc, &[])?;
    put_counters(alloc, counters, &mut spelt)?;
    is_spelt(spelt.bytes(), line)?;
    Ok(counters)
}

#[tactic(auto, unfolding(crate::specs::Told::counters_in))]
fn counters_in(fields: &[u8]) -> Result<Counters, Misspelt>
    ensures { Is (λ c. c) result (told.counters_in fields.now) }
{
    let (com_select, fields) = cut(b' ', fields);
    let (hits, fields) = cut(b' ', fields);
    let (inserts, fields) = cut(b' ', fields);
    let (not_cached, fields) = cut(b' ', fields);
    let (lowmem_prunes, queries_in_cache) = cut(b' ', fields);
    Ok(Counters {
        com_select: number(com_select)?,
        hits: number(hits)?,
        inserts: number(inserts)?,
        not_cached: number(not_cached)?,
        lowmem_prunes: number(lowmem_prunes)?,
        queries_in_cache: number(queries_in_cache)?,
    })
}
