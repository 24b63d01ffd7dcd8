//! The journal of a report.

ghost use Rattle.std.specs.Prelude.{◌≡◌, ◌<◌, ◌+◌, ◌^◌, ◌++◌, ◌∷◌, [], codes, decimal, length, IfOk};
ghost use Rattle.qc_types.specs.Answers.{Gives};
ghost use Rattle.qc_script.specs.Told as told;
ghost use Rattle.qc_script.specs.Told.{unread};
ghost use Rattle.std.specs.List.{All};
ghost use Rattle.qc_model.specs.ReportText.{lines as lines_text, fields, event_fields, event_lines};
ghost use Rattle.qc_script.specs.ReportParts.{journal_part};
ghost use Rattle.qc_script.specs.ShortNames.{HasShortColumns};

use crate::reading::events::event;
use crate::reading::fields::number;
use crate::reading::left::Lines;
use crate::reading::lines::{at_line, behind_word, is_spelt, next_line};
use crate::reading::made::Made;
use crate::reading::misspelt::Misspelt;
use crate::reports::fields::put_count;
use crate::reports::journal::put_line;
use qc_model::events::{Event, Events};
use qc_types::{Or, OwnedList, Text};
use std::alloc::Global;

/// The line with the number of events, and so many events, each numbered from 1. Linear in the lines, but for the tables that rows look up.
#[tactic(auto, using(crate::proofs::ReadBack::counted), unfolding(crate::specs::Told::journal_at))]
pub fn read_journal(alloc: Global, lines: Lines<'_>) -> Result<(Events, Lines<'_>), Or<u32>>
    ensures short { IfOk result (λ r. All HasShortColumns r.0) }
    ensures text { IfOk result (λ r. lines.entry.left.now ≡ lines_text (journal_part r.0) ++ r.1.left.now) }
    ensures told { Gives (λ r. (r.0, unread r.1)) (λ n. n) result (told.journal_at (unread lines.entry)) }
{
    let (count, lines) = read_count(alloc, b"journal", lines)?;
    read_events(alloc, count, lines)
}

/// So many events, each in a line.
fn read_events(alloc: Global, count: u64, lines: Lines<'_>) -> Result<(Events, Lines<'_>), Or<u32>>
    ensures short { IfOk result (λ r. All HasShortColumns r.0) }
    ensures count { IfOk result (λ r. length r.0 ≡ count) }
    ensures text { IfOk result (λ r. lines.entry.left.now ≡ lines_text (event_lines 1 r.0) ++ r.1.left.now) }
    ensures told { Gives (λ r. (r.0, unread r.1)) (λ n. n) result (told.events_at count (unread lines.entry)) }
{
    let mut events = OwnedList::new(alloc);
    let mut made = Made::new(alloc);
    let mut lines = lines;
    for place in 0..count {
        let (event, behind) = read_event(alloc, &mut made, place, lines)?;
        events.push(event)?;
        lines = behind;
    }
    Ok((events, lines))
}

/// The event of the line in front, which stands behind so many others.
#[tactic(auto, unfolding(crate::specs::Told::event_at))]
fn read_event<'a>(
    alloc: Global,
    made: &mut Made,
    place: u64,
    lines: Lines<'a>,
) -> Result<(Event, Lines<'a>), Or<u32>>
    requires { place + 1 < 2 ^ 64 }
    ensures short { IfOk result (λ r. HasShortColumns r.0) }
    ensures text { IfOk result (λ r. lines.entry.left.now ≡ lines_text (fields (decimal (place + 1) ∷ event_fields r.0) ∷ []) ++ r.1.left.now) }
    ensures told { Gives (λ r. (r.0, told.behind_event (place + 1) made.new (unread r.1))) (λ n. n) result (told.event_at (told.behind_event place made.old (unread lines.entry))) }
{
    let (line, behind) = next_line(lines)?;
    let event = at_line(lines.number, event_line(alloc, made, place + 1, line))?;
    Ok((event, behind))
}

/// A line of a word and a number.
pub fn read_count<'a>(
    alloc: Global,
    word: &[u8],
    lines: Lines<'a>,
) -> Result<(u64, Lines<'a>), Or<u32>>
    ensures text { IfOk result (λ r. lines.entry.left.now ≡ lines_text (fields (word.now ∷ decimal r.0 ∷ []) ∷ []) ++ r.1.left.now) }
    ensures told { Gives (λ r. (r.0, unread r.1)) (λ n. n) result (told.told_at (told.count_line word.now) (unread lines.entry)) }
{
    let (line, behind) = next_line(lines)?;
    let count = at_line(lines.number, count_in(alloc, word, line))?;
    Ok((count, behind))
}

#[tactic(auto, unfolding(crate::specs::Told::count_line))]
fn count_in(alloc: Global, word: &[u8], line: &[u8]) -> Result<u64, Or<Misspelt>>
    ensures told { Gives (λ n. n) (λ e. e) result (told.count_line word.now line.now) }
    ensures text { IfOk result (λ count. line.now ≡ lines_text (fields (word.now ∷ decimal count ∷ []) ∷ [])) }
{
    let count = number(behind_word(line))?;
    let mut spelt = Text::of(alloc, &[])?;
    put_count(alloc, word, count as usize, &mut spelt)?;
    is_spelt(spelt.bytes(), line)?;
    Ok(count)
}

/// The event of a line, by its number.
#[tactic(auto, unfolding(crate::specs::Told::event_line))]
fn event_line(
    alloc: Global,
    made: &mut Made,
    number: u64,
    line: &[u8],
) -> Result<Event, Or<Misspelt>>
    ensures short { IfOk result HasShortColumns }
    ensures told { Gives (λ e. (e, made.new)) (λ e. e) result (told.event_line made.old number line.now) }
    ensures text { IfOk result (λ e. line.now ≡ lines_text (fields (decimal number ∷ event_fields e) ∷ [])) }
{
    let event = event(alloc, made, behind_word(line))?;
    let mut spelt = Text::of(alloc, &[])?;
    put_line(alloc, number, &event, &mut spelt)?;
    is_spelt(spelt.bytes(), line)?;
    Ok(event)
}
