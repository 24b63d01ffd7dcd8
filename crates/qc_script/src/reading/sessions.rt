//! The sessions of a report.

ghost use Rattle.std.specs.Prelude.{◌≡◌, ◌++◌, ◌∷◌, [], codes, length, map, IfOk};
ghost use Rattle.std.specs.List.{flat_map};
ghost use Rattle.qc_types.specs.Answers.{Gives};
ghost use Rattle.qc_script.specs.Told as told;
ghost use Rattle.qc_script.specs.Told.{Is, unread};
ghost use Rattle.qc_model.specs.ReportText.{lines as lines_text, fields, session_lines, line_text};
ghost use Rattle.qc_script.specs.ReportParts.{sessions_part, head_fields};

use crate::reading::fields::{bytes, cut, number, number_of_8, number_of_32};
use crate::reading::journal::read_count;
use crate::reading::left::Lines;
use crate::reading::lines::{at_line, behind_word, is_spelt, next_line};
use crate::reading::misspelt::Misspelt;
use crate::reports::sessions::{Head, put_head, put_line};
use qc_model::reports::{Ending, ReportLine, ReportLines, SessionReport, SessionReports, Word};
use qc_types::{Or, OwnedList, Text};
use std::alloc::Global;

/// The line with the number of sessions, and so many sessions. Linear in the lines.
#[tactic(auto, using(crate::proofs::ReadBack::counted), unfolding(crate::specs::Told::sessions_at))]
pub fn read_sessions(
    alloc: Global,
    lines: Lines<'_>,
) -> Result<(SessionReports, Lines<'_>), Or<u32>>
    ensures text { IfOk result (λ r. lines.entry.left.now ≡ lines_text (sessions_part r.0) ++ r.1.left.now) }
    ensures told { Gives (λ r. (r.0, unread r.1)) (λ n. n) result (told.sessions_at (unread lines.entry)) }
{
    let (count, lines) = read_count(alloc, b"sessions", lines)?;
    read_so_many(alloc, count, lines)
}

/// So many sessions.
#[tactic(auto, using(crate::proofs::ReadBack::session_more))]
fn read_so_many(
    alloc: Global,
    count: u64,
    lines: Lines<'_>,
) -> Result<(SessionReports, Lines<'_>), Or<u32>>
    ensures count { IfOk result (λ r. length r.0 ≡ count) }
    ensures text { IfOk result (λ r. lines.entry.left.now ≡ lines_text (flat_map session_lines r.0) ++ r.1.left.now) }
    ensures told { Gives (λ r. (r.0, unread r.1)) (λ n. n) result (told.times told.session_at count (unread lines.entry)) }
{
    let mut sessions = OwnedList::new(alloc);
    let mut lines = lines;
    for _ in 0..count {
        let (session, behind) = read_session(alloc, lines)?;
        sessions.push(session)?;
        lines = behind;
    }
    Ok((sessions, lines))
}

#[tactic(auto, using(crate::proofs::ReadBack::counted), unfolding(crate::specs::Told::session_at))]
fn read_session(alloc: Global, lines: Lines<'_>) -> Result<(SessionReport, Lines<'_>), Or<u32>>
    ensures text { IfOk result (λ r. lines.entry.left.now ≡ lines_text (session_lines r.0) ++ r.1.left.now) }
    ensures told { Gives (λ r. (r.0, unread r.1)) (λ n. n) result (told.session_at (unread lines.entry)) }
{
    let (head, behind) = read_head(alloc, lines)?;
    let (commands, behind) = read_commands(alloc, head.commands, behind)?;
    let session = SessionReport {
        session: head.session,
        lines: commands,
        ending: head.ending,
    };
    Ok((session, behind))
}

fn read_head(alloc: Global, lines: Lines<'_>) -> Result<(Head, Lines<'_>), Or<u32>>
    ensures text { IfOk result (λ r. lines.entry.left.now ≡ lines_text (fields (codes "session" ∷ head_fields r.0) ∷ []) ++ r.1.left.now) }
    ensures told { Gives (λ r. (r.0, unread r.1)) (λ n. n) result (told.told_at told.head_line (unread lines.entry)) }
{
    let (line, behind) = next_line(lines)?;
    let head = at_line(lines.number, head_line(alloc, line))?;
    Ok((head, behind))
}

#[tactic(auto, unfolding(crate::specs::Told::head_line))]
fn head_line(alloc: Global, line: &[u8]) -> Result<Head, Or<Misspelt>>
    ensures text { IfOk result (λ head. line.now ≡ lines_text (fields (codes "session" ∷ head_fields head) ∷ [])) }
    ensures told { Gives (λ h. h) (λ e. e) result (told.head_line line.now) }
{
    let head = head_in(behind_word(line))?;
    let mut spelt = Text::of(alloc, &[])?;
    put_head(alloc, head, &mut spelt)?;
    is_spelt(spelt.bytes(), line)?;
    Ok(head)
}

#[tactic(auto, unfolding(crate::specs::Told::head_in))]
fn head_in(fields: &[u8]) -> Result<Head, Misspelt>
    ensures { Is (λ h. h) result (told.head_in fields.now) }
{
    let (session, fields) = cut(b' ', fields);
    let (_commands, fields) = cut(b' ', fields);
    let (commands, fields) = cut(b' ', fields);
    let (_end, ending_fields) = cut(b' ', fields);
    Ok(Head {
        session: number_of_8(session)?,
        commands: number(commands)?,
        ending: ending(ending_fields)?,
    })
}

#[tactic(auto, unfolding(crate::specs::Told::ending_told))]
fn ending(fields: &[u8]) -> Result<Ending, Misspelt>
    ensures { Is (λ e. e) result (told.ending_told fields.now) }
{
    let (word, fields) = cut(b' ', fields);
    if word == b"quit".as_slice() {
        return Ok(Ending::Quit);
    }
    if word == b"input".as_slice() {
        return Ok(Ending::Input);
    }
    if word == b"cut".as_slice() {
        return Ok(Ending::Cut(number_of_32(fields)?));
    }
    if word == b"toolong".as_slice() {
        return Ok(Ending::TooLong(number_of_32(fields)?));
    }
    if word == b"badsequence".as_slice() {
        let (found, wanted) = cut(b' ', fields);
        return Ok(Ending::BadSequence {
            found: number_of_8(found)?,
            wanted: number_of_8(wanted)?,
        });
    }
    Err(Misspelt)
}

/// So many commands, each in a line.
#[tactic(auto, using(crate::proofs::ReadBack::command_more))]
fn read_commands(
    alloc: Global,
    count: u64,
    lines: Lines<'_>,
) -> Result<(ReportLines, Lines<'_>), Or<u32>>
    ensures count { IfOk result (λ r. length r.0 ≡ count) }
    ensures text { IfOk result (λ r. lines.entry.left.now ≡ lines_text (map line_text r.0) ++ r.1.left.now) }
    ensures told { Gives (λ r. (r.0, unread r.1)) (λ n. n) result (told.times told.command_at count (unread lines.entry)) }
{
    let mut commands = OwnedList::new(alloc);
    let mut lines = lines;
    for _ in 0..count {
        let (command, behind) = read_command(alloc, lines)?;
        commands.push(command)?;
        lines = behind;
    }
    Ok((commands, lines))
}

fn read_command(alloc: Global, lines: Lines<'_>) -> Result<(ReportLine, Lines<'_>), Or<u32>>
    ensures text { IfOk result (λ r. lines.entry.left.now ≡ lines_text (line_text r.0 ∷ []) ++ r.1.left.now) }
    ensures told { Gives (λ r. (r.0, unread r.1)) (λ n. n) result (told.command_at (unread lines.entry)) }
{
    let (line, behind) = next_line(lines)?;
    let command = at_line(lines.number, command_line(alloc, line))?;
    Ok((command, behind))
}

#[tactic(auto, unfolding(crate::specs::Told::command_line))]
fn command_line(alloc: Global, line: &[u8]) -> Result<ReportLine, Or<Misspelt>>
    ensures text { IfOk result (λ command. line.now ≡ lines_text (line_text command ∷ [])) }
    ensures told { Gives (λ c. c) (λ e. e) result (told.command_line line.now) }
{
    let (fields, _lf) = cut(b'\n', line);
    let command = command_in(alloc, fields)?;
    let mut spelt = Text::of(alloc, &[])?;
    put_line(alloc, &command, &mut spelt)?;
    is_spelt(spelt.bytes(), line)?;
    Ok(command)
}

#[tactic(auto, unfolding(crate::specs::Told::command_in))]
fn command_in(alloc: Global, fields: &[u8]) -> Result<ReportLine, Or<Misspelt>>
    ensures { Gives (λ c. c) (λ e. e) result (told.command_in fields.now) }
{
    let (place, fields) = cut(b' ', fields);
    let (how, reply) = cut(b' ', fields);
    Ok(ReportLine {
        place: number(place)?,
        how: word(how)?,
        reply: bytes(alloc, reply)?,
    })
}

#[tactic(auto, unfolding(crate::specs::Told::word_told))]
fn word(field: &[u8]) -> Result<Word, Misspelt>
    ensures { Is (λ w. w) result (told.word_told field.now) }
{
    if field == b"hit".as_slice() {
        return Ok(Word::Hit);
    }
    if field == b"start".as_slice() {
        return Ok(Word::Start);
    }
    if field == b"plain".as_slice() {
        return Ok(Word::Plain);
    }
    if field == b"other".as_slice() {
        return Ok(Word::Other);
    }
    if field == b"local".as_slice() {
        return Ok(Word::Local);
    }
    Err(Misspelt)
}
