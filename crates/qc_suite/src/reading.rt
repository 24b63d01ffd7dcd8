//! Cases are read from the lines of a file.

use crate::answers::Form;
use crate::cases::{Block, Case, Lines, Part, Step};
use crate::pieces::range_of;
use qc_types::NoMemory;
use std::alloc::Global;
use std::str;

/// The most sessions of a script.
const MOST_SESSIONS: u8 = 64;

/// The highest number of a range.
const MOST_NUMBER: u64 = 1_000_000;

/// The cases of a file.
pub fn cases_of(alloc: Global, lines: &[Vec<u8>]) -> Result<Vec<Case<'_>>, NoMemory> {
    let mut cases = Vec::new(alloc);
    let mut block = Some(Block::Steps);
    let mut number = 0u64;
    for line in lines {
        number = number.wrapping_add(1);
        if line.is_empty() || line.starts_with(b"; ") {
            continue;
        }
        if let Some(head) = head_of(line) {
            cases.push(Case::new(alloc, head)?)?;
            block = Some(Block::Steps);
            continue;
        }
        if cases.is_empty() {
            cases.push(Case::new(alloc, "before the first case")?)?;
        }
        if let Some(case) = cases.last_mut() {
            block = take(case, block, number, line)?;
            if block.is_none() {
                case.bad_lines.push(number)?;
            }
        }
    }
    Ok(cases)
}

/// The head of a case that begins here.
fn head_of(line: &[u8]) -> Option<&str> {
    str::from_utf8(line).ok()?.strip_prefix("== ")
}

/// A case takes a line, and tells what the indented lines behind it are. None where the line means nothing, or is indented behind such a line.
fn take<'a>(
    case: &mut Case<'a>,
    block: Option<Block>,
    number: u64,
    line: &'a [u8],
) -> Result<Option<Block>, NoMemory> {
    if let Some(indented) = line.strip_prefix(b"    ") {
        return match block {
            Some(Block::Steps) => Ok(put_wanted(case, indented)),
            Some(block) => put_indented(case, block, indented),
            None => Ok(None),
        };
    }
    let text = str::from_utf8(line).unwrap_or("=");
    if let Some(directive) = text.strip_prefix("= ") {
        return put_directive(case, directive);
    }
    let is_behind = case.steps.last().is_some_and(|before| before.session != 0);
    match step_of(number, text) {
        // The setup part stands in front of the sessions.
        Some(step) if step.session != 0 || !is_behind => {
            case.steps.push(step)?;
            Ok(Some(Block::Steps))
        }
        _ => Ok(None),
    }
}

/// The last step should have this. None where there is none, or it has something already.
fn put_wanted<'a>(case: &mut Case<'a>, line: &'a [u8]) -> Option<Block> {
    let text = str::from_utf8(line).ok()?;
    let step = case.steps.last_mut()?;
    if step.wanted.is_some() {
        return None;
    }
    step.wanted = Some(text);
    Some(Block::Steps)
}

fn put_indented(case: &mut Case<'_>, block: Block, line: &[u8]) -> Result<Option<Block>, NoMemory> {
    if let Some(lines) = case.texts.last_mut() {
        lines.bytes.extend_from_slice(line)?;
        lines.bytes.push(b'\n')?;
    }
    Ok(Some(block))
}

/// The step of a line, where it is one.
fn step_of(line: u64, text: &str) -> Option<Step<'_>> {
    let mut step = Step {
        line,
        session: 1,
        text,
        is_piece: false,
        wanted: None,
    };
    let command = text
        .split_once("> ")
        .filter(|(number, _)| is_number(number));
    let piece = text.strip_suffix('.').filter(|number| is_number(number));
    if let Some((number, command)) = command {
        step.session = number.parse::<u8>().ok()?;
        step.text = command;
    } else if let Some(number) = piece {
        step.session = number.parse::<u8>().ok()?;
        step.is_piece = true;
    }
    let is_bad = step.session > MOST_SESSIONS || step.is_piece && step.session == 0;
    if is_bad || text.starts_with('=') {
        None
    } else {
        Some(step)
    }
}

fn is_number(text: &str) -> bool {
    !text.is_empty() && text.bytes().all(|byte| byte.is_ascii_digit())
}

/// Takes a directive, and gives what the indented lines behind it are. None where it means nothing.
fn put_directive<'a>(case: &mut Case<'a>, directive: &'a str) -> Result<Option<Block>, NoMemory> {
    let (word, text) = directive.split_once(' ').unwrap_or((directive, ""));
    if let Some(block) = block_of(word) {
        return begin(case, block, text);
    }
    let is_good = match word {
        "word" => {
            case.words.push(text)?;
            true
        }
        "pieces" => put_numbers(text, &mut case.pieces)?,
        "read" => put_numbers(text.strip_suffix(" fails").unwrap_or(""), &mut case.reads)?,
        "put" => put_numbers(text.strip_suffix(" fails").unwrap_or(""), &mut case.puts)?,
        "same" => {
            case.same_on.push(text.strip_prefix("on ").unwrap_or(""))?;
            text.starts_with("on ")
        }
        _ => put_flag(case, word, text),
    };
    Ok(if is_good { Some(Block::Steps) } else { None })
}

/// A directive that needs no memory. False where it is none.
fn put_flag<'a>(case: &mut Case<'a>, word: &str, text: &'a str) -> bool {
    match (word, text) {
        ("rows", "") => case.form = Form::Rows,
        ("columns", "") => case.form = Form::Columns { with_names: false },
        ("parsed", "") => case.form = Form::Parsed,
        ("together", "") => case.is_together = true,
        ("open", "end") => case.has_open_end = true,
        ("status", _) => {
            case.status = text.parse::<u8>().ok();
            return case.status.is_some();
        }
        ("refused", _) => {
            case.refused = Some(text);
            case.status = Some(2);
        }
        _ => return false,
    }
    true
}

fn block_of(word: &str) -> Option<Block> {
    match word {
        "script" => Some(Block::Script),
        "report" => Some(Block::Report),
        "written" => Some(Block::Written),
        "shown" => Some(Block::Shown),
        "told" => Some(Block::Told),
        "asked" => Some(Block::Asked),
        _ => None,
    }
}

/// Begins a block, whose first line may stand in the directive, or puts a text that stands there some times.
fn begin<'a>(case: &mut Case<'a>, block: Block, text: &'a str) -> Result<Option<Block>, NoMemory> {
    let part = part_of(text);
    let mut bytes = Vec::new(case.alloc);
    match part {
        Some(part) => case.parts.push(part)?,
        None if case.text(block).is_some() => return Ok(None),
        None if text.is_empty() => {}
        None => {
            bytes.extend_from_slice(text.as_bytes())?;
            bytes.push(b'\n')?;
        }
    }
    // Where it is told how often texts stand there, the whole needn't.
    if block != Block::Shown || part.is_none() {
        case.texts.push(Lines { block, bytes })?;
    }
    Ok(if part.is_none() {
        Some(block)
    } else {
        Some(Block::Steps)
    })
}

/// `N times TEXT`.
fn part_of(text: &str) -> Option<Part<'_>> {
    let (count, text) = text.split_once(" times ")?;
    let times = count.parse::<usize>().ok()?;
    if text.is_empty() {
        None
    } else {
        Some(Part { times, text })
    }
}

/// Numbers and ranges of numbers, from 1. False where it is something else.
fn put_numbers(text: &str, numbers: &mut Vec<u64>) -> Result<bool, NoMemory> {
    for range in text.split(", ") {
        match range_of(range) {
            Some((first, last)) if first > 0 && last <= MOST_NUMBER => {
                for number in first..last.saturating_add(1) {
                    numbers.push(number)?;
                }
            }
            _ => return Ok(false),
        }
    }
    Ok(true)
}
