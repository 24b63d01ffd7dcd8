//! Views of reports.

use crate::cases::{Block, Case};
use crate::play::compare_text;
use crate::script::{ended, owned};
use crate::told::Told;
use qc_show::{Refusal, Request, read_words, show};
use qc_types::NoMemory;

/// Asks for a view as a case says, and compares what is shown or told.
pub fn compare_view(case: &Case<'_>, told: &mut Told) -> Result<(), NoMemory> {
    let words = owned(case.alloc, case.words.get(1..).unwrap_or(&[]))?;
    match read_words(case.alloc, &words) {
        Ok(request) => compare_shown(case, &request, told),
        Err(qc_show::Told::Asked(text)) => compare_told(case, Block::Asked, &text, told),
        Err(qc_show::Told::Wrong(text)) => compare_told(case, Block::Told, &text, told),
        Err(qc_show::Told::Memory) => Err(NoMemory),
    }
}

/// The words alone are answered.
fn compare_told(
    case: &Case<'_>,
    block: Block,
    text: &str,
    told: &mut Told,
) -> Result<(), NoMemory> {
    let Some(wanted) = case.text(block) else {
        return told.tell(b"the words are wrong, or ask for help or the version");
    };
    if !wanted.is_empty() || case.parts.is_empty() {
        told.compare_lines(text, wanted)?;
    }
    compare_parts(case, text, told)
}

/// A report is shown or refused.
fn compare_shown(case: &Case<'_>, request: &Request<'_>, told: &mut Told) -> Result<(), NoMemory> {
    let Some(report) = case.text(Block::Report) else {
        return told.tell(b"the words ask for a view");
    };
    let script = case.text(Block::Script);
    if request.script.is_some() != script.is_some() {
        told.tell(b"a script without its words, or the other way round")?;
    }
    let report = ended(case, report);
    let mut shown = Vec::new(case.alloc);
    match show(case.alloc, request.view, report, script, &mut shown) {
        Ok(()) => {
            told.compare(b"refusal", b"", case.refused.unwrap_or("").as_bytes())?;
            told.compare(b"shown", &shown, case.text(Block::Shown).unwrap_or(&shown))?;
            compare_parts(case, &String::from_utf8_lossy(case.alloc, &shown)?, told)?;
            compare_text(report, told)
        }
        Err(Refusal::Fault(_)) => Err(NoMemory),
        Err(refusal) => {
            let refusal = refusal.to_string(case.alloc)?;
            told.compare(b"shown", &shown, case.text(Block::Shown).unwrap_or(b""))?;
            let wanted = case.refused.unwrap_or("");
            told.compare(b"refusal", refusal.as_bytes(), wanted.as_bytes())
        }
    }
}

/// Compares how often some texts stand in what is shown or told.
fn compare_parts(case: &Case<'_>, text: &str, told: &mut Told) -> Result<(), NoMemory> {
    for part in &case.parts {
        let times = text.matches(part.text).count();
        if times != part.times {
            told.tell_number(part.text, times as u64)?;
        }
    }
    Ok(())
}
