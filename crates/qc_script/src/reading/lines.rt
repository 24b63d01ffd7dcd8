//! The lines of a report, one after another.

ghost use Rattle.std.specs.Prelude.{◌≡◌, ◌++◌, true, false, bytes_eq, Ok, IfOk, OnOk, MatchResult};
ghost use Rattle.qc_types.specs.Answers.{Gives};
ghost use Rattle.qc_script.specs.Told as told;
ghost use Rattle.qc_script.specs.Told.{unread};

use crate::lines::first_end;
use crate::reading::fields::cut;
use crate::reading::left::Lines;
use crate::reading::misspelt::Misspelt;
use qc_types::Or;

/// The line in front with its LF, and the lines behind it. A line without an LF is a bad one. Linear in the line.
#[tactic(auto, unfolding(crate::specs::Told::line_at))]
pub fn next_line(lines: Lines<'_>) -> Result<(&[u8], Lines<'_>), Or<u32>>
    ensures text { IfOk result (λ r. lines.entry.left.now ≡ r.0.now ++ r.1.left.now) }
    ensures told { Gives (λ r. (r.0.now, unread r.1)) (λ n. n) result (told.line_at (unread lines.entry)) }
{
    let Lines { number, left } = lines;
    let Some(end) = first_end(left) else {
        return Err(Or::Other(number));
    };
    let (line, left) = left.split_at(end + 1);
    let behind = Lines {
        number: number + 1,
        left,
    };
    Ok((line, behind))
}

/// The lines behind a certain one.
#[tactic(auto, unfolding(crate::specs::Told::behind_line))]
pub fn behind_line<'a>(expected: &[u8], lines: Lines<'a>) -> Result<Lines<'a>, Or<u32>>
    ensures text { IfOk result (λ behind. lines.entry.left.now ≡ expected.now ++ behind.left.now) }
    ensures told { Gives unread (λ n. n) result (told.behind_line expected.now (unread lines.entry)) }
{
    let (line, behind) = next_line(lines)?;
    if line != expected {
        return Err(Or::Other(lines.number));
    }
    Ok(behind)
}

/// A line is what was spelt again of it.
pub fn is_spelt(spelt: &[u8], line: &[u8]) -> Result<(), Misspelt>
    ensures text { OnOk result (line.now ≡ spelt.now) }
    ensures tested { MatchResult result (λ _. bytes_eq line.now spelt.now ≡ true) (λ _. bytes_eq line.now spelt.now ≡ false) }
{
    if line != spelt {
        return Err(Misspelt);
    }
    Ok(())
}

/// What a line was read as. Where it is misspelt, its number is the refusal.
pub fn at_line<T>(number: u32, read: Result<T, Or<Misspelt>>) -> Result<T, Or<u32>>
    ensures value { IfOk result (λ value. read ≡ Ok value) }
    ensures told { told.IsAt number read result }
{
    match read {
        Ok(value) => Ok(value),
        Err(Or::Memory) => Err(Or::Memory),
        Err(Or::Other(_)) => Err(Or::Other(number)),
    }
}

/// The fields of a line behind its first one.
pub fn behind_word(line: &[u8]) -> &[u8]
    ensures { result.now ≡ told.behind_word line.now }
{
    let (line, _lf) = cut(b'\n', line);
    let (_word, fields) = cut(b' ', line);
    fields
}
