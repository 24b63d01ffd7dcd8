//! Scripts, from their bytes.

ghost use Rattle.std.specs.Prelude.{◌≡◌, ◌≤◌, length, Err, IfOk};
ghost use Rattle.qc_types.specs.Answers.{Gives};
ghost use Rattle.qc_types.specs.declared.memory.Or.TheVariants as or;
ghost use Rattle.qc_model.specs.ScriptLines.{line_of, after_line, script_of};
ghost use Rattle.qc_script.specs.Drafts.{so_far};

use crate::draft::{Draft, open, prepare, put, send};
use crate::lines::{Line, first_line, read_line};
use qc_model::reports::{Script, ScriptRefusal};
use qc_types::{Or, Texts};
use std::alloc::Global;

const MOST_SCRIPT: usize = 67_108_864;

/// Reads a script: its lines end with LF, which the last may lack. `setup` begins the setup part, once and before every session, and
/// `session N` opens the session of the next number, from 1 to 64, written without leading zeros. Behind them `query TEXT`, `init NAME`,
/// `ping` and `quit` put their command's packet at the end of the input that was begun last, and `raw HEX` puts its bytes there as they are.
/// Empty lines and those that begin with `#` are skipped, but counted.
///
/// It is refused with `InputTooLong` past 67,108,864 bytes, and else at the first line that is wrong: with `NoSession` where a command or
/// bytes stand before the setup part and every session, with `TooManySessions` where session 65 is opened in its turn, and with `BadLine`
/// where the line is no line of a script, begins the setup part behind it or behind a session, opens a session that isn't the next one, or
/// has a command that fits no packet. Of what is too long no memory is asked for. The cost is linear in the bytes.
#[tactic(auto, unfolding(qc_model::specs::ScriptLines::script_of))]
pub fn read_script(alloc: Global, bytes: &[u8]) -> Result<Script, Or<ScriptRefusal>>
    ensures script { Gives (λ s. s) (λ r. r) result (script_of bytes.now) }
    ensures memory { result ≡ Err or.Memory → length bytes.now ≤ 67108864 }
    ensures few { IfOk result (λ s. length s.sessions ≤ 64) }
{
    if bytes.len() > MOST_SCRIPT {
        return Err(Or::Other(ScriptRefusal::InputTooLong));
    }
    let mut draft = Draft {
        setup: None,
        sessions: Vec::new(alloc),
    };
    let mut number = 1;
    let mut rest = bytes;
    while let Some((line, behind)) = first_line(rest) {
        take_line(alloc, number, line, &mut draft)?;
        number += 1;
        rest = behind;
    }
    let Draft { setup, sessions } = draft;
    Ok(Script {
        setup,
        sessions: Texts::from_vec(sessions),
    })
}

/// Takes a line, by its number from 1, into what has been read.
fn take_line(
    alloc: Global,
    number: u32,
    line: &[u8],
    draft: &mut Draft,
) -> Result<(), Or<ScriptRefusal>>
    ensures { Gives (λ _. so_far draft.new) (λ r. r) result (after_line number (so_far draft.old) (line_of line.now)) }
{
    match read_line(alloc, line)? {
        Some(Line::Skips) => Ok(()),
        Some(Line::Prepares) => prepare(alloc, number, draft),
        Some(Line::Opens(digits)) => open(alloc, number, digits, draft),
        Some(Line::Sends(command)) => send(alloc, number, &command, draft),
        Some(Line::Puts(bytes)) => put(number, &bytes, draft),
        None => Err(Or::Other(ScriptRefusal::BadLine(number))),
    }
}
