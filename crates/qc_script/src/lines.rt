//! The lines of a script, one after another.

ghost use Rattle.std.specs.Prelude.{◌≡◌, ◌<◌, ◌==◌, [], ◌∷◌, codes, length, IfOk, IfSome, MatchOption};
ghost use Rattle.std.specs.List.{position};
ghost use Rattle.std.specs.Option.{option_map};
ghost use Rattle.hex.specs.Hex.{decode_of};
ghost use Rattle.qc_model.specs.ScriptLines.{lines_of, line_of, is_skipped, word_line, behind, puts};
ghost use Rattle.qc_script.specs.Lines.{meant, SendsReadable};

use hex::FromHexError;
use qc_sql::commands::Command;
use qc_types::{NoMemory, Text};
use std::alloc::Global;

const SETUP: &[u8] = b"setup";

const PING: &[u8] = b"ping";

const QUIT: &[u8] = b"quit";

/// What a line of a script is for.
#[derive(Drop)]
pub enum Line<'a> {
    /// The commands behind it are the setup part's.
    Prepares,
    /// The commands behind it are those of the session with the number that these bytes write.
    Opens(&'a [u8]),
    /// A command of what was begun last.
    Sends(Command),
    /// Bytes of the stream that was begun last, as they are.
    Puts(Vec<u8>),
    /// A comment, or an empty line.
    Skips,
}

/// The first line of a text, without its LF, and what stands behind it, or none where nothing is left.
/// The last line may lack its LF. The cost is linear in the line's length.
#[tactic(auto, using(crate::proofs::LineEnds::line_before, crate::proofs::LineEnds::last_line))]
pub fn first_line(text: &[u8]) -> Option<(&[u8], &[u8])>
    ensures lines { MatchOption result (lines_of text.now ≡ []) (λ p. lines_of text.now ≡ p.0.now ∷ lines_of p.1.now) }
    ensures shorter { MatchOption result (text.now ≡ []) (λ p. length p.1.now < length text.now) }
{
    if text.is_empty() {
        return None;
    }
    match first_end(text) {
        Some(end) => Some((&text[..end], &text[end + 1..])),
        None => Some((text, &[])),
    }
}

/// The place of the first LF.
pub(crate) fn first_end(text: &[u8]) -> Option<usize>
    ensures place { result ≡ position (λ byte. byte == 10) text.now }
    ensures within { IfSome result (λ end. end < length text.now) }
{
    text.iter().position(|byte| *byte == b'\n')
}

/// What a line is for, or none where it is none of a script's lines. A command's text is copied once; the cost is linear in the line's length.
pub fn read_line(alloc: Global, line: &[u8]) -> Result<Option<Line<'_>>, NoMemory>
    ensures line { IfOk result (λ read. option_map meant read ≡ line_of line.now) }
    ensures sent { IfOk result SendsReadable }
{
    if is_skipped(line) {
        return Ok(Some(Line::Skips));
    }
    if line == SETUP {
        return Ok(Some(Line::Prepares));
    }
    if line == PING {
        return Ok(Some(Line::Sends(Command::Ping)));
    }
    if line == QUIT {
        return Ok(Some(Line::Sends(Command::Quit)));
    }
    read_word(alloc, line)
}

/// Whether a line is empty or a comment.
fn is_skipped(line: &[u8]) -> bool
    ensures { result ≡ is_skipped line.now }
{
    matches!(line, [] | [b'#', ..])
}

/// What a line of a word, one space and all that is behind them is for.
fn read_word(alloc: Global, line: &[u8]) -> Result<Option<Line<'_>>, NoMemory>
    ensures line { IfOk result (λ read. option_map meant read
        ≡ word_line (behind (codes "session ") line.now) (behind (codes "query ") line.now) (behind (codes "init ") line.now) (behind (codes "raw ") line.now)) }
    ensures sent { IfOk result SendsReadable }
{
    if let Some(digits) = line.strip_prefix(b"session ") {
        return Ok(Some(Line::Opens(digits)));
    }
    if let Some(text) = line.strip_prefix(b"query ") {
        return Ok(Some(Line::Sends(Command::Query(Text::of(alloc, text)?))));
    }
    if let Some(name) = line.strip_prefix(b"init ") {
        return Ok(Some(Line::Sends(Command::InitDb(Text::of(alloc, name)?))));
    }
    match line.strip_prefix(b"raw ") {
        Some(digits) => read_raw(alloc, digits),
        None => Ok(None),
    }
}

/// The bytes that hexadecimal digits write, or none where there is another byte or half a pair.
fn read_raw(alloc: Global, digits: &[u8]) -> Result<Option<Line<'_>>, NoMemory>
    ensures line { IfOk result (λ read. option_map meant read ≡ puts (decode_of digits.now)) }
    ensures sent { IfOk result SendsReadable }
{
    match hex::decode(alloc, digits) {
        Ok(bytes) => Ok(Some(Line::Puts(bytes))),
        Err(FromHexError::OutOfMemory) => Err(NoMemory),
        Err(_) => Ok(None),
    }
}
