//! What has been read of a script, and what each kind of line adds to it.

ghost use Rattle.std.specs.Prelude.{◌≡◌, ◌++◌, length, nat_lt, if◌then◌else◌, Some, Ok, Err, IsTrue};
ghost use Rattle.qc_types.specs.Answers.{Gives};
ghost use Rattle.qc_sql.specs.Packets.{packet, most_payload};
ghost use Rattle.qc_sql.specs.Commands.{command_payload};
ghost use Rattle.qc_model.specs.declared.reports.ScriptRefusal.TheVariants as refusal;
ghost use Rattle.qc_model.specs.ScriptLines as script;
ghost use Rattle.qc_model.specs.ScriptLines.{Prepares, Opens, Sends, Puts, after_line};
ghost use Rattle.qc_wire.specs.Commands.{can_be_read};
ghost use Rattle.qc_script.specs.Drafts.{so_far};

use itoa::Buffer;
use qc_model::reports::ScriptRefusal;
use qc_sql::commands::Command;
use qc_types::{Or, Text};
use qc_wire::put_command;
use std::alloc::Global;

const MOST_SESSIONS: usize = 64;

/// The input of the setup part, where it has begun, and of each session so far.
#[derive(Drop)]
pub struct Draft {
    pub setup: Option<Text>,
    pub sessions: Vec<Text>,
}

/// Begins the setup part, at the line with this number.
pub fn prepare(alloc: Global, number: u32, draft: &mut Draft) -> Result<(), Or<ScriptRefusal>>
    ensures { Gives (λ _. so_far draft.new) (λ r. r) result (after_line number (so_far draft.old) (Some Prepares)) }
{
    if has_begun(draft) {
        return Err(Or::Other(ScriptRefusal::BadLine(number)));
    }
    draft.setup = Some(Text::of(alloc, &[])?);
    Ok(())
}

/// Whether the setup part or a session has begun.
fn has_begun(draft: &Draft) -> bool
    ensures { result ≡ script.has_begun (so_far draft.now) }
{
    draft.setup.is_some() || !draft.sessions.is_empty()
}

/// Opens the session whose number is written so.
pub fn open(
    alloc: Global,
    number: u32,
    digits: &[u8],
    draft: &mut Draft,
) -> Result<(), Or<ScriptRefusal>>
    ensures { Gives (λ _. so_far draft.new) (λ r. r) result (after_line number (so_far draft.old) (Some (Opens digits.now))) }
{
    let next = draft.sessions.len() + 1;
    if digits != Buffer::new().format(next).as_bytes() {
        return Err(Or::Other(ScriptRefusal::BadLine(number)));
    }
    if next > MOST_SESSIONS {
        return Err(Or::Other(ScriptRefusal::TooManySessions(number)));
    }
    draft.sessions.push(Text::of(alloc, &[])?)?;
    Ok(())
}

/// Puts the packet of a command at the end of the input that was begun last.
#[tactic(auto, using(crate::proofs::LastInput::sent_at_end))]
pub fn send(
    alloc: Global,
    number: u32,
    command: &Command,
    draft: &mut Draft,
) -> Result<(), Or<ScriptRefusal>>
    requires { IsTrue (can_be_read command.now) }
    ensures { Gives (λ _. so_far draft.new) (λ r. r) result (after_line number (so_far draft.old) (Some (Sends command.now))) }
{
    match draft.sessions.last_mut() {
        Some(input) => put_packet(alloc, number, command, input),
        None => match &mut draft.setup {
            Some(input) => put_packet(alloc, number, command, input),
            None => Err(Or::Other(ScriptRefusal::NoSession(number))),
        },
    }
}

/// Puts the packet of a command at the end of an input, where one packet holds it.
fn put_packet(
    alloc: Global,
    number: u32,
    command: &Command,
    input: &mut Text,
) -> Result<(), Or<ScriptRefusal>>
    requires { IsTrue (can_be_read command.now) }
    ensures { Gives (λ _. input.new) (λ r. r) result
        (if nat_lt most_payload (length (command_payload command.now)) then Err (refusal.BadLine number) else Ok (input.old ++ packet 0 (command_payload command.now))) }
{
    match put_command(alloc, command, input) {
        Ok(()) => Ok(()),
        Err(Or::Memory) => Err(Or::Memory),
        Err(Or::Other(_)) => Err(Or::Other(ScriptRefusal::BadLine(number))),
    }
}

/// Puts bytes at the end of the input that was begun last.
#[tactic(auto, using(crate::proofs::LastInput::sent_at_end))]
pub fn put(number: u32, bytes: &[u8], draft: &mut Draft) -> Result<(), Or<ScriptRefusal>>
    ensures { Gives (λ _. so_far draft.new) (λ r. r) result (after_line number (so_far draft.old) (Some (Puts bytes.now))) }
{
    match draft.sessions.last_mut() {
        Some(input) => input.extend(bytes)?,
        None => match &mut draft.setup {
            Some(input) => input.extend(bytes)?,
            None => return Err(Or::Other(ScriptRefusal::NoSession(number))),
        },
    }
    Ok(())
}
