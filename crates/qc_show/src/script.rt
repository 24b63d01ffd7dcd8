//! The commands of a script, beside the lines of a report that answer them.

use crate::fault::Fault;
use crate::plain::{Within, put_plain};
use qc_model::reports::{Report, Script, Word};
use qc_sql::commands::Command;
use qc_types::{NoMemory, Or};
use qc_wire::read_command;
use std::alloc::Global;
use std::io::Write;

/// The commands of each session of a script, without those that end it.
#[derive(Drop)]
pub struct Commands {
    setup: Vec<Command>,
    sessions: Vec<Vec<Command>>,
}

impl Commands {
    /// No commands.
    pub fn none(alloc: Global) -> Commands {
        Commands {
            setup: Vec::new(alloc),
            sessions: Vec::new(alloc),
        }
    }

    /// The commands of a script. Linear in it.
    pub fn of(alloc: Global, script: &Script) -> Result<Commands, NoMemory> {
        let setup = match &script.setup {
            Some(input) => commands_in(alloc, input.bytes())?,
            None => Vec::new(alloc),
        };
        let mut sessions = Vec::new(alloc);
        for input in script.sessions.items() {
            sessions.push(commands_in(alloc, input.bytes())?)?;
        }
        Ok(Commands { setup, sessions })
    }

    /// The command of a session, of which 0 is the setup part, by its index from 0.
    pub fn get(&self, session: u8, index: usize) -> Option<&Command> {
        match usize::from(session).checked_sub(1) {
            None => self.setup.get(index),
            Some(at) => self.sessions.get(at)?.get(index),
        }
    }
}

/// The commands that stand one after another, up to a COM_QUIT or to where no whole packet of one stands. Each takes a byte at least.
fn commands_in(alloc: Global, input: &[u8]) -> Result<Vec<Command>, NoMemory> {
    let mut commands = Vec::new(alloc);
    let mut left = input;
    for _ in 0..input.len() {
        match read_command(alloc, &mut left) {
            Ok(Command::Quit) => break,
            Ok(command) => commands.push(command)?,
            Err(Or::Memory) => return Err(NoMemory),
            Err(Or::Other(_)) => break,
        }
    }
    Ok(commands)
}

/// The command of each event of a report's journal, by the index of the event. An event that decided no command, or one that isn't known, has
/// none. Linear in the report.
pub fn commands_of_events<'a>(
    alloc: Global,
    report: &Report,
    commands: &'a Commands,
) -> Result<Vec<Option<&'a Command>>, NoMemory> {
    let mut decided = Vec::new(alloc);
    for _ in report.journal.items() {
        decided.push(None)?;
    }
    for session in report.sessions.items() {
        for (index, line) in session.lines.items().iter().enumerate() {
            if line.how != Word::Local {
                decide(
                    &mut decided,
                    line.place,
                    commands.get(session.session, index),
                );
            }
        }
    }
    Ok(decided)
}

/// Puts a command at the event of this place, where there is one.
fn decide<'a>(decided: &mut Vec<Option<&'a Command>>, place: u64, command: Option<&'a Command>) {
    let Some(index) = place.checked_sub(1) else {
        return;
    };
    let Ok(index) = usize::try_from(index) else {
        return;
    };
    if let Some(slot) = decided.get_mut(index) {
        *slot = command;
    }
}

/// Puts a command in one line, as a script has it.
pub fn put_command<W: Write>(out: &mut W, within: Within, command: &Command) -> Result<(), Fault> {
    match command {
        Command::Query(text) => put_plain(out, within, text.bytes()),
        Command::InitDb(name) => {
            out.write_all(b"init ")?;
            put_plain(out, within, name.bytes())
        }
        Command::Ping => Ok(out.write_all(b"ping")?),
        Command::Quit => Ok(out.write_all(b"quit")?),
        Command::Unknown(byte) => Ok(write!(
            out,
            "(no command: a payload that begins with the byte {byte:02x})"
        )?),
        Command::Empty => Ok(out.write_all(b"(no command: a payload of no bytes)")?),
    }
}

/// A query's text without the white space in front, and the white space and semicolons behind.
pub fn trimmed(text: &[u8]) -> &[u8] {
    let text = match text.iter().position(|byte| !is_space(*byte)) {
        Some(first) => &text[first..],
        None => &[],
    };
    match text
        .iter()
        .rposition(|byte| !is_space(*byte) && *byte != b';')
    {
        Some(last) => &text[..last + 1],
        None => &[],
    }
}

fn is_space(byte: u8) -> bool {
    matches!(byte, 9..=13 | b' ')
}
