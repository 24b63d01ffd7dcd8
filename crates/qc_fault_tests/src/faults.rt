//! What a session is sent, and where its stream or its replies break off.

use crate::answers::many_rows;
use qc_core::Server;
use qc_serve::{Replies, ReplySink};
use qc_turn::Seat;
use qc_types::{BytesSource, NoMemory, PutStep};
use std::alloc::Global;

/// What breaks off.
#[derive(Clone, Copy)]
pub(crate) enum Fault {
    /// Nothing: the stream ends behind the commands.
    Nothing,
    /// The put with this number fails, from 1.
    Put(u64),
    /// The put with this number wants memory.
    Memory(u64),
    /// The read with this number fails. A read gives a packet's header or its payload.
    Read(u64),
    /// Likewise, where a read gives a byte.
    ReadOfByte(u64),
    /// The stream ends behind so many bytes.
    Cut(usize),
    /// These bytes stand behind the first so many ones of the stream.
    Tail(usize, &'static [u8]),
}

/// Whether a put wants memory or fails, and how its session ends then.
pub(crate) const ENDS: &[(bool, &str)] = &[(false, "WriteFault"), (true, "Memory")];

/// The put with this number wants memory, or fails.
pub(crate) fn at_put(wants: bool, put: u64) -> Fault {
    if wants {
        Fault::Memory(put)
    } else {
        Fault::Put(put)
    }
}

/// Commands, each with the name of its reply: `init d` is COM_INIT_DB, `unknown` a byte that is no command, `many rows` the INSERT of 116 rows into `d.t`, and any
/// other text COM_QUERY.
pub(crate) type Commands = &'static [(&'static str, &'static str)];

/// A table, its row, and its entry.
pub(crate) const ONE_ROW: Commands = &[
    ("CREATE DATABASE d", "ok 1"),
    ("CREATE TABLE d.t (id BIGINT PRIMARY KEY)", "ok"),
    ("INSERT INTO d.t VALUES (7)", "ok 1"),
    ("SELECT id FROM d.t", "7"),
];

/// The same with 116 rows.
pub(crate) const MANY_ROWS: Commands = &[
    ("CREATE DATABASE d", "ok 1"),
    ("CREATE TABLE d.t (id BIGINT PRIMARY KEY)", "ok"),
    ("many rows", "ok 116"),
    ("SELECT id FROM d.t", "many"),
];

/// A session on a seat.
#[derive(Clone, Copy)]
pub(crate) struct Visit {
    pub(crate) commands: Commands,
    pub(crate) fault: Fault,
}

/// A session in which nothing breaks off.
pub(crate) fn whole(commands: Commands) -> Visit {
    Visit {
        commands,
        fault: Fault::Nothing,
    }
}

/// Puts the packet of a command down.
fn put_command(alloc: Global, text: &str, out: &mut Vec<u8>) -> Result<(), NoMemory> {
    if text == "many rows" {
        let insert = many_rows(alloc)?;
        return put_packet(3, insert.as_str(), out);
    }
    if text == "unknown" {
        return put_packet(29, "", out);
    }
    match text.strip_prefix("init ") {
        Some(name) => put_packet(2, name, out),
        None => put_packet(3, text, out),
    }
}

/// Puts the packet down whose payload has this byte and this text.
fn put_packet(byte: u8, rest: &str, out: &mut Vec<u8>) -> Result<(), NoMemory> {
    let length = (rest.len() as u64).wrapping_add(1);
    let [low, middle, high, ..] = length.to_le_bytes();
    out.extend_from_slice(&[low, middle, high, 0, byte])?;
    out.extend_from_slice(rest.as_bytes())?;
    Ok(())
}

impl Visit {
    /// Puts the bytes of the stream down.
    fn put_bytes(self, alloc: Global, out: &mut Vec<u8>) -> Result<(), NoMemory> {
        for (text, _) in self.commands {
            put_command(alloc, text, out)?;
        }
        match self.fault {
            Fault::Cut(most) => out.truncate(most),
            Fault::Tail(most, bytes) => {
                out.truncate(most);
                out.extend_from_slice(bytes)?;
            }
            _ => {}
        }
        Ok(())
    }

    /// The stream.
    pub(crate) fn source(self, alloc: Global) -> Result<BytesSource, NoMemory> {
        let mut bytes = Vec::new(alloc);
        self.put_bytes(alloc, &mut bytes)?;
        let (piece, read) = match self.fault {
            Fault::Read(read) => (usize::MAX, read),
            Fault::ReadOfByte(read) => (1, read),
            _ => (usize::MAX, 0),
        };
        let mut failing = Vec::new(alloc);
        failing.push(read)?;
        Ok(BytesSource::new(bytes, piece.max(1), failing))
    }

    /// Where its replies go.
    pub(crate) fn sink(self, alloc: Global) -> Breaking {
        Breaking {
            replies: Replies::new(alloc, Vec::new(alloc)),
            fault: self.fault,
            puts: 0,
            faults: 0,
        }
    }
}

/// A sink in memory, of whose puts one may fail, or want memory.
#[derive(Drop)]
pub(crate) struct Breaking {
    pub(crate) replies: Replies,
    fault: Fault,
    puts: u64,
    faults: u64,
}

impl ReplySink for Breaking {
    ghost use Rattle.std.specs.Prelude.{None};

    ghost held = { λ _. None };

    ghost faults = { λ s. s.faults };

    fn put(&mut self, at: &Seat<Server>, piece: &[u8]) -> PutStep {
        self.puts = self.puts.wrapping_add(1);
        match self.fault {
            Fault::Memory(put) if put == self.puts => PutStep::Memory,
            Fault::Put(put) if put == self.puts => {
                self.faults = self.faults.saturating_add(1);
                PutStep::Failed
            }
            _ => match self.replies.put(at, piece) {
                PutStep::Done => PutStep::Done,
                PutStep::Failed | PutStep::Memory => PutStep::Memory,
            },
        }
    }
}
