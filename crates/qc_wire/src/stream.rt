//! Commands of a stream, as a server reads them.

ghost use Rattle.std.specs.Prelude.{◌≡◌, ◌≤◌, ◌<◌, length, drop, IfOk, Err};
ghost use Rattle.qc_types.specs.Streams.{Rose};
ghost use Rattle.qc_types.specs.declared.memory.Or.TheVariants as or;
ghost use Rattle.qc_sql.specs.declared.commands.CommandEnd.TheVariants as end;
ghost use Rattle.qc_sql.specs.Commands as commands;
ghost use Rattle.qc_sql.specs.Packets.{most_payload};
ghost use Rattle.qc_wire.specs.Commands.{ReadsCommand};
ghost use Rattle.qc_wire.specs.Stream.{EndsWithin, FillGives, HeaderGives, validated_header};

use crate::commands::{COM_INIT_DB, COM_PING, COM_QUERY, COM_QUIT};
use crate::header::{HEADER_LENGTH, MOST_PAYLOAD, payload_size};
use qc_sql::commands::{Command, CommandEnd};
use qc_types::{Or, ReadStep, Source, Text};
use std::alloc::Global;

/// The sequence number of a command's packet.
const SEQUENCE: u8 = 0;

/// What filling a buffer did.
#[derive(Clone, Copy)]
enum Filled {
    /// The buffer is full.
    Whole,
    /// The source ended, and so many bytes were left, fewer than the buffer has room for.
    Ended(usize),
    /// The source failed.
    Failed,
}

/// Reads the next command from a source: a packet numbered 0, whose payload is COM_QUIT, COM_INIT_DB, COM_QUERY, COM_PING or no command.
///
/// It takes the packet's bytes and nothing behind them, however the source cuts them into pieces. Where no whole packet stands in front it says
/// why. Of the header the length is validated first, and then the sequence number; where either is refused, the header has been taken and nothing
/// behind it. Memory is taken once, for the payload, of at most 16,777,214 bytes, when the whole header is there; where it lacks, the header has
/// been taken. Each read takes a byte at least, and the cost is linear in the payload.
pub fn read_command<S: Source>(alloc: Global, source: &mut S) -> Result<Command, Or<CommandEnd>>
    ensures command { ReadsCommand result (S.left source.old) (S.left source.new) }
    ensures within { IfOk result (λ c. length (commands.command_payload c) ≤ most_payload) }
    ensures later { S.faults source.old ≤ S.faults source.new }
    ensures failed { result ≡ Err (or.Other end.Failed) → Rose (S.faults source.old) (S.faults source.new) }
{
    let length = match read_header(source) {
        Ok(length) => length,
        Err(end) => return Err(Or::Other(end)),
    };
    let mut payload = vec![in alloc; 0u8; length as usize]?;
    match fill(source, payload.as_mut_slice()) {
        Filled::Whole => Ok(command_of(payload)),
        Filled::Ended(count) => Err(Or::Other(CommandEnd::Cut((HEADER_LENGTH + count) as u32))),
        Filled::Failed => Err(Or::Other(CommandEnd::Failed)),
    }
}

/// Reads the header of a command's packet, and gives the length of the payload in bytes, at most 16,777,214.
fn read_header<S: Source>(source: &mut S) -> Result<u32, CommandEnd>
    ensures header { HeaderGives result (S.left source.old) (S.left source.new) }
    ensures bound { IfOk result (λ n. n ≤ most_payload) }
    ensures later { S.faults source.old ≤ S.faults source.new }
    ensures failed { result ≡ Err end.Failed → Rose (S.faults source.old) (S.faults source.new) }
{
    let mut header = [0u8; HEADER_LENGTH];
    match fill(source, &mut header) {
        Filled::Whole => validated(header),
        Filled::Ended(0) => Err(CommandEnd::EndOfInput),
        Filled::Ended(count) => Err(CommandEnd::Cut(count as u32)),
        Filled::Failed => Err(CommandEnd::Failed),
    }
}

/// The length in a header, unless it is too long or the sequence number isn't 0.
fn validated(header: [u8; HEADER_LENGTH]) -> Result<u32, CommandEnd>
    ensures header { result ≡ validated_header header }
    ensures bound { IfOk result (λ n. n ≤ most_payload) }
{
    let length = payload_size(&header);
    if length > MOST_PAYLOAD {
        return Err(CommandEnd::TooLong(length as u32));
    }
    if header[3] != SEQUENCE {
        return Err(CommandEnd::BadSequence {
            found: header[3],
            wanted: SEQUENCE,
        });
    }
    Ok(length as u32)
}

/// The command of a payload. Linear in it, and no memory is taken.
fn command_of(payload: Vec<u8>) -> Command
    ensures command { result ≡ commands.command_of payload.items }
    ensures bound { length (commands.command_payload result) ≤ length payload.items }
{
    match payload.as_slice() {
        [] => Command::Empty,
        [COM_QUIT] => Command::Quit,
        [COM_PING] => Command::Ping,
        [COM_INIT_DB, ..] => Command::InitDb(behind_first(payload)),
        [COM_QUERY, ..] => Command::Query(behind_first(payload)),
        [byte, ..] => Command::Unknown(*byte),
    }
}

/// What stands behind the first byte.
fn behind_first(mut payload: Vec<u8>) -> Text
    requires { 0 < length payload.items }
    ensures { result ≡ drop 1 payload.items }
{
    payload.remove(0);
    Text::from_vec(payload)
}

/// Fills a buffer with the next bytes of a source. Each turn takes a byte at least; the cost is linear in the buffer.
fn fill<S: Source>(source: &mut S, out: &mut [u8]) -> Filled
    ensures bytes { FillGives result (S.left source.old) (S.left source.new) out.new }
    ensures within { EndsWithin result (length out.old) }
    ensures later { S.faults source.old ≤ S.faults source.new }
    ensures failed { result ≡ Filled.Failed → Rose (S.faults source.old) (S.faults source.new) }
{
    let mut place = 0;
    while place < out.len() {
        match source.read(&mut out[place..]) {
            ReadStep::Got(count) => place += count,
            ReadStep::End => return Filled::Ended(place),
            ReadStep::Failed => return Filled::Failed,
        }
    }
    Filled::Whole
}
