//! Packets of commands, written and read: those of the protocol's documentation, and lengths near 2^24 - 1.

use crate::told::{must, same};
use qc_types::{NoMemory, Or, Text};
use qc_wire::{Command, CommandEnd, TooLong, can_be_read, command_packet, read_command};
use std::alloc::Global;
use std::process::Abort;

/// A command, told by a constant.
#[derive(Clone, Copy)]
enum Told<'a> {
    Quit,
    InitDb(&'a [u8]),
    Query(&'a [u8]),
    Ping,
    Unknown(u8),
    Empty,
}

use Told::{Empty, InitDb, Ping, Query, Quit, Unknown};

/// Commands with their packets.
const COMMANDS: &[(Told<'static>, &[u8])] = &[
    // the documentation's examples
    (Quit, b"\x01\0\0\0\x01"),
    (InitDb(b"test"), b"\x05\0\0\0\x02test"),
    (
        Query(b"select @@version_comment limit 1"),
        b"\x21\0\0\0\x03select @@version_comment limit 1",
    ),
    (Ping, b"\x01\0\0\0\x0e"),
    // COM_FIELD_LIST, and payloads of COM_QUIT and COM_PING that are too long
    (Unknown(0x04), b"\x01\0\0\0\x04"),
    (Unknown(0x01), b"\x02\0\0\0\x01\0"),
    (Unknown(0x0e), b"\x02\0\0\0\x0e\0"),
    (InitDb(b""), b"\x01\0\0\0\x02"),
    (Query(b""), b"\x01\0\0\0\x03"),
    (Query(b"\0\xff"), b"\x03\0\0\0\x03\0\xff"),
    (Empty, b"\0\0\0\0"),
];

fn command_of(alloc: Global, told: Told<'_>) -> Result<Command, NoMemory> {
    match told {
        Told::Quit => Ok(Command::Quit),
        Told::InitDb(name) => Ok(Command::InitDb(Text::of(alloc, name)?)),
        Told::Query(text) => Ok(Command::Query(Text::of(alloc, text)?)),
        Told::Ping => Ok(Command::Ping),
        Told::Unknown(byte) => Ok(Command::Unknown(byte)),
        Told::Empty => Ok(Command::Empty),
    }
}

fn is_command(found: &Command, told: Told<'_>) -> bool {
    match (found, told) {
        (Command::Quit, Told::Quit) => true,
        (Command::InitDb(name), Told::InitDb(wanted)) => name.bytes() == wanted,
        (Command::Query(text), Told::Query(wanted)) => text.bytes() == wanted,
        (Command::Ping, Told::Ping) => true,
        (Command::Unknown(byte), Told::Unknown(wanted)) => *byte == wanted,
        (Command::Empty, Told::Empty) => true,
        _ => false,
    }
}

/// These bytes are read as this command, to their end.
fn is_read(rt: &impl Abort, alloc: Global, bytes: &[u8], told: Told<'_>) {
    let mut left = bytes;
    let found = must(rt, read_command(alloc, &mut left));
    same(rt, is_command(&found, told), true);
    same(rt, left.len(), 0);
}

fn is_written(rt: &impl Abort, alloc: Global, told: Told<'_>, want: &[u8]) {
    let command = must(rt, command_of(alloc, told));
    assert!(rt; can_be_read(&command));
    let packet = must(rt, command_packet(alloc, &command));
    same(rt, packet.bytes(), want);
}

#[test]
fn packets_of_commands(rt: HostRuntime) {
    for (told, bytes) in COMMANDS {
        is_written(&rt, rt.alloc(), *told, bytes);
        is_read(&rt, rt.alloc(), bytes, *told);
    }
}

/// The packet of a query of so many blanks.
fn long_query(rt: &impl Abort, alloc: Global, length: usize) -> Result<Text, Or<TooLong>> {
    let text = must(rt, vec![in alloc; b' '; length]);
    command_packet(alloc, &Command::Query(Text::from_vec(text)))
}

#[test]
fn the_longest_payload(rt: HostRuntime) {
    let packet = must(&rt, long_query(&rt, rt.alloc(), 16_777_213));
    same(
        &rt,
        packet.bytes().starts_with(b"\xfe\xff\xff\0\x03 "),
        true,
    );
    same(&rt, packet.bytes().len(), 16_777_218);
    let text = must(&rt, vec![in rt.alloc(); b' '; 16_777_213]);
    is_read(&rt, rt.alloc(), packet.bytes(), Told::Query(&text));
}

#[test]
fn a_payload_of_one_byte_more(rt: HostRuntime) {
    match long_query(&rt, rt.alloc(), 16_777_214) {
        Err(Or::Other(refusal)) => same(&rt, refusal, TooLong { length: 16_777_215 }),
        _ => assert!(rt; false, "a payload that is too long"),
    }
}

/// Headers of the longest payload and of a longer one, whose length is judged before its number.
const HEADERS: &[(&[u8], CommandEnd)] = &[
    (b"\xfe\xff\xff\0", CommandEnd::Cut(4)),
    (b"\xff\xff\xff\0", CommandEnd::TooLong(16_777_215)),
    (b"\xff\xff\xff\x05", CommandEnd::TooLong(16_777_215)),
];

/// Why no command stands there. The header is taken all the same.
fn end_is(rt: &impl Abort, alloc: Global, header: &[u8], want: CommandEnd) {
    let mut left = header;
    match read_command(alloc, &mut left) {
        Err(Or::Other(end)) => same(rt, end, want),
        _ => panic!(rt; "no refusal"),
    }
    same(rt, left.len(), 0);
}

#[test]
fn headers_at_the_longest_payload(rt: HostRuntime) {
    for (header, end) in HEADERS {
        end_is(&rt, rt.alloc(), header, *end);
    }
}
