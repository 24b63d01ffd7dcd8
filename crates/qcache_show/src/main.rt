//! `qcache-show`: reads a report from the standard input, and shows it to people.
#![tactic(auto)]

use qc_show::{Fault, Refusal, Request, Told, read_words, show};
use std::io::{self, BufWriter, ErrorKind, Read, Write};
use std::process::ExitCode;
use std::{env, fs};

/// Everything was shown.
const ALL_SHOWN: u8 = 0;

/// The words are wrong.
const WRONG_WORDS: u8 = 1;

/// The report or the script is refused.
const REFUSED: u8 = 2;

const READ_FAULT: u8 = 3;

const WRITE_FAULT: u8 = 4;

const NO_MEMORY: u8 = 5;

fn main(rt: HostRuntime) -> ExitCode {
    ExitCode::from(run(&rt))
}

/// Does what the words of the command line ask for, and gives the exit status.
fn run(rt: &HostRuntime) -> u8 {
    let words = match words(rt) {
        Ok(words) => words,
        Err(error) => return tell_status(rt, status_of(&error, WRONG_WORDS)),
    };
    match read_words(rt.alloc(), &words) {
        Ok(request) => show_request(rt, &request),
        Err(Told::Asked(text)) => tell_asked(rt, &text),
        Err(Told::Wrong(text)) => tell(rt, WRONG_WORDS, &text),
        Err(Told::Memory) => tell(rt, NO_MEMORY, "no memory\n"),
    }
}

/// The words behind the program's name.
fn words(rt: &HostRuntime) -> io::Result<Vec<String>> {
    Ok(env::args(rt)?.skip(1).collect(rt.alloc())?)
}

fn show_request(rt: &HostRuntime, request: &Request<'_>) -> u8 {
    let report = match input(rt) {
        Ok(report) => report,
        Err(error) => return tell_status(rt, status_of(&error, READ_FAULT)),
    };
    let Some(file) = request.script else {
        return shown(rt, request, &report, None);
    };
    match fs::read(rt, file) {
        Ok(script) => shown(rt, request, &report, Some(script.as_slice())),
        Err(error) => tell_status(rt, status_of(&error, READ_FAULT)),
    }
}

/// The bytes of the standard input.
fn input(rt: &HostRuntime) -> io::Result<Vec<u8>> {
    let mut bytes = Vec::new(rt.alloc());
    rt.reader().read_to_end(&mut bytes)?;
    Ok(bytes)
}

fn shown(rt: &HostRuntime, request: &Request<'_>, report: &[u8], script: Option<&[u8]>) -> u8 {
    match write_view(rt, request, report, script) {
        Ok(()) => ALL_SHOWN,
        Err(Refusal::Fault(Fault::Memory)) => tell_status(rt, NO_MEMORY),
        Err(Refusal::Fault(Fault::Output)) => tell_status(rt, WRITE_FAULT),
        Err(refusal) => tell_refusal(rt, &refusal),
    }
}

fn write_view(
    rt: &HostRuntime,
    request: &Request<'_>,
    report: &[u8],
    script: Option<&[u8]>,
) -> Result<(), Refusal> {
    let mut out = match BufWriter::new(rt.alloc(), io::writer(rt)) {
        Ok(out) => out,
        Err(_) => return Err(Refusal::Fault(Fault::Memory)),
    };
    show(rt.alloc(), request.view, report, script, &mut out)?;
    match out.flush() {
        Ok(()) => Ok(()),
        Err(error) => Err(Refusal::Fault(Fault::from(error))),
    }
}

/// The status of an error: want of memory, or else this one.
fn status_of(error: &io::Error, other: u8) -> u8 {
    if error.kind() == ErrorKind::OutOfMemory {
        NO_MEMORY
    } else {
        other
    }
}

/// Tells help or the version on the standard output.
fn tell_asked(rt: &HostRuntime, text: &str) -> u8 {
    match print!(rt; "{text}") {
        Ok(()) => ALL_SHOWN,
        Err(_) => tell_status(rt, WRITE_FAULT),
    }
}

fn tell_refusal(rt: &HostRuntime, refusal: &Refusal) -> u8 {
    // Whether the standard error takes it changes nothing of the status.
    let _told = eprintln!(rt; "{refusal}");
    REFUSED
}

/// Tells on the standard error why it ends with this status.
fn tell_status(rt: &HostRuntime, status: u8) -> u8 {
    match status {
        WRONG_WORDS => tell(rt, status, "error: a word isn't UTF-8\n"),
        READ_FAULT => tell(rt, status, "read fault\n"),
        WRITE_FAULT => tell(rt, status, "write fault\n"),
        NO_MEMORY => tell(rt, status, "no memory\n"),
        _ => status,
    }
}

fn tell(rt: &HostRuntime, status: u8, text: &str) -> u8 {
    let _told = eprint!(rt; "{text}");
    status
}
