//! `qcache`: reads a script of sessions from the standard input, and writes the report of its run to the standard output.
#![tactic(auto)]

use qc_app::{Ended, StdSink, StdSource, qcache_main};
use qc_serve::Ungated;
use std::io::{self, ErrorKind};
use std::process::ExitCode;
use std::{env, mem};

fn main(rt: HostRuntime) -> ExitCode {
    let mut input = StdSource::new(rt.reader());
    let mut out = StdSink::new(io::writer(&rt));
    let ended = match words(&rt) {
        Ok(words) => qcache_main(&rt, rt.alloc(), &words, &mut input, &mut out, &Ungated),
        Err(error) => without_words(&error),
    };
    // Whether the standard error takes the message changes nothing of how the run ended.
    let _told = tell(&rt, &ended);
    let status = ended.status;
    // The memory goes back with the process, which ends here, and not value by value.
    mem::forget(ended);
    ExitCode::from(status)
}

/// Words that aren't UTF-8 are in no form; or memory was wanting for them.
fn without_words(error: &io::Error) -> Ended {
    Ended {
        status: if error.kind() == ErrorKind::OutOfMemory {
            5
        } else {
            1
        },
        report: None,
        bad: None,
        server: None,
        receipts: None,
    }
}

/// The words behind the program's name.
fn words(rt: &HostRuntime) -> io::Result<Vec<String>> {
    Ok(env::args(rt)?.skip(1).collect(rt.alloc())?)
}

/// Tells the fault on the standard error.
fn tell(rt: &HostRuntime, ended: &Ended) -> io::Result<()> {
    if ended.status == 0 {
        return Ok(());
    }
    eprintln!(rt; "{ended}")
}
