//! `qc_suite`: plays the cases of the files that its words name, and tells what comes of each that it doesn't say.
#![tactic(auto)]

mod answers;
mod cases;
mod events;
mod gate;
mod line;
mod pieces;
mod play;
mod reading;
mod script;
mod steps;
mod told;
mod views;

use cases::Case;
use pieces::expanded_lines;
use play::play;
use qc_types::NoMemory;
use reading::cases_of;
use std::process::ExitCode;
use std::sync::Wait;
use std::thread::Threads;
use std::{env, fs, io, str};

fn main(rt: HostRuntime) -> ExitCode {
    match play_all(&rt, &rt) {
        Ok(true) => ExitCode::from(0),
        Ok(false) => ExitCode::from(1),
        Err(_) => ExitCode::from(2),
    }
}

/// Plays all files. Whether nothing differs.
fn play_all<R: Threads + Wait + Sync>(rt: &HostRuntime, threads: &R) -> io::Result<bool> {
    let files: Vec<String> = env::args(rt)?.skip(1).collect(rt.alloc())?;
    let mut agrees = true;
    for file in &files {
        let bytes = fs::read(rt, file.as_str())?;
        agrees = play_file(rt, threads, file.as_str(), &bytes)? && agrees;
    }
    Ok(agrees)
}

/// Plays a file, and tells how many cases, steps and runs it has, and what differs.
fn play_file<R: Threads + Wait + Sync>(
    rt: &HostRuntime,
    threads: &R,
    file: &str,
    bytes: &[u8],
) -> io::Result<bool> {
    let Ok(text) = str::from_utf8(bytes) else {
        println!(rt; "{file}: no UTF-8")?;
        return Ok(false);
    };
    let lines = known(expanded_lines(rt.alloc(), text))?;
    let cases = known(cases_of(rt.alloc(), &lines))?;
    play_cases(rt, threads, file, &cases)
}

fn play_cases<R: Threads + Wait + Sync>(
    rt: &HostRuntime,
    threads: &R,
    file: &str,
    cases: &[Case<'_>],
) -> io::Result<bool> {
    let mut steps = 0usize;
    let mut runs = 0u64;
    let mut differing = 0usize;
    for case in cases {
        let (played, told) = known(play(threads, case))?;
        steps = steps.saturating_add(case.steps.len());
        runs = runs.saturating_add(played);
        if !told.is_empty() {
            differing = differing.saturating_add(1);
            tell(rt, file, case.name, told.bytes())?;
        }
    }
    let count = cases.len();
    println!(rt; "{file}: {count} cases, {steps} steps, {runs} runs, {differing} differ")?;
    Ok(differing == 0)
}

/// Tells what differs in a case.
fn tell(rt: &HostRuntime, file: &str, name: &str, told: &[u8]) -> io::Result<()> {
    let text = String::from_utf8_lossy(rt.alloc(), told)?;
    println!(rt; "{file}: {name}\n{text}")
}

/// Want of memory is an error like those of files.
fn known<T>(found: Result<T, NoMemory>) -> io::Result<T> {
    match found {
        Ok(found) => Ok(found),
        Err(NoMemory) => Err(io::Error::from(io::ErrorKind::OutOfMemory)),
    }
}
