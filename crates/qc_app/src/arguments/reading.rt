//! What the words ask for.

ghost use Rattle.std.specs.Prelude.{◌≡◌, true, IfOk, OnErr, map, string_bytes};
ghost use Rattle.clap.specs.Words.{found_of, rows_of};
ghost use Rattle.qc_app.specs.Arguments as meant;
ghost use Rattle.qc_app.specs.Arguments.{asked_of, begins_with_run, options_asked};

use super::command::run_command;
use super::numbers::number_in;
use clap::ArgMatches;
use clap::error::ErrorKind;
use qc_types::{NoMemory, Options};
use std::alloc::Global;

/// The bytes of the cache's memory and of a reply that is kept where the words don't tell them.
const DEFAULT_BYTES: u32 = 1_048_576;

/// The most of either.
const MOST_BYTES: u32 = 67_108_864;

const DEFAULT_UNIT: u32 = 4_096;

const LEAST_UNIT: u32 = 512;

const MOST_UNIT: u32 = 1_048_576;

/// The cache is on: 0 is off, and 2 is on demand.
const DEFAULT_TYPE: u32 = 1;

const MOST_TYPE: u32 = 2;

/// What the words ask for.
#[derive(Clone, Copy, Debug, PartialEq, Eq)]
pub enum Asked {
    /// `run`: the script of the input, with these options.
    Run(Options),
    /// `workload`: the script of the workload with this number, with the default options.
    Workload(u32),
}

impl Asked {
    /// The options of its run.
    pub(crate) fn options(self) -> Options
        ensures { result ≡ options_asked self }
    {
        match self {
            Asked::Run(options) => options,
            Asked::Workload(_) => Options {
                size: DEFAULT_BYTES,
                limit: DEFAULT_BYTES,
                unit: DEFAULT_UNIT,
                kind: DEFAULT_TYPE as u8,
            },
        }
    }
}

/// What the words behind the program's name ask for, or nothing where these aren't in the form. This is `run` and then what `clap` takes for `--size`,
/// `--limit`, `--unit` and `--type`, each with a number in its range; or `workload` and one word of 1 to 10 digits, whose number is below 2^32. Of words that
/// don't begin with `run` no memory is asked for. Linear in the words.
pub fn read_words(alloc: Global, words: &[String]) -> Result<Option<Asked>, NoMemory>
    ensures asked { IfOk result (λ asked. asked ≡ asked_of (map string_bytes words.now)) }
    ensures memory { OnErr result (begins_with_run (map string_bytes words.now) ≡ true) }
{
    match words.first() {
        Some(first) if first.as_str() == "run" => Ok(read_run(alloc, words)?.map(Asked::Run)),
        Some(first) if first.as_str() == "workload" => {
            Ok(workload_number(words).map(Asked::Workload))
        }
        _ => Ok(None),
    }
}

/// The number of words that begin with `workload`, where one word more is there, with a number in the range.
fn workload_number(words: &[String]) -> Option<u32>
    ensures { result ≡ meant.workload_number (map string_bytes words.now) }
{
    match words {
        [_, number] => number_in(0, u32::MAX, number.as_str()),
        _ => None,
    }
}

/// The options of words that begin with `run`, which `clap` takes for the program's name.
fn read_run(alloc: Global, words: &[String]) -> Result<Option<Options>, NoMemory>
    ensures { IfOk result (λ options. options ≡ meant.run_options (map string_bytes words.now)) }
{
    let command = run_command(alloc)?;
    match command.try_get_matches_from(words) {
        Ok(matches) => Ok(options_in(&matches)),
        Err(error) if error.kind() == ErrorKind::OutOfMemory => Err(NoMemory),
        Err(_) => Ok(None),
    }
}

/// The options that the matches give, rounded, or none where a value isn't a number in its range.
fn options_in(matches: &ArgMatches) -> Option<Options>
    ensures { result ≡ meant.options_in (rows_of (found_of matches.now)) }
{
    let size = option_in(matches, "size", DEFAULT_BYTES, 0, MOST_BYTES)?;
    let limit = option_in(matches, "limit", DEFAULT_BYTES, 0, MOST_BYTES)?;
    let unit = option_in(matches, "unit", DEFAULT_UNIT, LEAST_UNIT, MOST_UNIT)?;
    let kind = option_in(matches, "type", DEFAULT_TYPE, 0, MOST_TYPE)?;
    Some(Options {
        size: size / 1024 * 1024,
        limit,
        unit: (unit + 7) / 8 * 8,
        kind: u8::try_from(kind).ok()?,
    })
}

/// The number that the option of this name has, or the default where it isn't there.
fn option_in(matches: &ArgMatches, name: &str, default: u32, low: u32, high: u32) -> Option<u32>
    ensures { result ≡ meant.option_in name.now default low high (rows_of (found_of matches.now)) }
{
    match matches.get_str(name) {
        Some(text) => number_in(low, high, text),
        None => Some(default),
    }
}
