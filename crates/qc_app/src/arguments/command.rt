//! The command that reads the words behind `run`.

ghost use Rattle.std.specs.Prelude.{◌≡◌, IfOk, false};
ghost use Rattle.clap.specs.Words.{app_of, rule_of};
ghost use Rattle.qc_app.specs.Arguments as meant;

use clap::{Arg, ArgAction, Command};
use qc_types::NoMemory;
use std::alloc::Global;

/// The command `run` with its four options.
pub(crate) fn run_command<'a>(alloc: Global) -> Result<Command<'a>, NoMemory>
    ensures { IfOk result (λ command. app_of command ≡ meant.run_command) }
{
    let command = Command::new(alloc, "run")
        .arg(option(alloc, "size"))?
        .arg(option(alloc, "limit"))?
        .arg(option(alloc, "unit"))?
        .arg(option(alloc, "type"))?;
    Ok(command)
}

/// An option of this name, which sets one value and needn't be there.
fn option<'a>(alloc: Global, name: &'a str) -> Arg<'a>
    ensures rule { rule_of result ≡ meant.option_rule name.entry.now }
    ensures local { result.global ≡ false }
{
    Arg::new(alloc, name).long(name).action(ArgAction::Set)
}
