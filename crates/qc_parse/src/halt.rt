//! Why a reader stops.

ghost use Rattle.qc_parse.specs.declared.halt.Halt.TheVariants as halt;
ghost use Rattle.qc_parse.specs.Cursors.{Says, SaysNamed};

use qc_types::{NoMemory, Or, Text};
use std::alloc::Global;

/// Why a reader stops.
#[derive(Drop)]
pub enum Halt {
    /// No text of the grammar goes on with what is next.
    Unexpected,
    /// What was read isn't supported.
    Unsupported(Text),
    /// FROM names more than eight tables.
    TooManyTables,
}

impl From<Halt> for Or<Halt> {
    ghost use Rattle.std.specs.Prelude.{◌≡◌};
    ghost use Rattle.qc_types.specs.declared.memory.Or.TheVariants.{Other};

    ghost from_gives = { λ h e. e ≡ Other h };

    fn from(halt: Halt) -> Or<Halt> {
        Or::Other(halt)
    }
}

/// This isn't supported; or memory lacks to say so.
pub fn unsupported(alloc: Global, what: &[u8]) -> Or<Halt>
    ensures { Says result (halt.Unsupported what.now) }
{
    halted(Text::of(alloc, what))
}

/// What has this name isn't supported, if memory was there for the name.
pub fn halted(what: Result<Text, NoMemory>) -> Or<Halt>
    ensures { SaysNamed what result }
{
    match what {
        Ok(what) => Or::Other(Halt::Unsupported(what)),
        Err(NoMemory) => Or::Memory,
    }
}
