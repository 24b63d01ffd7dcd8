//! What can go wrong.

ghost use Rattle.std.specs.Prelude.{◌≡◌};
ghost use Rattle.qc_show.specs.declared.fault.Refusal.TheVariants as refusal;
ghost use Rattle.qc_show.specs.Refusals.{refused_report, refused_script};

use qc_model::reports::ScriptRefusal;
use qc_types::{NoMemory, Or};
use std::alloc::{AllocError, AllocFailed};
use std::io::{self, ErrorKind};
use thiserror::Error;

/// Why something was not shown whole. A prefix of it may be written.
#[derive(Clone, Copy, Debug, PartialEq, Eq)]
pub enum Fault {
    /// Memory ran out.
    Memory,
    /// The output failed.
    Output,
}

/// Why nothing is shown.
#[derive(Debug, Drop, Error)]
pub enum Refusal {
    /// The input is no report: its first bad line.
    #[error("report: bad line {0}")]
    Report(u32),
    /// The input is too long for a report.
    #[error("report: too long")]
    TooLong,
    /// The script is none.
    #[error("{0}")]
    Script(ScriptRefusal),
    /// It was begun and not ended, or not begun, for this fault.
    #[error("{0}")]
    Fault(Fault),
}

impl std::fmt::Display for Fault {
    fn fmt<W: std::fmt::Write>(&self, f: &mut std::fmt::Formatter<W>) -> std::fmt::Result {
        match self {
            Fault::Memory => write!(f, "no memory"),
            Fault::Output => write!(f, "write fault"),
        }
    }
}

impl From<io::Error> for Fault {
    fn from(error: io::Error) -> Fault {
        if error.kind() == ErrorKind::OutOfMemory {
            Fault::Memory
        } else {
            Fault::Output
        }
    }
}

impl From<NoMemory> for Fault {
    fn from(_error: NoMemory) -> Fault {
        Fault::Memory
    }
}

impl From<AllocError> for Fault {
    fn from(_error: AllocError) -> Fault {
        Fault::Memory
    }
}

impl<T: Drop> From<AllocFailed<T>> for Fault {
    fn from(_error: AllocFailed<T>) -> Fault {
        Fault::Memory
    }
}

impl From<Fault> for Refusal {
    ghost from_gives = { λ f e. e ≡ refusal.Fault f };

    fn from(fault: Fault) -> Refusal {
        Refusal::Fault(fault)
    }
}

impl From<Or<u32>> for Refusal {
    ghost from_gives = { λ unread e. e ≡ refused_report unread };

    fn from(unread: Or<u32>) -> Refusal {
        match unread {
            Or::Memory => Refusal::Fault(Fault::Memory),
            Or::Other(line) => Refusal::Report(line),
        }
    }
}

impl From<Or<ScriptRefusal>> for Refusal {
    ghost from_gives = { λ unread e. e ≡ refused_script unread };

    fn from(unread: Or<ScriptRefusal>) -> Refusal {
        match unread {
            Or::Memory => Refusal::Fault(Fault::Memory),
            Or::Other(refusal) => Refusal::Script(refusal),
        }
    }
}
