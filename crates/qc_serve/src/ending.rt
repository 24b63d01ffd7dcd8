//! A session ends.

ghost use Rattle.std.specs.Prelude.{◌≡◌};

use qc_model::reports::Ending;
use qc_types::NoMemory;

/// Why a session has ended.
#[derive(Clone, Copy, Debug, PartialEq, Eq)]
pub enum End {
    /// By COM_QUIT.
    Quit,
    /// Its input ended behind a whole packet.
    EndOfInput,
    /// Its input ended in a packet of which so many bytes stand there.
    Cut(u32),
    /// A packet's payload would have so many bytes, more than one may have.
    TooLong(u32),
    /// A packet has another sequence number than is wanted.
    BadSequence {
        /// The number that it has.
        found: u8,
        /// The number that is wanted.
        wanted: u8,
    },
    /// A read of its input failed.
    ReadFault,
    /// A put of a reply failed.
    WriteFault,
    /// Memory ran out.
    Memory,
}

impl From<NoMemory> for End {
    ghost use Rattle.qc_serve.specs.declared.ending.End.TheVariants as end;

    ghost from_gives = { λ _ e. e ≡ end.Memory };

    fn from(_error: NoMemory) -> End {
        End::Memory
    }
}

impl End {
    ghost use Rattle.qc_serve.specs.Served.{ending_at};

    /// How the input ends, where the session ended with it: not where a read or a put failed, or memory lacked.
    pub fn ending(self) -> Option<Ending>
        ensures { result ≡ ending_at self }
    {
        match self {
            End::Quit => Some(Ending::Quit),
            End::EndOfInput => Some(Ending::Input),
            End::Cut(count) => Some(Ending::Cut(count)),
            End::TooLong(length) => Some(Ending::TooLong(length)),
            End::BadSequence { found, wanted } => Some(Ending::BadSequence { found, wanted }),
            End::ReadFault | End::WriteFault | End::Memory => None,
        }
    }
}
