//! Reads an input to its end, or until it is too long for a script.

ghost use Rattle.std.specs.Prelude.{◌≡◌, ◌≤◌, IfOk, Err};
ghost use Rattle.qc_types.specs.Streams.{Rose};
ghost use Rattle.qc_app.specs.declared.reading.Unread.TheVariants.{Memory};
ghost use Rattle.qc_app.specs.Reading.{ReadsEnough};

use qc_types::{ReadStep, Source};
use std::alloc::{AllocError, Global};

const MOST_SCRIPT: usize = 67_108_864;

const PIECE: usize = 16_384;

/// Why an input was not read.
#[derive(Clone, Copy, Debug, PartialEq, Eq)]
pub enum Unread {
    /// A read failed.
    Failed,
    /// Memory ran out.
    Memory,
}

impl From<AllocError> for Unread {
    ghost from_gives = { λ _ e. e ≡ Memory };

    fn from(_error: AllocError) -> Unread {
        Unread::Memory
    }
}

/// The bytes of an input, or a prefix of them that is longer than a script may be. Each turn takes a byte at least; the cost is linear.
pub fn read_input<S: Source>(alloc: Global, input: &mut S) -> Result<Vec<u8>, Unread>
    ensures bytes { IfOk result (λ bytes. ReadsEnough (S.left input.old) (S.left input.new) bytes.items) }
    ensures later { S.faults input.old ≤ S.faults input.new }
    ensures failed { result ≡ Err Unread.Failed → Rose (S.faults input.old) (S.faults input.new) }
{
    let mut bytes = Vec::new(alloc);
    let mut piece = [0u8; PIECE];
    while bytes.len() <= MOST_SCRIPT {
        match input.read(&mut piece) {
            ReadStep::Got(count) => bytes.extend_from_slice(&piece[..count])?,
            ReadStep::End => return Ok(bytes),
            ReadStep::Failed => return Err(Unread::Failed),
        }
    }
    Ok(bytes)
}
