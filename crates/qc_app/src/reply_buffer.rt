//! A sink in memory whose pieces stand together.

ghost use Rattle.std.specs.Prelude.{◌≡◌, ◌++◌, ◌∷◌, [], IfOk, OnOk, OnErr};
ghost use Rattle.qc_serve.specs.Sent.{bytes_of, piece as put_at};
ghost use Rattle.qc_app.specs.ReplyBuffer.{pieces_of};

use qc_core::Server;
use qc_serve::ReplySink;
use qc_turn::{Seat, Task};
use qc_types::{NoMemory, PutStep, Text};
use std::alloc::Global;
use std::marker::Model;

/// How many bytes a piece has, and the task that the seat had at its put.
#[derive(Clone, Copy, Drop)]
pub(crate) struct PieceEnd {
    pub(crate) bytes: usize,
    pub(crate) task: Task,
}

/// The pieces of one reply, one behind another, in memory that it keeps for the next one.
#[derive(Drop)]
pub(crate) struct ReplyBuffer {
    bytes: Vec<u8>,
    cuts: Vec<PieceEnd>,
}

impl Model for ReplyBuffer {
    ghost use Rattle.std.specs.Prelude.{List};
    ghost use Rattle.qc_serve.specs.declared.sinks.Piece.{Piece};
    ghost use Rattle.qc_app.specs.ReplyBuffer.{AreCuts, pieces_of};

    ghost Value = { List Piece };

    ghost view = { λ j. pieces_of j.bytes.items j.cuts.items };

    ghost invariant = { λ j. AreCuts j.bytes.items j.cuts.items };
}

impl ReplyBuffer {
    /// No pieces. Takes no memory yet.
    pub(crate) fn new(alloc: Global) -> ReplyBuffer
        ensures { result ≡ [] }
    {
        ReplyBuffer {
            bytes: Vec::new(alloc),
            cuts: Vec::new(alloc),
        }
    }

    /// Takes the pieces out. Constant time.
    pub(crate) fn clear(&mut self)
        ensures { self.new ≡ [] }
    {
        self.bytes.clear();
        self.cuts.clear();
    }

    /// The bytes of the pieces, in memory of their own. Linear in their number.
    #[tactic(auto, using(crate::proofs::Joining::bytes_are))]
    pub(crate) fn reply(&self, alloc: Global) -> Result<Text, NoMemory>
        ensures { IfOk result (λ t. t ≡ bytes_of self.now) }
    {
        Text::of(alloc, self.bytes.as_slice())
    }

    /// Puts a piece behind the others. Where memory lacks, nothing changes.
    #[tactic(auto, using(crate::proofs::Joining::pieces_more, crate::proofs::Joining::cuts_more))]
    fn join(&mut self, bytes: &[u8], task: Task) -> Result<(), NoMemory>
        ensures ok { OnOk result (self.new ≡ self.old ++ put_at bytes.now task ∷ []) }
        ensures err { OnErr result (self.new ≡ self.old) }
    {
        self.cuts.reserve(1)?;
        self.bytes.extend_from_slice(bytes)?;
        self.cuts.push_reserved(PieceEnd {
            bytes: bytes.len(),
            task,
        });
        Ok(())
    }
}

impl ReplySink for ReplyBuffer {
    ghost use Rattle.std.specs.declared.option.Option.{Option};

    ghost held = { λ j. Option.Some j };

    ghost faults = { λ j. 0 };

    fn put(&mut self, at: &Seat<Server>, piece: &[u8]) -> PutStep {
        match self.join(piece, at.task()) {
            Ok(()) => PutStep::Done,
            Err(NoMemory) => PutStep::Memory,
        }
    }
}
