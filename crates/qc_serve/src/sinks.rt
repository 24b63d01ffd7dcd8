//! Where replies go, and who may hold a session up.

ghost use Rattle.std.specs.Prelude.{◌≡◌, ◌≤◌, ℕ, List};
ghost use Rattle.std.specs.declared.option.Option.{Option};
ghost use Rattle.qc_types.specs.Streams.{Rose};
ghost use Rattle.qc_turn.specs.Seats.{view};
ghost use Rattle.qc_serve.specs.Sent.{PutsPiece};

use qc_core::Server;
use qc_turn::{Seat, Task};
use qc_types::{NoMemory, OwnedList, PutStep, Text};
use std::alloc::Global;
use std::marker::Model;

/// A piece of a reply as a sink in memory keeps it.
#[derive(Drop)]
pub struct Piece {
    /// Its bytes.
    pub bytes: Text,
    /// The task that the seat had at its put.
    pub task: Task,
}

/// What went to a sink, in order.
pub type Pieces = OwnedList<Piece>;

/// Where the replies of a session go, piece by piece. A later put may succeed where an earlier one failed. No session holds the turn while it puts: the seat
/// is lent.
pub trait ReplySink {
    ghost use Rattle.qc_serve.specs.declared.sinks.Piece.{Piece};

    /// The pieces that it holds, each with the task that the seat had at its put, for contracts, where the sink tells them.
    ghost held: { Self → Option (List Piece) };

    /// How often it has failed, for contracts, up to the end of 64 bits.
    ghost faults: { Self → ℕ };

    /// Puts the piece behind what the sink holds.
    fn put(&mut self, at: &Seat<Server>, piece: &[u8]) -> PutStep
        ensures pieces { PutsPiece result (held self.old) (held self.new) piece.now (view at.now).task }
        ensures later { faults self.old ≤ faults self.new }
        ensures failed { result ≡ PutStep.Failed → Rose (faults self.old) (faults self.new) };
}

/// A sink in memory, for tests and for trials of faults. It keeps the pieces that it is given and fails at the calls that it is told.
#[derive(Drop)]
pub struct Replies {
    pieces: Pieces,
    failing: Vec<u64>,
    calls: u64,
    faults: u64,
    alloc: Global,
}

impl Model for Replies {
    ghost use Rattle.qc_serve.specs.Sent.{KeptReplies};

    ghost Value = { KeptReplies };

    ghost view = { λ s. record { held = s.pieces; failing = s.failing.items; calls = s.calls; faults = s.faults } };
}

impl Replies {
    ghost use Rattle.std.specs.Prelude.{[], ◌∷◌, ◌++◌, OnOk, OnErr};
    ghost use Rattle.qc_serve.specs.Sent.{KeptReplies, piece};

    /// An empty sink. The calls of `failing` fail, by their numbers from 1, and keep nothing. Each put looks through `failing`.
    pub fn new(alloc: Global, failing: Vec<u64>) -> Replies
        ensures { result ≡ record { held = []; failing = failing.items; calls = 0; faults = 0 } }
    {
        Replies {
            pieces: Pieces::new(alloc),
            failing,
            calls: 0,
            faults: 0,
            alloc,
        }
    }

    /// The pieces that it was given, borrowed, but for those of the calls that failed.
    pub fn pieces(&self) -> &Pieces
        ensures { result.now ≡ self.now.held }
    {
        &self.pieces
    }

    /// Keeps a piece. Where memory lacks, nothing is kept.
    fn keep(&mut self, bytes: &[u8], task: Task) -> Result<(), NoMemory>
        ensures ok { OnOk result (self.new ≡ record self.old { held = self.old.held ++ piece bytes.now task ∷ [] }) }
        ensures err { OnErr result (self.new ≡ self.old) }
    {
        let bytes = Text::of(self.alloc, bytes)?;
        self.pieces.push(Piece { bytes, task })
    }
}

impl ReplySink for Replies {
    ghost use Rattle.std.specs.Prelude.{if◌then◌else◌};
    ghost use Rattle.qc_types.specs.Feed.{counted, fails_next};
    ghost use Rattle.qc_types.specs.Streams.{is_put_failed};
    ghost use Rattle.qc_serve.specs.Sent.{kept_after};

    ghost held = { λ s. Option.Some s.held };

    ghost faults = { λ s. s.faults };

    fn put(&mut self, at: &Seat<Server>, piece: &[u8]) -> PutStep
        ensures pieces { PutsPiece result (Option.Some self.old.held) (Option.Some self.new.held) piece.now (view at.now).task }
        ensures later { self.old.faults ≤ self.new.faults }
        ensures failed { result ≡ PutStep.Failed → Rose self.old.faults self.new.faults }
        ensures exactly { is_put_failed result ≡ fails_next self.old.failing self.old.calls }
        ensures count { self.new.faults ≡ (if fails_next self.old.failing self.old.calls then counted self.old.faults else self.old.faults) }
        ensures calls { self.new.calls ≡ counted self.old.calls }
        ensures kept { self.new.held ≡ kept_after result self.old.held piece.now (view at.now).task }
        ensures same { self.new.failing ≡ self.old.failing }
    {
        self.calls = self.calls.saturating_add(1);
        if self.failing.contains(&self.calls) {
            self.faults = self.faults.saturating_add(1);
            return PutStep::Failed;
        }
        match self.keep(piece, at.task()) {
            Ok(()) => PutStep::Done,
            Err(_) => PutStep::Memory,
        }
    }
}

/// A moment at which a gate is passed.
#[derive(Clone, Copy, Debug, PartialEq, Eq)]
pub enum Moment {
    /// Before the command with this number, from 1.
    Before(u64),
    /// Between two pieces of its reply.
    Between(u64),
}

/// What a session passes before each command, and after each piece of a reply but the last. It returns; a gate may hold a session up by a bounded loop.
pub trait Gate {
    /// The session passes.
    fn pass(&self, at: &Seat<Server>, session: u8, moment: Moment);
}

/// A gate that holds nobody up.
pub struct Ungated;

impl Gate for Ungated {
    fn pass(&self, _at: &Seat<Server>, _session: u8, _moment: Moment) {}
}
