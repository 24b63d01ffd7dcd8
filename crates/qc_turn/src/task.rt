//! What a seat may do without the turn.

ghost use Rattle.std.specs.Prelude.{◌≡◌};

use qc_chain::Block;
use std::collections::LinkedList;

/// What a seat does outside the turn. The number is the serial of what it streams or fills, which the value gives a meaning.
#[derive(Clone, Copy, Debug, Drop)]
pub enum Task {
    /// Nothing.
    Rest,
    /// Reads the words of its blocks.
    Stream(u64),
    /// Writes the words of its blocks.
    Fill(u64),
}

impl Task {
    ghost use Rattle.qc_turn.specs.Tasks.{is_stream};

    /// Whether it is a stream.
    pub(crate) fn is_stream(self) -> bool
        ensures { result ≡ is_stream self }
    {
        matches!(self, Task::Stream(_))
    }
}

/// A task that a value lists, for contracts alone: no value of it is made.
pub struct ListedTask {
    /// The number of the seat.
    pub number: u32,
    /// What the seat does outside of the turn.
    pub task: Task,
    /// The blocks of the task, in their order.
    pub blocks: LinkedList<Block>,
}
