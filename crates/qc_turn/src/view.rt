//! What a seat knows, for contracts alone: no value of these types is made.

use crate::task::Task;
use qc_chain::Block;
use std::collections::LinkedList;

/// Whether a seat holds the turn.
pub enum Holding<V> {
    /// It doesn't.
    Free,
    /// It does: the value as it was taken, and the words as they are now.
    Holds(V, LinkedList<u64>),
}

/// What the first seat keeps of a seat that it met.
pub struct MetSeat<E> {
    /// The events of its session.
    pub events: LinkedList<E>,
    /// The journal that it had seen.
    pub seen: LinkedList<E>,
}

/// A task word that the holder read.
pub struct FoundWord {
    /// The number of the seat whose it is, from 1 to 65.
    pub seat: u32,
    /// Whether it was set.
    pub set: bool,
}

/// What a seat knows.
pub struct View<V, E> {
    /// The number of words of the region.
    pub size: u32,
    /// Its number, or 0 once it was met.
    pub number: u32,
    /// Of the first seat: for each seat made after it, in order, what it did, once it was met.
    pub registry: LinkedList<Option<MetSeat<E>>>,
    /// The journal when it last had the turn, or the longer one of a seat that it met.
    pub seen: LinkedList<E>,
    /// What no holding changes.
    pub fixed: LinkedList<u64>,
    /// The events of its session.
    pub events: LinkedList<E>,
    /// Whether it is connected.
    pub connected: bool,
    /// What it does outside of the turn.
    pub task: Task,
    /// The blocks of its task.
    pub blocks: LinkedList<Block>,
    /// The words of its stream, or the bytes so far of its fill.
    pub content: LinkedList<u64>,
    /// Whether it holds the turn, and what it knows then.
    pub holding: Holding<V>,
    /// Whether its own task word is set.
    pub word_set: bool,
    /// The task words that it read in this holding, the last one first.
    pub found: LinkedList<FoundWord>,
    /// The values that it took with the turn, the last one first.
    pub turns: LinkedList<V>,
    /// The numbers that it found in the turn word where it asked once in vain, the last one first.
    pub refusals: LinkedList<u32>,
}
