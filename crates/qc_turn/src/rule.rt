//! The rule of the table that the turn stands on. Its words are the turn word, the region and the task words; its one slot has the value.

use crate::kept::Kept;
use crate::view::View;
use atomic_table::TableRule;
use std::marker::PhantomData;
use std::snapshot::Snapshot;

/// What the table is told when it is made.
#[derive(Drop)]
pub struct Start<V> {
    /// The value that is put behind the turn.
    pub value: Snapshot<V>,
    /// The number of words of the region.
    pub size: u32,
}

/// The rule of the turn, `TurnRule` in `specs/Rules.antt`.
pub struct Rule<V> {
    marker: PhantomData<V>,
}

impl<V: Kept> TableRule<Option<V>, View<V, V::Event>, Start<V>> for Rule<V> {
    ghost use Rattle.qc_turn.specs.Rules.{TurnRule};
    ghost use Rattle.qc_turn.specs.Views.{first_seat};

    ghost holds = { λ key. TurnRule V.Kept key.size };

    ghost first = { λ key. first_seat key.size (V.fixed key.value.value) };
}
