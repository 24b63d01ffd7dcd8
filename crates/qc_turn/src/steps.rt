//! What each step on the table tells its seat. `specs/Steps.antt` has them in words.

use crate::kept::Kept;
use crate::view::View;
use atomic_table::{Join, Play, Split};
use std::marker::{Brand, PhantomData};

/// The compare-exchange of the turn word.
pub(crate) struct TakesTurn;

impl<V: Kept> Play<Option<V>, View<V, V::Event>> for TakesTurn {
    ghost use Rattle.qc_turn.specs.Steps.{takes_turn};

    ghost then = { takes_turn V.Kept };
}

/// The same by a seat that asks once.
pub(crate) struct TriesTurn;

impl<V: Kept> Play<Option<V>, View<V, V::Event>> for TriesTurn {
    ghost use Rattle.qc_turn.specs.Steps.{tries_turn};

    ghost then = { tries_turn V.Kept };
}

/// The store of 0 into the turn word.
pub(crate) struct ReleasesTurn;

impl<V: Kept> Play<Option<V>, View<V, V::Event>> for ReleasesTurn {
    ghost use Rattle.qc_turn.specs.Steps.{releases_turn};

    ghost then = { releases_turn V.Kept };
}

/// The holder's load of a word of the region.
pub(crate) struct LoadsWord;

impl<V: Kept> Play<Option<V>, View<V, V::Event>> for LoadsWord {
    ghost use Rattle.qc_turn.specs.Steps.{loads_word};

    ghost then = { loads_word V.Kept };
}

/// The holder's store of a word of the region.
pub(crate) struct StoresWord;

impl<V: Kept> Play<Option<V>, View<V, V::Event>> for StoresWord {
    ghost use Rattle.qc_turn.specs.Steps.{stores_word};

    ghost then = { stores_word V.Kept };
}

/// The load of a word by a seat that streams.
pub(crate) struct LoadsStreamed;

impl<V: Kept> Play<Option<V>, View<V, V::Event>> for LoadsStreamed {
    ghost use Rattle.qc_turn.specs.Steps.{loads_streamed};

    ghost then = { loads_streamed V.Kept };
}

/// Which index a store into a fill is of, and how many bytes the fill then has. Each call picks them.
pub trait Filling {
    ghost use Rattle.std.specs.Prelude.{ℕ};

    ghost index: { ℕ };

    ghost count: { ℕ };
}

impl Filling for Brand {
    ghost index = { 0 };

    ghost count = { 0 };
}

/// The store of a word by a seat that fills.
pub(crate) struct StoresFilled<N> {
    marker: PhantomData<N>,
}

impl<V: Kept, N: Filling> Play<Option<V>, View<V, V::Event>> for StoresFilled<N> {
    ghost use Rattle.qc_turn.specs.Steps.{stores_filled};

    ghost then = { stores_filled V.Kept N.index N.count };
}

/// The holder's store of 1 into its own task word.
pub(crate) struct SetsTaskWord;

impl<V: Kept> Play<Option<V>, View<V, V::Event>> for SetsTaskWord {
    ghost use Rattle.qc_turn.specs.Steps.{sets_task_word};

    ghost then = { sets_task_word V.Kept };
}

/// A seat's store of 0 into its own task word.
pub(crate) struct ClearsTaskWord;

impl<V: Kept> Play<Option<V>, View<V, V::Event>> for ClearsTaskWord {
    ghost use Rattle.qc_turn.specs.Steps.{clears_task_word};

    ghost then = { clears_task_word V.Kept };
}

/// The holder's load of a task word.
pub(crate) struct ReadsTaskWord;

impl<V: Kept> Play<Option<V>, View<V, V::Event>> for ReadsTaskWord {
    ghost use Rattle.qc_turn.specs.Steps.{reads_task_word};

    ghost then = { reads_task_word V.Kept };
}

/// How seats are made and met.
pub(crate) struct Seating;

impl<V, E> Split<View<V, E>> for Seating {
    ghost use Rattle.qc_turn.specs.Views.{after_split, next_seat};

    ghost left = { after_split };

    ghost right = { next_seat };
}

impl<V, E> Join<View<V, E>> for Seating {
    ghost use Rattle.qc_turn.specs.Views.{after_meet, spent};

    ghost both = { after_meet };

    ghost spent = { spent };
}
