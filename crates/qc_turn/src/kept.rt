//! What a value means beside the words.

ghost use Rattle.std.specs.Prelude.{◌≡◌, ℕ, ◌<◌, List, Option, Bool};

/// What a value means beside the words of the region. A type that stands behind the turn says it, and owes the laws.
pub trait Kept {
    ghost use Rattle.std.specs.Prelude.{◌≡◌, ◌≢◌, ℕ, ◌+◌, ◌<◌, List, Option, Bool, length, slice_index};
    ghost use Rattle.qc_tiles.specs.declared.blocks.Block.{Block};
    ghost use Rattle.qc_turn.specs.declared.task.ListedTask.{ListedTask};
    ghost use Rattle.qc_turn.specs.Blocks.{places, Misses, IsDistinct};
    ghost use Rattle.qc_turn.specs.Tasks.{listed_for, places_of, fill_places};
    ghost use Rattle.qc_turn.specs.Words.{StartsWith};

    /// What happened, as the journal lists it.
    type Event;

    /// The events, oldest first.
    ghost journal: { Self → List Self.Event };

    /// The session that an event names, or none. The session of a seat is its number less 1.
    ghost session: { Self.Event → Option ℕ };

    /// Whether the seat with this number is connected.
    ghost connected: { Self → ℕ → Bool };

    /// The tasks that it lists.
    ghost tasks: { Self → List ListedTask };

    /// The free blocks.
    ghost free: { Self → List Block };

    /// The blocks that are handed out and in no listed task.
    ghost taken: { Self → List Block };

    /// What no holding changes.
    ghost fixed: { Self → List ℕ };

    /// The value may stand free over these words.
    ghost sound: { List ℕ → Self → Type 0 };

    /// By this journal, these bytes may stand in the blocks of the fill with this serial.
    ghost fits: { List Self.Event → ℕ → List ℕ → Type 0 };

    /// The words of a listed task lie within the words.
    ghost within: { (words : List ℕ) (v : Self) (n k : ℕ) → sound words v → k < length (places_of (listed_for n (tasks v))) → slice_index (places_of (listed_for n (tasks v))) k < length words };

    /// What fits still does so by the longer journal of a sound value.
    ghost fits_on: { (words over : List ℕ) (v w : Self) (serial : ℕ) (bytes : List ℕ) → sound words v → sound over w → StartsWith (journal w) (journal v) → fits (journal v) serial bytes → fits (journal w) serial bytes };

    /// A value stays sound over words that differ only inside its fills.
    ghost fills_free: { (words over : List ℕ) (v : Self) → sound words v → length over ≡ length words → ((k : ℕ) → ((n : ℕ) → Misses k (fill_places (listed_for n (tasks v)))) → slice_index over k ≡ slice_index words k) → sound over v };

    /// A word of a fill is in no task of another seat.
    ghost fills_apart: { (words : List ℕ) (v : Self) (n m k : ℕ) → sound words v → n ≢ m → (Misses k (fill_places (listed_for n (tasks v))) → ⊥) → Misses k (places_of (listed_for m (tasks v))) };

    /// A word of a listed task is in no free block and in no other block that is handed out.
    ghost tasks_apart: { (words : List ℕ) (v : Self) (n k : ℕ) → sound words v → (Misses k (places_of (listed_for n (tasks v))) → ⊥) → Misses k (places (free v)) × Misses k (places (taken v)) };

    /// A task has each word once.
    ghost once: { (words : List ℕ) (v : Self) (n : ℕ) → sound words v → IsDistinct (places_of (listed_for n (tasks v))) };
}
