//! A value that keeps a journal. Word 0 of its region is how many entries that has.

ghost use Rattle.std.specs.Prelude.{◌≡◌, ℕ, ◌+◌, ◌-◌, ◌^◌, ◌<◌, List, [], ◌∷◌, ◌++◌, length, OnOk, OnErr};
ghost use Rattle.qc_turn.specs.Seats.{MayRelease, SameHolder, holder};

use crate::lock::entry::Entry;
use qc_turn::{Held, Kept};
use std::alloc::{AllocError, Global};

/// The words of a log's region.
pub const LOG_WORDS: u32 = 4;

/// A list of entries.
#[derive(Drop)]
pub struct Log {
    entries: Vec<Entry>,
}

impl Kept for Log {
    ghost use Rattle.std.specs.Prelude.{[], Some, false};
    ghost use Rattle.std.proofs.Common.{arith, ◌∙◌};
    ghost use Rattle.qc_memory_tests.specs.Logs.{IsCounted};

    type Event = Entry;

    ghost journal = { λ log. log.entries.items };

    ghost session = { λ entry. Some entry.session };

    ghost connected = { λ log n. false };

    ghost tasks = { λ log. [] };

    ghost free = { λ log. [] };

    ghost taken = { λ log. [] };

    ghost fixed = { λ log. [] };

    ghost sound = { λ words log. IsCounted words log.entries.items };

    ghost fits = { λ journal serial bytes. ⊥ };

    ghost within = { λ words v n k s h. absurd (Prim.omega arith) };

    ghost fits_on = { λ words over v w serial bytes s t j h. h };

    ghost fills_free = { λ words over v s e h. (e ∙ s.0, h 0 (λ n. tt) ∙ s.1) };

    ghost fills_apart = { λ words v n m k s ne h. tt };

    ghost tasks_apart = { λ words v n k s h. (tt, tt) };

    ghost once = { λ words v n s. tt };
}

impl Log {
    /// No entries.
    pub fn new(alloc: Global) -> Log
        ensures { result.entries.items ≡ [] }
    {
        Log {
            entries: Vec::new(alloc),
        }
    }

    /// How many entries there are.
    pub fn len(&self) -> usize
        ensures { result ≡ length self.now.entries.items }
    {
        self.entries.len()
    }

    /// The numbers of the entries, added up.
    pub fn sum(&self) -> u64 {
        let mut sum = 0u64;
        for entry in &self.entries {
            sum = sum.wrapping_add(entry.number);
        }
        sum
    }
}

/// Adds an entry of the seat that holds the turn.
pub fn push(held: &mut Held<'_, Log>, number: u64) -> Result<(), AllocError>
    requires may { MayRelease held.old }
    requires room { length held.old.value.entries.items < 2 ^ 32 }
    ensures may { MayRelease held.new × SameHolder held.old held.new }
    ensures ok { OnOk result (held.new.value.entries.items ≡ held.old.value.entries.items ++ record { session = (holder held.old).number - 1; number = number } ∷ []) }
    ensures err { OnErr result (held.new.value.entries.items ≡ held.old.value.entries.items) }
{
    let session = held.number() - 1;
    let count = held.load(0);
    held.value().entries.push(Entry { session, number })?;
    held.store(0, count + 1);
    Ok(())
}
