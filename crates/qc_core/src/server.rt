//! The value behind the turn.

ghost use Rattle.std.specs.Prelude.{◌≡◌, ℕ, ◌+◌, ◌≤◌, length, IfSome, IsSomeAnd};
ghost use Rattle.std.specs.Option.{option_copied};
ghost use Rattle.qc_dir.specs.Directory.{entry_at};
ghost use Rattle.qc_model.specs.Cache as meant;
ghost use Rattle.qc_model.specs.Journal.{event_count};
ghost use Rattle.qc_core.specs.Whole.{with_event, IsSomewhereSound};

use crate::server_state::ServerState;
use qc_dir::Entry;
use qc_journal::Journal;
use qc_model::events::{Counters, Event};
use qc_table::Database;
use qc_turn::Kept;
use qc_types::Options;
use std::alloc::Global;
use std::marker::Model;

/// The server, in a box, since the lock moves it at each take and each release. Contracts see what is in the box.
#[derive(Drop)]
pub struct Server {
    pub(crate) parts: Box<ServerState>,
}

impl Model for Server {
    ghost use Rattle.qc_core.specs.declared.server_state.ServerState.{ServerState};

    ghost Value = { ServerState };

    ghost view = { λ s. s.parts.value };
}

impl Kept for Server {
    ghost use Rattle.std.specs.Prelude.{[], ◌∷◌, option_map, ◌==◌};
    ghost use Rattle.std.specs.List.{list_any};
    ghost use Rattle.qc_model.specs.Journal.{decider};
    ghost use Rattle.qc_sound.specs.Sound.{FitsFill};
    ghost use Rattle.qc_core.specs.Whole.{Sound, tasks_of, free_of, taken_of};
    ghost use Rattle.qc_core.specs.KeptLaws as law;

    type Event = Event;

    ghost journal = { λ s. s.journal.events };

    ghost session = { λ e. option_map (λ who. who.session) (decider e) };

    ghost connected = { λ s n. list_any (λ m. m == n) s.connected.items };

    ghost tasks = { tasks_of };

    ghost free = { free_of };

    ghost taken = { taken_of };

    ghost fixed = { λ s. s.options.size ∷ s.options.limit ∷ s.options.unit ∷ s.options.kind ∷ [] };

    ghost sound = { Sound };

    ghost fits = { FitsFill };

    ghost within = { law.within };

    ghost fits_on = { law.fits_on };

    ghost fills_free = { law.fills_free };

    ghost fills_apart = { law.fills_apart };

    ghost tasks_apart = { law.tasks_apart };

    ghost once = { law.once };
}

impl Server {
    /// The journal.
    pub fn journal(&self) -> &Journal
        ensures { result.now ≡ self.now.journal }
    {
        &self.parts.journal
    }

    /// The options.
    pub fn options(&self) -> Options
        ensures { result ≡ self.now.options }
    {
        self.parts.options
    }

    /// The database that the journal makes.
    pub fn database(&self) -> &Database
        ensures { result.now ≡ self.now.database }
    {
        &self.parts.database
    }

    /// The counters of SHOW STATUS at this moment, as in MySQL's "Query Cache Status and Maintenance". Constant time.
    pub fn counters(&self) -> Counters
        requires sound { IsSomewhereSound self.now }
        ensures { result ≡ meant.counters self.now.journal.events }
    {
        self.parts.counters()
    }

    /// One more than the number of deciding events of a session. Constant time.
    pub fn next_number(&self, session: u8) -> u64
        ensures { result ≡ event_count self.now.journal.events session + 1 }
    {
        self.parts.journal.count(session) + 1
    }

    /// The entry with a serial, borrowed, if any: a removed one is none. Constant time, as far as serials spread over the directory's lists.
    pub fn entry(&self, serial: u64) -> Option<&Entry>
        ensures entry { option_copied result ≡ entry_at serial self.now.dir.entries }
    {
        self.parts.dir.entry(serial)
    }

    /// The least serial, from one on, of the entries under a hash, if any.
    pub(crate) fn candidate_from(&self, hash: u64, from: u64) -> Option<u64>
        ensures some { IfSome result (λ n. (from ≤ n) × IsSomeAnd (entry_at n self.now.dir.entries) (λ e. e.hash ≡ hash)) }
        ensures least { (n : ℕ) → from ≤ n → IsSomeAnd (entry_at n self.now.dir.entries) (λ e. e.hash ≡ hash) → IsSomeAnd result (λ k. k ≤ n) }
    {
        self.parts.dir.candidate_from(hash, from)
    }

    /// The allocator.
    pub(crate) fn alloc(&self) -> Global {
        self.parts.alloc
    }

    /// Adds an event at the end of the journal, and answers its number.
    pub(crate) fn push(&mut self, event: Event) -> u64
        requires { 1 ≤ self.old.journal.spare }
        ensures number { result ≡ length self.new.journal.events }
        ensures pushed { self.new ≡ with_event event self.old }
    {
        self.parts.push(event)
    }
}
