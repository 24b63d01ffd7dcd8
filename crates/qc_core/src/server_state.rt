//! What the server is made of.

ghost use Rattle.std.specs.Prelude.{◌≡◌, ◌≤◌, length};
ghost use Rattle.qc_model.specs.Cache as meant;
ghost use Rattle.qc_core.specs.Whole.{with_event, IsSomewhereSound};

use crate::chain_pins::Unpinner;
use crate::reserved_list::ReservedList;
use qc_chain::{ChainName, Chains};
use qc_dir::Dir;
use qc_journal::Journal;
use qc_model::events::{Counters, Event};
use qc_table::Database;
use qc_tiles::Tiles;
use qc_turn::Task;
use qc_types::Options;
use std::alloc::Global;

/// What a seat does while it doesn't hold the turn.
#[derive(Clone, Copy, Drop)]
pub struct RunningTask {
    /// The number of the seat, from 1 to 65.
    pub seat: u32,
    /// A stream or a fill.
    pub task: Task,
    /// The chain of the entry that is streamed or filled.
    pub chain: ChainName,
}

/// The journal, the database, and the cache with its blocks.
#[derive(Drop)]
pub struct ServerState {
    pub(crate) options: Options,
    pub(crate) journal: Journal,
    pub(crate) database: Database,
    pub(crate) dir: Dir,
    pub(crate) chains: Chains,
    pub(crate) tiles: Tiles,
    /// The numbers of the seats that are connected.
    pub(crate) connected: ReservedList<u32>,
    pub(crate) tasks: ReservedList<RunningTask>,
    pub(crate) unpinner: Unpinner,
    pub(crate) alloc: Global,
}

impl ServerState {
    /// The counters of SHOW STATUS.
    pub(crate) fn counters(&self) -> Counters
        requires sound { IsSomewhereSound self.now }
        ensures { result ≡ meant.counters self.now.journal.events }
    {
        let entries = self.dir.len();
        self.journal.counters(u64::from(entries))
    }

    /// Adds an event at the end of the journal, and answers its number.
    pub(crate) fn push(&mut self, event: Event) -> u64
        requires { 1 ≤ self.old.journal.spare }
        ensures number { result ≡ length self.new.journal.events }
        ensures pushed { self.new ≡ with_event event self.old }
    {
        self.journal.push(event)
    }
}
