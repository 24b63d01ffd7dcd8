//! A server begins.

ghost use Rattle.std.specs.Prelude.{◌≡◌, ◌≤◌, ◌/◌, ◌%◌, [], IfOk};
ghost use Rattle.qc_tiles.specs.Tiles.{IsTiling, fresh};
ghost use Rattle.qc_chain.specs.Chains.{no_chains};
ghost use Rattle.qc_turn.specs.Releases.{IsFresh};

use crate::chain_pins::Unpinner;
use crate::connection::LAST_SEAT;
use crate::reserved_list::ReservedList;
use crate::server::Server;
use crate::server_state::ServerState;
use qc_chain::Chains;
use qc_dir::Dir;
use qc_journal::Journal;
use qc_table::Database;
use qc_tiles::Tiles;
use qc_turn::Kept;
use qc_types::{NoMemory, Options};
use std::alloc::Global;

/// The directory, the chains and the blocks of a region.
#[derive(Drop)]
struct Memory {
    dir: Dir,
    chains: Chains,
    tiles: Tiles,
    unpinner: Unpinner,
}

/// The memory of a region of so many words, with nothing in it.
fn empty_memory(alloc: Global, words: u32) -> Result<Memory, NoMemory>
    requires { (words % 128 ≡ 0) × (words ≤ 8388608) }
    ensures dir { IfOk result (λ m. m.dir ≡ record { entries = []; tables = []; room = words / 128; table_room = words / 64 }) }
    ensures chains { IfOk result (λ m. m.chains ≡ no_chains (words / 64)) }
    ensures unpinner { IfOk result (λ m. m.unpinner ≡ words / 64) }
    ensures tiles { IfOk result (λ m. (m.tiles ≡ fresh words) × IsTiling words m.tiles) }
{
    let unpinner = Unpinner::new(alloc, words / 64)?;
    let tiles = Tiles::new(alloc, words)?;
    let chains = Chains::new(alloc, words / 64)?;
    let dir = Dir::new(alloc, words)?;
    Ok(Memory {
        dir,
        chains,
        tiles,
        unpinner,
    })
}

/// Puts the parts into a box.
fn boxed(alloc: Global, parts: ServerState) -> Result<Server, NoMemory>
    ensures { IfOk result (λ s. s ≡ parts) }
{
    Ok(Server {
        parts: Box::new(alloc, parts)?,
    })
}

impl Server {
    /// A server with these options, as in MySQL's "Query Cache Configuration", and nothing else: no event, no database, no session and no entry. Takes the
    /// memory of the directory, of the chains and of the tables of blocks, whose cost is linear in the size. The one error is want of memory.
    pub fn new(alloc: Global, options: Options) -> Result<Server, NoMemory>
        requires size { (options.size % 1024 ≡ 0) × (options.size ≤ 67108864) }
        requires unit { (options.unit % 8 ≡ 0) × (512 ≤ options.unit) × (options.unit ≤ 1048576) }
        ensures fresh { IfOk result (λ s. IsFresh ⟦<Server as Kept>⟧ (options.size / 8) s) }
        ensures options { IfOk result (λ s. s.options ≡ options) }
    {
        let connected = ReservedList::new(alloc, LAST_SEAT)?;
        let tasks = ReservedList::new(alloc, LAST_SEAT)?;
        let journal = Journal::new(alloc);
        let database = Database::empty(alloc)?;
        let Memory {
            dir,
            chains,
            tiles,
            unpinner,
        } = empty_memory(alloc, options.size / 8)?;
        boxed(
            alloc,
            ServerState {
                options,
                journal,
                database,
                dir,
                chains,
                tiles,
                connected,
                tasks,
                unpinner,
                alloc,
            },
        )
    }
}
