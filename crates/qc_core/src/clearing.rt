//! All entries leave.

ghost use Rattle.std.specs.Prelude.{◌≡◌, ◌≤◌, length};
ghost use Rattle.qc_turn.specs.Seats.{MayRelease, SameHolder};
ghost use Rattle.qc_core.specs.Whole.{tasks_of};
ghost use Rattle.qc_core.specs.Calls.{IsNext, HasSpare};
ghost use Rattle.qc_core.specs.EntriesCut.{HasSoundBlocks};
ghost use Rattle.qc_core.specs.Clearing.{IsEmptied, IsReset};

use crate::reserved_blocks::ReservedBlocks;
use crate::server::Server;
use crate::server_state::ServerState;
use qc_model::events::{Event, Who};
use qc_turn::Held;

impl ServerState {
    /// Takes all entries out, complete or not.
    fn drop_all(&mut self)
        requires { HasSoundBlocks self.old }
        ensures { IsEmptied self.old self.new }
    {
        while let Some(serial) = self.dir.oldest() {
            self.drop_entry(serial, &mut ReservedBlocks::none(self.alloc));
        }
    }

    /// The same, and pushes the event that says so. Answers its number.
    fn reset(&mut self, who: Who) -> u64
        requires blocks { HasSoundBlocks self.old }
        requires room { 1 ≤ self.old.journal.spare }
        ensures number { result ≡ length self.new.journal.events }
        ensures reset { IsReset who self.old self.new }
    {
        self.drop_all();
        self.push(Event::Reset { who })
    }
}

impl Server {
    /// The same of what is in the box.
    fn reset(&mut self, who: Who) -> u64
        requires blocks { HasSoundBlocks self.old }
        requires room { 1 ≤ self.old.journal.spare }
        ensures number { result ≡ length self.new.journal.events }
        ensures reset { IsReset who self.old self.new }
    {
        self.parts.reset(who)
    }
}

/// RESET QUERY CACHE, as in MySQL's "Query Cache Status and Maintenance": takes all entries out, complete or not, pushes the event, and answers its number. The
/// blocks of their texts and of all tables are given back, and each chain that no task is on; what a seat streams or fills stays where it is. It takes no
/// memory, and costs what the entries hold.
pub fn reset(held: &mut Held<'_, Server>, who: Who) -> u64
    requires stands { MayRelease held.old }
    requires next { IsNext held.old who }
    requires room { HasSpare held.old.value }
    ensures stands { MayRelease held.new × SameHolder held.old held.new }
    ensures number { result ≡ length held.new.value.journal.events }
    ensures reset { IsReset who held.old.value held.new.value }
    ensures listed { tasks_of held.new.value ≡ tasks_of held.old.value }
    ensures ranges { held.new.ranges ≡ held.old.ranges }
{
    held.value().reset(who)
}
