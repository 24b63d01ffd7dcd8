//! Room in the journal.

ghost use Rattle.std.specs.Prelude.{◌≡◌, ◌+◌, ◌≤◌, [], length, OnOk};
ghost use Rattle.qc_dir.specs.Directory.{incomplete};
ghost use Rattle.qc_turn.specs.Tasks.{listed_for};
ghost use Rattle.qc_turn.specs.Seats.{MayRelease, SameHolder, holder};
ghost use Rattle.qc_core.specs.Whole.{tasks_of};
ghost use Rattle.qc_core.specs.Calls.{HasSpare, HasMoreRoom, Rests};
ghost use Rattle.qc_core.specs.TaskEnd.{rested};

use crate::server::Server;
use crate::task_end::reap_own_stream;
use qc_turn::Held;
use qc_types::NoMemory;

impl Server {
    /// Makes room in the journal for an event, beside one for each entry and one more for each that isn't complete.
    fn reserve_events(&mut self) -> Result<(), NoMemory>
        requires { (length self.old.dir.entries ≤ 65536) × (incomplete self.old.dir.entries ≤ 65536) }
        ensures same { HasMoreRoom self.old self.new }
        ensures room { OnOk result (length self.old.dir.entries + incomplete self.old.dir.entries + 1 ≤ self.new.journal.spare) }
    {
        let events = self.parts.dir.len() + self.parts.dir.incomplete() + 1;
        self.parts.journal.reserve(events)
    }
}

/// Makes room in the journal for one deciding event, beside one for each entry and one more for each fill that is under way.
fn make_room(held: &mut Held<'_, Server>) -> Result<(), NoMemory>
    requires stands { MayRelease held.old }
    ensures stands { MayRelease held.new × SameHolder held.old held.new }
    ensures same { HasMoreRoom held.old.value held.new.value }
    ensures room { OnOk result (HasSpare held.new.value) }
    ensures ranges { held.new.ranges ≡ held.old.ranges }
{
    held.value().reserve_events()
}

/// Makes room in the journal for one deciding event, beside one for each entry and one more for each fill that is under way. Before that the seat's own
/// stream, which has ended, is struck off where it is listed still, so that nothing is listed for the seat afterwards. Where memory lacks, that was
/// done, and there may be more room. Costs the blocks of that stream, and what `Journal::reserve` costs.
pub fn reserve(held: &mut Held<'_, Server>) -> Result<(), NoMemory>
    requires stands { MayRelease held.old }
    requires rests { Rests held.old }
    ensures stands { MayRelease held.new × SameHolder held.old held.new }
    ensures same { HasMoreRoom (rested (holder held.old).number held.old.value) held.new.value }
    ensures rests { listed_for (holder held.old).number (tasks_of held.new.value) ≡ [] }
    ensures room { OnOk result (HasSpare held.new.value) }
    ensures ranges { held.new.ranges ≡ held.old.ranges }
{
    reap_own_stream(held);
    make_room(held)
}
