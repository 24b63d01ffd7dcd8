//! The streams are struck off that other seats have ended.

ghost use Rattle.std.specs.Prelude.{◌≡◌, ◌<◌, List, length, slice_get};
ghost use Rattle.qc_turn.specs.declared.view.FoundWord.{FoundWord};
ghost use Rattle.qc_turn.specs.Seats.{MayRelease, holder, words};
ghost use Rattle.qc_core.specs.EndedStreams.{ReadsStreams, ReadsAt, Finds, IsSwept, stream_seat};

use crate::server::Server;
use qc_turn::{Held, Task};

impl Server {
    /// How many tasks are listed.
    fn count_tasks(&self) -> usize
        ensures { result ≡ length self.now.tasks.items }
    {
        self.parts.tasks.items().len()
    }

    /// The seat whose task stands at a place of the list, where that is a stream.
    fn stream_at(&self, index: usize) -> Option<u32>
        requires { index < length self.now.tasks.items }
        ensures { result ≡ stream_seat (slice_get self.now.tasks.items index) }
    {
        let running = &self.parts.tasks.items()[index];
        match running.task {
            Task::Stream(_) => Some(running.seat),
            Task::Rest | Task::Fill(_) => None,
        }
    }
}

/// Reads the task words of the other seats whose streams are listed, and strikes those streams off that have ended. It walks the list of tasks once, from
/// its end, so that a task that is taken out moves none that is still to be looked at.
pub(crate) fn reap_ended_streams(held: &mut Held<'_, Server>)
    requires stands { MayRelease held.old }
    ensures stands { MayRelease held.new }
    ensures words { words held.new ≡ words held.old }
    ensures swept { (found : List FoundWord) × Finds held.old held.new found × IsSwept (holder held.old).number held.old.value held.new.value found × ReadsStreams (holder held.old).number held.old.value found }
{
    let mut index = held.value().count_tasks();
    while index > 0 {
        index -= 1;
        check_task(held, index);
    }
}

/// The same of the task at one place of the list.
fn check_task(held: &mut Held<'_, Server>, index: usize)
    requires stands { MayRelease held.old }
    requires within { index < length held.old.value.tasks.items }
    ensures stands { MayRelease held.new }
    ensures words { words held.new ≡ words held.old }
    ensures swept { (found : List FoundWord) × Finds held.old held.new found × IsSwept (holder held.old).number held.old.value held.new.value found × ReadsAt (holder held.old).number index held.old.value held.new.value found }
{
    let Some(seat) = held.value().stream_at(index) else {
        return;
    };
    if seat == held.number() {
        return;
    }
    if held.streams(seat) {
        return;
    }
    held.value().rest(seat);
}
