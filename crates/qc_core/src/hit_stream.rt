//! An entry is used by a seat.

ghost use Rattle.std.specs.Prelude.{◌≡◌, ◌*◌, ◌≤◌, ◌<◌, ◌∷◌, length, Contains, Some};
ghost use Rattle.qc_model.specs.declared.events.Event.TheVariants as event;
ghost use Rattle.qc_model.specs.declared.events.How.TheVariants as how;
ghost use Rattle.qc_model.specs.Licence.{IsComplete};
ghost use Rattle.qc_chain.specs.Words.{words_of};
ghost use Rattle.qc_chain.specs.Chains.{IsFit};
ghost use Rattle.qc_dir.specs.Directory.{IsDirectory};
ghost use Rattle.qc_turn.specs.declared.task.Task.TheVariants as task;
ghost use Rattle.qc_turn.specs.Tasks.{listed_for, own};
ghost use Rattle.qc_turn.specs.Seats.{MayRelease, SameHolder, holder};
ghost use Rattle.qc_core.specs.Whole.{tasks_of};
ghost use Rattle.qc_core.specs.Calls.{IsNext, HasSpare};
ghost use Rattle.qc_core.specs.HitStream.{MayUse, used_by, IsChainOf, hit_server};

use crate::chain_pins::pin_all;
use crate::server::Server;
use crate::server_state::{RunningTask, ServerState};
use qc_chain::Ranges;
use qc_model::events::{Event, How, Who};
use qc_turn::{Held, Task};
use std::mem::replace;

/// A hit.
#[derive(Clone, Copy, Drop)]
pub struct Hit {
    /// The serial of the entry.
    pub serial: u64,
    /// The number of its event.
    pub place: u64,
    /// How many bytes the reply has.
    pub bytes: u32,
}

impl ServerState {
    /// The entry goes to the end, with one user more, and the seat streams it. The ranges are its chain.
    fn use_entry(&mut self, seat: u32, serial: u64, ranges: &mut Ranges)
        requires { MayUse serial self.old ranges.old.room }
        ensures server { (u : MayUse serial self.old ranges.old.room) → self.new ≡ used_by seat serial u.entry u.held self.old }
        ensures valid { IsDirectory self.new.dir }
        ensures ranges { (u : MayUse serial self.old ranges.old.room) → ranges.new ≡ record { blocks = u.held.blocks; bytes = u.held.bytes; room = ranges.old.room } }
        ensures fit { (u : MayUse serial self.old ranges.old.room) → IsFit u.held.blocks u.held.bytes }
    {
        let Some(entry) = self.dir.entry(serial) else {
            unreachable!()
        };
        let chain = entry.chain;
        self.chains.ranges(chain, ranges);
        pin_all(&mut self.tiles, ranges);
        self.dir.enter(serial);
        self.dir.touch(serial);
        self.tasks.push(RunningTask {
            seat,
            task: Task::Stream(serial),
            chain,
        });
    }
}

impl Server {
    /// The same of what is in the box.
    fn use_entry(&mut self, seat: u32, serial: u64, ranges: &mut Ranges)
        requires { MayUse serial self.old ranges.old.room }
        ensures server { (u : MayUse serial self.old ranges.old.room) → self.new ≡ used_by seat serial u.entry u.held self.old }
        ensures valid { IsDirectory self.new.dir }
        ensures ranges { (u : MayUse serial self.old ranges.old.room) → ranges.new ≡ record { blocks = u.held.blocks; bytes = u.held.bytes; room = ranges.old.room } }
        ensures fit { (u : MayUse serial self.old ranges.old.room) → IsFit u.held.blocks u.held.bytes }
    {
        self.parts.use_entry(seat, serial, ranges);
    }
}

/// The session hits an entry that is complete: the seat streams it from now on, and has its chain in hand.
pub(crate) fn stream_entry(held: &mut Held<'_, Server>, who: Who, serial: u64) -> Hit
    requires stands { MayRelease held.old }
    requires next { IsNext held.old who }
    requires room { HasSpare held.old.value }
    requires complete { IsComplete held.old.value.journal.events serial }
    requires ranges { held.old.value.options.size ≤ 512 * held.old.ranges.room }
    ensures stands { MayRelease held.new × SameHolder held.old held.new }
    ensures hit { (result.serial ≡ serial) × (result.place ≡ length held.new.value.journal.events) × (result.bytes ≡ held.new.ranges.bytes) }
    ensures server { held.new.value ≡ hit_server who serial (holder held.old).number held.old.value }
    ensures ranges { IsChainOf serial held.new.value held.new.ranges }
    ensures within { result.bytes ≤ 8 * words_of held.new.ranges.blocks }
    ensures listed { listed_for (holder held.old).number (tasks_of held.new.value) ≡ own (holder held.old).number (task.Stream serial) held.new.ranges.blocks }
    ensures same_room { held.new.ranges.room ≡ held.old.ranges.room }
{
    let seat = held.number();
    let alloc = held.value().alloc();
    let mut ranges = replace(held.ranges(), Ranges::empty(alloc));
    held.value().use_entry(seat, serial, &mut ranges);
    let bytes = ranges.bytes();
    *held.ranges() = ranges;
    let place = held.value().push(Event::Run {
        who,
        how: How::Hit(serial),
    });
    Hit {
        serial,
        place,
        bytes,
    }
}
