//! Tasks are struck off that end without an event.

ghost use Rattle.std.specs.Prelude.{◌≡◌, ◌<◌, true, false, [], map, find, IfSome, IfNone, IsSomeAnd, is_some, slice_get};
ghost use Rattle.std.specs.List.{list_any};
ghost use Rattle.qc_laws.specs.history.Runs.{are_distinct};
ghost use Rattle.qc_dir.specs.Directory.{IsDirectory, entry_at, after_leave, with_entries};
ghost use Rattle.qc_turn.specs.Tasks.{listed_for};
ghost use Rattle.qc_sound.specs.PlainServer.{serial_of};
ghost use Rattle.qc_turn.specs.Seats.{MayRelease, SameHolder, holder};
ghost use Rattle.qc_core.specs.Whole.{tasks_of};
ghost use Rattle.qc_core.specs.Calls.{Rests};
ghost use Rattle.qc_core.specs.TaskEnd.{is_of, is_on, without_task_of, MayLetGo, let_go, MayEnd, after_end, MayRest, rested};

use crate::server::Server;
use crate::server_state::{RunningTask, ServerState};
use qc_chain::ChainName;
use qc_turn::{Held, Task};

impl ServerState {
    /// Strikes the task of a seat off, where it has one: a stream, or the fill of an entry that has left. An entry that was streamed has one user less. The
    /// chain is unpinned where no other task is on it, and goes where its entry has left as well.
    pub(crate) fn rest(&mut self, seat: u32)
        requires may { MayRest seat self.old }
        requires valid { IsDirectory self.old.dir }
        ensures rested { self.new ≡ rested seat self.old }
        ensures valid { IsDirectory self.new.dir }
    {
        let Some(ended) = self.take_task(seat) else {
            return;
        };
        let Some(serial) = serial_in(ended.task) else {
            unreachable!()
        };
        self.end_task(serial, ended.chain);
    }

    /// Takes the task of a seat out of the list, where it has one.
    pub(crate) fn take_task(&mut self, seat: u32) -> Option<RunningTask>
        requires { are_distinct (map (λ w. w.seat) self.old.tasks.items) ≡ true }
        ensures found { result ≡ find (is_of seat) self.old.tasks.items }
        ensures none { IfNone result (self.new ≡ self.old) }
        ensures some { IfSome result (λ w. self.new ≡ without_task_of seat self.old) }
    {
        let Some(index) = task_of(self.tasks.items(), seat) else {
            return None;
        };
        Some(self.tasks.remove(index))
    }

    /// What a task leaves that is out of the list.
    fn end_task(&mut self, serial: u64, chain: ChainName)
        requires { MayEnd serial chain.number self.old }
        ensures ended { self.new ≡ after_end serial chain.number self.old }
        ensures valid { IsDirectory self.new.dir }
    {
        let there = self.take_user(serial);
        if !is_on(self.tasks.items(), serial) {
            self.let_go(chain, there);
        }
    }

    /// One user less of the entry with a serial, where there is one, and whether there is.
    fn take_user(&mut self, serial: u64) -> bool
        requires { IfSome (entry_at serial self.old.dir.entries) (λ e. 0 < e.users) }
        ensures there { result ≡ is_some (entry_at serial self.old.dir.entries) }
        ensures dir { self.new ≡ record self.old { dir = with_entries (after_leave serial self.old.dir.entries) self.old.dir } }
        ensures valid { IsDirectory self.new.dir }
    {
        let Some(_) = self.dir.entry(serial) else {
            return false;
        };
        self.dir.leave(serial);
        true
    }

    /// Unpins a chain, and gives it back where its entry isn't there.
    pub(crate) fn let_go(&mut self, chain: ChainName, there: bool)
        requires { MayLetGo chain.number self.old }
        ensures { self.new ≡ let_go false there chain.number self.old }
    {
        self.unpinner.unpin(&self.chains, chain, &mut self.tiles);
        if !there {
            self.chains.release(chain, &mut self.tiles);
        }
    }
}

impl Server {
    /// The same of what is in the box.
    pub(crate) fn rest(&mut self, seat: u32)
        requires may { MayRest seat self.old }
        requires valid { IsDirectory self.old.dir }
        ensures rested { self.new ≡ rested seat self.old }
        ensures valid { IsDirectory self.new.dir }
    {
        self.parts.rest(seat);
    }
}

/// Strikes the seat's own task off, where it has one that ends without an event.
pub(crate) fn reap_task(held: &mut Held<'_, Server>)
    requires stands { MayRelease held.old }
    requires may { MayRest (holder held.old).number held.old.value }
    ensures stands { MayRelease held.new × SameHolder held.old held.new }
    ensures struck { held.new.value ≡ rested (holder held.old).number held.old.value }
    ensures rests { listed_for (holder held.old).number (tasks_of held.new.value) ≡ [] }
    ensures connected { held.new.value.connected ≡ held.old.value.connected }
    ensures ranges { held.new.ranges ≡ held.old.ranges }
{
    let seat = held.number();
    held.value().rest(seat);
}

/// Strikes the seat's own stream off, which has ended, where it is listed still.
pub(crate) fn reap_own_stream(held: &mut Held<'_, Server>)
    requires stands { MayRelease held.old }
    requires rests { Rests held.old }
    ensures stands { MayRelease held.new × SameHolder held.old held.new }
    ensures struck { held.new.value ≡ rested (holder held.old).number held.old.value }
    ensures rests { listed_for (holder held.old).number (tasks_of held.new.value) ≡ [] }
    ensures connected { held.new.value.connected ≡ held.old.value.connected }
    ensures ranges { held.new.ranges ≡ held.old.ranges }
{
    reap_task(held);
}

/// Where the task of a seat stands, if it has one.
fn task_of(tasks: &[RunningTask], seat: u32) -> Option<usize>
    ensures some { IfSome result (λ i. IsSomeAnd (slice_get tasks.now i) (λ w. w.seat ≡ seat)) }
    ensures none { IfNone result (list_any (is_of seat) tasks.now ≡ false) }
{
    let mut index = 0;
    for task in tasks {
        if task.seat == seat {
            return Some(index);
        }
        index += 1;
    }
    None
}

/// The serial of what is streamed or filled.
fn serial_in(task: Task) -> Option<u64>
    ensures { result ≡ serial_of task }
{
    match task {
        Task::Rest => None,
        Task::Stream(serial) | Task::Fill(serial) => Some(serial),
    }
}

/// Whether a task is on the entry with a serial.
pub(crate) fn is_on(tasks: &[RunningTask], serial: u64) -> bool
    ensures { result ≡ list_any (is_on serial) tasks.now }
{
    for task in tasks {
        if names(task, serial) {
            return true;
        }
    }
    false
}

/// Whether this task is on it.
fn names(task: &RunningTask, serial: u64) -> bool
    ensures { result ≡ is_on serial task.now }
{
    match task.task {
        Task::Rest => false,
        Task::Stream(found) | Task::Fill(found) => found == serial,
    }
}
