//! Fills end.

ghost use Rattle.std.specs.Prelude.{◌≡◌, [], true, None, length, is_some, is_ok, IfOk, OnOk, OnErr, IfErr};
ghost use Rattle.qc_model.specs.declared.events.Event.TheVariants as event;
ghost use Rattle.qc_model.specs.Cache.{cache, entry_of};
ghost use Rattle.qc_model.specs.Licence.{MayGiveUp};
ghost use Rattle.qc_dir.specs.Directory.{entry_at};
ghost use Rattle.qc_turn.specs.Tasks.{listed_for};
ghost use Rattle.qc_turn.specs.Seats.{MayRelease, SameHolder, holder};
ghost use Rattle.qc_core.specs.Whole.{tasks_of};
ghost use Rattle.qc_core.specs.Calls.{ListsFill, StoresWhole, MayBeGone, IsInWant};
ghost use Rattle.qc_core.specs.TaskEnd.{rested};
ghost use Rattle.qc_core.specs.OvertakenFill.{WasOvertaken, IsOvertaken};
ghost use Rattle.qc_core.specs.FillEnd.{MayGiveUpFill, MayComplete, MayCut, cut_to, EndsFill, EndsBy, IsDone, IsGone};

use crate::overtaken_fill::overtaken;
use crate::reserved_blocks::ReservedBlocks;
use crate::server::Server;
use crate::server_state::ServerState;
use crate::task_end::reap_task;
use qc_chain::ChainName;
use qc_model::events::{Event, GoneWhy};
use qc_turn::Held;

impl ServerState {
    /// Takes the entry out that the seat fills, and the fill, and pushes the event that it is gone.
    fn give_up(&mut self, seat: u32, serial: u64, why: GoneWhy) -> u64
        requires { MayGiveUpFill seat serial why self.old }
        ensures number { result ≡ length self.new.journal.events }
        ensures ends { (u : MayGiveUpFill seat serial why self.old) → EndsFill (event.Gone serial why) seat u.words self.old self.new }
        ensures gone { IsGone seat serial why self.old self.new }
    {
        self.drop_entry(serial, &mut ReservedBlocks::none(self.alloc));
        self.rest(seat);
        self.push(Event::Gone { serial, why })
    }

    /// Completes the entry that the seat fills, with so many bytes, and takes the fill out. Its chain is unpinned, and cut to the words that the bytes use.
    fn complete(&mut self, seat: u32, serial: u64, bytes: u32) -> u64
        requires { MayComplete seat serial bytes self.old }
        ensures number { result ≡ length self.new.journal.events }
        ensures ends { (u : MayComplete seat serial bytes self.old) → EndsFill (event.Done serial) seat u.words self.old self.new }
        ensures done { IsDone seat serial bytes self.old self.new }
    {
        let Some(ended) = self.take_task(seat) else {
            unreachable!()
        };
        self.cut_chain(ended.chain, bytes);
        self.dir.complete(serial);
        self.push(Event::Done { serial })
    }

    /// Unpins a chain, and cuts it to so many bytes.
    fn cut_chain(&mut self, chain: ChainName, bytes: u32)
        requires { MayCut chain.number bytes self.old }
        ensures { self.new ≡ cut_to chain.number bytes self.old }
    {
        self.unpinner.unpin(&self.chains, chain, &mut self.tiles);
        self.chains.trim_last(chain, bytes, &mut self.tiles);
    }
}

impl Server {
    /// Whether an entry is there.
    pub(crate) fn has_entry(&self, serial: u64) -> bool
        ensures { result ≡ is_some (entry_at serial self.now.dir.entries) }
    {
        self.entry(serial).is_some()
    }

    /// The same of what is in the box.
    fn give_up(&mut self, seat: u32, serial: u64, why: GoneWhy) -> u64
        requires { MayGiveUpFill seat serial why self.old }
        ensures number { result ≡ length self.new.journal.events }
        ensures ends { (u : MayGiveUpFill seat serial why self.old) → EndsFill (event.Gone serial why) seat u.words self.old self.new }
        ensures gone { IsGone seat serial why self.old self.new }
    {
        self.parts.give_up(seat, serial, why)
    }

    /// The same of what is in the box.
    fn complete(&mut self, seat: u32, serial: u64, bytes: u32) -> u64
        requires { MayComplete seat serial bytes self.old }
        ensures number { result ≡ length self.new.journal.events }
        ensures ends { (u : MayComplete seat serial bytes self.old) → EndsFill (event.Done serial) seat u.words self.old self.new }
        ensures done { IsDone seat serial bytes self.old self.new }
    {
        self.parts.complete(seat, serial, bytes)
    }

    /// The number of the event that overtook the fill of an entry.
    fn overtaken(&self, serial: u64) -> u64
        requires { WasOvertaken self.now.journal.events serial }
        ensures { IsOvertaken self.now.journal.events serial result }
    {
        overtaken(self.journal(), serial)
    }
}

/// Completes the entry that the seat fills, which is the most recently used one then, and answers the number of its event. The chain is unpinned, and cut to
/// the words that the bytes use. Where the entry has left, it answers the number of the event that
/// overtook the fill: the first commit on one of its tables, or reset, after its start. After either the seat has no task. It takes no memory. Costs the
/// blocks of the chain, and, where the entry has left, the events since its start.
pub fn done(held: &mut Held<'_, Server>, serial: u64, bytes: u32) -> Result<u64, u64>
    requires stands { MayRelease held.old }
    requires fills { ListsFill serial held.old }
    requires stored { StoresWhole serial bytes held.old }
    ensures stands { MayRelease held.new × SameHolder held.old held.new }
    ensures there { is_ok result ≡ is_some (entry_of serial (cache held.old.value.journal.events)) }
    ensures ok { IfOk result (λ place. (place ≡ length held.new.value.journal.events) × EndsBy (event.Done serial) held.old.value held.new.value × IsDone (holder held.old).number serial bytes held.old.value held.new.value) }
    ensures err { IfErr result (λ by. IsOvertaken held.old.value.journal.events serial by × (held.new.value ≡ rested (holder held.old).number held.old.value)) }
    ensures rests { listed_for (holder held.old).number (tasks_of held.new.value) ≡ [] }
    ensures ranges { held.new.ranges ≡ held.old.ranges }
{
    if held.value().has_entry(serial) {
        return Ok(end_done(held, serial, bytes));
    }
    Err(end_overtaken(held, serial))
}

/// The same where the entry is there.
fn end_done(held: &mut Held<'_, Server>, serial: u64, bytes: u32) -> u64
    requires stands { MayRelease held.old }
    requires fills { ListsFill serial held.old }
    requires there { is_some (entry_at serial held.old.value.dir.entries) ≡ true }
    requires stored { StoresWhole serial bytes held.old }
    ensures stands { MayRelease held.new × SameHolder held.old held.new }
    ensures number { result ≡ length held.new.value.journal.events }
    ensures ends { EndsBy (event.Done serial) held.old.value held.new.value }
    ensures done { IsDone (holder held.old).number serial bytes held.old.value held.new.value }
    ensures rests { listed_for (holder held.old).number (tasks_of held.new.value) ≡ [] }
    ensures ranges { held.new.ranges ≡ held.old.ranges }
{
    let seat = held.number();
    held.value().complete(seat, serial, bytes)
}

/// Gives up the fill of an entry, and answers the number of its event. Where the entry has left, it answers the number of the event that overtook the
/// fill: the first commit on one of its tables, or reset, after its start. After either the seat has no task. It takes no memory. Costs what the entry
/// holds, or, where it has left, the blocks of its chain and the events since its start.
pub fn gone(held: &mut Held<'_, Server>, serial: u64, why: GoneWhy) -> Result<u64, u64>
    requires stands { MayRelease held.old }
    requires fills { ListsFill serial held.old }
    requires licensed { MayBeGone serial why held.old.value }
    requires room { IsInWant (holder held.old).number serial why held.old.value }
    ensures stands { MayRelease held.new × SameHolder held.old held.new }
    ensures there { is_ok result ≡ is_some (entry_of serial (cache held.old.value.journal.events)) }
    ensures ok { IfOk result (λ place. (place ≡ length held.new.value.journal.events) × EndsBy (event.Gone serial why) held.old.value held.new.value) }
    ensures gone { OnOk result (IsGone (holder held.old).number serial why held.old.value held.new.value) }
    ensures err { IfErr result (λ by. IsOvertaken held.old.value.journal.events serial by × (held.new.value ≡ rested (holder held.old).number held.old.value)) }
    ensures rests { listed_for (holder held.old).number (tasks_of held.new.value) ≡ [] }
    ensures ranges { held.new.ranges ≡ held.old.ranges }
{
    if held.value().has_entry(serial) {
        return Ok(end_given_up(held, serial, why));
    }
    Err(end_overtaken(held, serial))
}

/// The same where the entry is there.
fn end_given_up(held: &mut Held<'_, Server>, serial: u64, why: GoneWhy) -> u64
    requires stands { MayRelease held.old }
    requires fills { ListsFill serial held.old }
    requires there { is_some (entry_at serial held.old.value.dir.entries) ≡ true }
    requires licensed { MayGiveUp held.old.value.options held.old.value.journal.events serial why }
    ensures stands { MayRelease held.new × SameHolder held.old held.new }
    ensures number { result ≡ length held.new.value.journal.events }
    ensures ends { EndsBy (event.Gone serial why) held.old.value held.new.value }
    ensures gone { IsGone (holder held.old).number serial why held.old.value held.new.value }
    ensures rests { listed_for (holder held.old).number (tasks_of held.new.value) ≡ [] }
    ensures ranges { held.new.ranges ≡ held.old.ranges }
{
    let seat = held.number();
    held.value().give_up(seat, serial, why)
}

/// The fill ends whose entry has left.
pub(crate) fn end_overtaken(held: &mut Held<'_, Server>, serial: u64) -> u64
    requires stands { MayRelease held.old }
    requires fills { ListsFill serial held.old }
    requires left { entry_at serial held.old.value.dir.entries ≡ None }
    ensures stands { MayRelease held.new × SameHolder held.old held.new }
    ensures overtaken { IsOvertaken held.old.value.journal.events serial result }
    ensures struck { held.new.value ≡ rested (holder held.old).number held.old.value }
    ensures rests { listed_for (holder held.old).number (tasks_of held.new.value) ≡ [] }
    ensures ranges { held.new.ranges ≡ held.old.ranges }
{
    let by = held.value().overtaken(serial);
    reap_task(held);
    by
}
