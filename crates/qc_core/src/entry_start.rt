//! Entries begin.

ghost use Rattle.std.specs.Prelude.{◌≡◌, ◌+◌, ◌*◌, ◌^◌, ◌<◌, ◌≤◌, List, [], ◌∷◌, ◌++◌, length, IsPermutation, IfOk, OnOk, OnErr};
ghost use Rattle.std.specs.Result.{IfErr};
ghost use Rattle.qc_model.specs.declared.events.Event.TheVariants as event;
ghost use Rattle.qc_model.specs.declared.events.How.TheVariants as how;
ghost use Rattle.qc_model.specs.declared.events.Reason.TheVariants as reason;
ghost use Rattle.qc_model.specs.Choice.{start_count};
ghost use Rattle.qc_dir.specs.Directory.{incomplete};
ghost use Rattle.qc_turn.specs.declared.task.Task.TheVariants as task;
ghost use Rattle.qc_turn.specs.Tasks.{listed_for, own};
ghost use Rattle.qc_turn.specs.Seats.{MayRelease, SameHolder, holder, with_ranges};
ghost use Rattle.qc_turn.specs.declared.view.FoundWord.{FoundWord};
ghost use Rattle.qc_core.specs.declared.server_state.ServerState.{ServerState};
ghost use Rattle.qc_core.specs.Whole.{tasks_of, with_event, IsSomewhereSound};
ghost use Rattle.qc_core.specs.Calls.{IsNext, HasMoreRoom};
ghost use Rattle.qc_core.specs.EndedStreams.{swept, ReadsStreams, Finds};
ghost use Rattle.qc_core.specs.EntryStart.{MayBegin, HasStartRoom, AddsFill, IsBegun, begun_tasks, needs_for};
ghost use Rattle.qc_core.specs.Allocation.{MayTake, next_of, TakesAll, Stops};
ghost use Rattle.qc_core.specs.EntryInsertion.{IsReady, MayAdd, IsAdded, HoldsBlocks, HoldsText, HoldsNothing};

use crate::ended_streams::reap_ended_streams;
use crate::key_text::store_text;
use crate::reserved_blocks::ReservedBlocks;
use crate::server::Server;
use crate::server_state::{RunningTask, ServerState};
use crate::start_blocks::Taken;
use qc_chain::Ranges;
use qc_dir::Entry;
use qc_key::hash;
use qc_model::events::{Event, How, Reason, Who};
use qc_tiles::NoTile;
use qc_turn::{Held, Task};
use qc_types::{NoMemory, Tables, Text};
use std::alloc::Global;
use std::mem::replace;

/// An entry that was begun.
#[derive(Clone, Copy, Debug, PartialEq, Eq)]
pub struct Started {
    /// Its serial.
    pub serial: u64,
    /// The number of its event.
    pub place: u64,
}

/// What came of a start.
#[derive(Clone, Copy, Debug, PartialEq, Eq)]
pub enum Begun {
    /// The entry was begun, and the seat fills it.
    Started(Started),
    /// The SELECT runs plain, by the event with this number: no free block has the words that were needed, and no complete entry without users was left
    /// to prune.
    NoRoom {
        /// The words that were needed.
        need: u32,
        /// The words of the largest free block, or 0 where there was none.
        largest: u32,
        /// The number of the event.
        place: u64,
    },
}

/// What a start has made ready before it changes anything: the serial of its entry, the names of its tables, and those of them that have no block.
#[derive(Drop)]
struct Ready {
    serial: u64,
    hand: ReservedBlocks,
    missing: Tables,
}

impl ServerState {
    /// Puts in an entry that isn't complete, with a chain of one block, and lists its fill for the seat. The ranges are the chain.
    fn add_entry(
        &mut self,
        seat: u32,
        serial: u64,
        key: &[u8],
        hand: ReservedBlocks,
        taken: Taken,
        ranges: &mut Ranges,
    )
        requires may { MayAdd serial hand taken self.old ranges.old.room }
        requires short { length key.now < 2 ^ 32 }
        ensures added { IsAdded seat serial key.now hand taken self.old self.new }
        ensures ranges { ranges.new ≡ record { blocks = taken.first ∷ []; bytes = 8 * taken.first.words; room = ranges.old.room } }
    {
        let chain = self.chains.begin();
        self.append(chain, taken.first, ranges);
        let ReservedBlocks { tables, fresh } = hand;
        let entry = Entry {
            serial,
            hash: hash(key),
            text: taken.text,
            text_bytes: key.len() as u32,
            tables,
            chain,
            complete: false,
            users: 0,
        };
        self.dir.insert(entry, fresh);
        self.tasks.push(RunningTask {
            seat,
            task: Task::Fill(serial),
            chain,
        });
    }

    /// The serial of the next entry.
    fn next_serial(&self) -> u64
        requires { IsSomewhereSound self.now }
        ensures { result ≡ start_count self.now.journal.events + 1 }
    {
        let begun = self.counters().inserts;
        let events = self.journal.len();
        prove!(begun <= events);
        begun + 1
    }

    /// What a start on these tables makes ready.
    fn make_ready(&self, alloc: Global, tables: &Tables) -> Result<Ready, NoMemory>
        requires { IsSomewhereSound self.now }
        ensures { IfOk result (λ ready. IsReady tables.now self.now ready) }
    {
        let missing = self.without_block(alloc, tables.items())?;
        let named = tables.copy(alloc)?;
        Ok(Ready {
            serial: self.next_serial(),
            hand: ReservedBlocks::new(named),
            missing,
        })
    }
}

impl Server {
    /// The same of what is in the box.
    fn make_ready(&self, alloc: Global, tables: &Tables) -> Result<Ready, NoMemory>
        requires { IsSomewhereSound self.now }
        ensures { IfOk result (λ ready. IsReady tables.now self.now ready) }
    {
        self.parts.make_ready(alloc, tables)
    }

    /// The same of what is in the box.
    fn add_entry(
        &mut self,
        seat: u32,
        serial: u64,
        key: &[u8],
        hand: ReservedBlocks,
        taken: Taken,
        ranges: &mut Ranges,
    )
        requires may { MayAdd serial hand taken self.old ranges.old.room }
        requires short { length key.now < 2 ^ 32 }
        ensures added { IsAdded seat serial key.now hand taken self.old self.new }
        ensures ranges { ranges.new ≡ record { blocks = taken.first ∷ []; bytes = 8 * taken.first.words; room = ranges.old.room } }
    {
        self.parts.add_entry(seat, serial, key, hand, taken, ranges);
    }

    /// The same of what is in the box.
    fn take_blocks(
        &mut self,
        hand: &mut ReservedBlocks,
        missing: Tables,
        bytes: usize,
    ) -> Result<Taken, NoTile>
        requires { MayTake missing bytes hand.old self.old }
        ensures ok { (u : MayTake missing bytes hand.old self.old) → IfOk result (λ taken. TakesAll (next_of missing bytes hand.old self.old u) u.words missing bytes hand.old hand.new self.old taken self.new) }
        ensures err { (u : MayTake missing bytes hand.old self.old) → IfErr result (λ e. Stops hand.old.tables (next_of missing bytes hand.old self.old u) u.words (needs_for self.old.options missing bytes) [] self.old self.new e) }
    {
        self.parts.take_blocks(hand, missing, bytes)
    }

    /// Makes room in the journal for the event of a start and the two of its entry, beside those that other entries may still have.
    fn reserve_start(&mut self) -> Result<(), NoMemory>
        requires { (length self.old.dir.entries ≤ 65536) × (incomplete self.old.dir.entries ≤ 65536) }
        ensures same { HasMoreRoom self.old self.new }
        ensures room { OnOk result (length self.old.dir.entries + incomplete self.old.dir.entries + 3 ≤ self.new.journal.spare) }
    {
        let events = self.parts.dir.len() + self.parts.dir.incomplete() + 3;
        self.parts.journal.reserve(events)
    }
}

/// Begins the entry of a SELECT: it gets a block for each of its tables that has none, the first block of its chain, of a unit, and last a block for its
/// key, which is stored there; the seat fills it from now on, and has the first block of the chain in hand. The streams that other seats have ended are
/// struck off before. Before a block is taken that no free one holds, the least recently used entries that are complete and without users are pruned, one
/// after another. Where none is left, all blocks are given back, and the SELECT runs plain for want of room; what was pruned stays so. A block of one of its
/// tables is kept for it when the last entry that names the table is pruned. All memory is taken first: where it lacks, there may be more room in the
/// journal, and nothing else changed. Linear in the key, and in the blocks of the entries that are pruned.
pub fn start(
    held: &mut Held<'_, Server>,
    alloc: Global,
    who: Who,
    key: Text,
    tables: Tables,
) -> Result<Begun, NoMemory>
    requires stands { MayRelease held.old }
    requires next { IsNext held.old who }
    requires may { MayBegin key tables held.old.value }
    requires ranges { held.old.value.options.size ≤ 512 * held.old.ranges.room }
    ensures stands { MayRelease held.new }
    ensures memory { OnErr result (SameHolder held.old held.new × HasMoreRoom held.old.value held.new.value × (held.new.ranges ≡ held.old.ranges)) }
    ensures begun { IfOk result (λ b. (found : List FoundWord) × (s : ServerState) × Finds held.old (with_ranges held.new held.old.ranges) found × HasMoreRoom held.old.value s × ReadsStreams (holder held.old).number s found
        × IsBegun (holder held.old).number who key tables (swept found s) held.new.value held.old.ranges held.new.ranges b) }
    ensures listed { IfOk result (λ b. listed_for (holder held.old).number (tasks_of held.new.value) ≡ begun_tasks (holder held.old).number held.new.ranges b) }
{
    let ready = held.value().make_ready(alloc, &tables)?;
    make_start_room(held)?;
    Ok(begin_swept(held, who, key, tables, ready))
}

/// The start with all memory taken.
fn begin_swept(
    held: &mut Held<'_, Server>,
    who: Who,
    key: Text,
    tables: Tables,
    ready: Ready,
) -> Begun
    requires stands { MayRelease held.old }
    requires next { IsNext held.old who }
    requires may { MayBegin key tables held.old.value }
    requires ranges { held.old.value.options.size ≤ 512 * held.old.ranges.room }
    requires room { HasStartRoom held.old.value }
    requires ready { IsReady tables held.old.value ready }
    ensures stands { MayRelease held.new }
    ensures begun { (found : List FoundWord) × Finds held.old (with_ranges held.new held.old.ranges) found × ReadsStreams (holder held.old).number held.old.value found
        × IsBegun (holder held.old).number who key tables (swept found held.old.value) held.new.value held.old.ranges held.new.ranges result }
    ensures listed { listed_for (holder held.old).number (tasks_of held.new.value) ≡ begun_tasks (holder held.old).number held.new.ranges result }
{
    reap_ended_streams(held);
    begin(held, who, key, tables, ready)
}

/// Makes room in the journal for the event of a start and the two of its entry, beside those that other entries may still have.
fn make_start_room(held: &mut Held<'_, Server>) -> Result<(), NoMemory>
    requires stands { MayRelease held.old }
    ensures stands { MayRelease held.new × SameHolder held.old held.new }
    ensures same { HasMoreRoom held.old.value held.new.value }
    ensures room { OnOk result (HasStartRoom held.new.value) }
    ensures ranges { held.new.ranges ≡ held.old.ranges }
{
    held.value().reserve_start()
}

/// The same with the streams as they are listed.
fn begin(held: &mut Held<'_, Server>, who: Who, key: Text, tables: Tables, ready: Ready) -> Begun
    requires stands { MayRelease held.old }
    requires next { IsNext held.old who }
    requires may { MayBegin key tables held.old.value }
    requires ranges { held.old.value.options.size ≤ 512 * held.old.ranges.room }
    requires room { HasStartRoom held.old.value }
    requires ready { IsReady tables held.old.value ready }
    ensures stands { MayRelease held.new × SameHolder held.old held.new }
    ensures begun { IsBegun (holder held.old).number who key tables held.old.value held.new.value held.old.ranges held.new.ranges result }
    ensures listed { listed_for (holder held.old).number (tasks_of held.new.value) ≡ begun_tasks (holder held.old).number held.new.ranges result }
{
    let Ready {
        serial,
        mut hand,
        missing,
    } = ready;
    let bytes = key.bytes().len();
    match held.value().take_blocks(&mut hand, missing, bytes) {
        Ok(taken) => Begun::Started(finish(held, who, serial, key, tables, hand, taken)),
        Err(none) => Begun::NoRoom {
            need: none.need,
            largest: none.largest,
            place: run_without_room(held, who, none),
        },
    }
}

/// The start with all its blocks: the key is stored, the entry put in, and the event pushed.
fn finish(
    held: &mut Held<'_, Server>,
    who: Who,
    serial: u64,
    key: Text,
    tables: Tables,
    hand: ReservedBlocks,
    taken: Taken,
) -> Started
    requires { HoldsBlocks who serial key tables hand taken held.old }
    ensures stands { MayRelease held.new × SameHolder held.old held.new }
    ensures serial { result.serial ≡ serial }
    ensures place { result.place ≡ length held.new.value.journal.events }
    ensures adds { AddsFill (holder held.old).number serial key tables taken.first taken.text held.old.value held.new.value }
    ensures blocks { IsPermutation held.new.value.dir.tables (hand.fresh ++ held.old.value.dir.tables) }
    ensures events { held.new.value.journal.events ≡ held.old.value.journal.events ++ event.Run who (how.Start serial key tables) ∷ [] }
    ensures ranges { held.new.ranges ≡ record { blocks = taken.first ∷ []; bytes = 8 * taken.first.words; room = held.old.ranges.room } }
    ensures listed { listed_for (holder held.old).number (tasks_of held.new.value) ≡ own (holder held.old).number (task.Fill serial) (taken.first ∷ []) }
{
    store_text(held, taken.text, key.bytes());
    let place = put_in(held, who, serial, key, tables, hand, taken);
    Started { serial, place }
}

/// The entry is put in, and the event pushed.
fn put_in(
    held: &mut Held<'_, Server>,
    who: Who,
    serial: u64,
    key: Text,
    tables: Tables,
    hand: ReservedBlocks,
    taken: Taken,
) -> u64
    requires { HoldsText who serial key tables hand taken held.old }
    ensures stands { MayRelease held.new × SameHolder held.old held.new }
    ensures place { result ≡ length held.new.value.journal.events }
    ensures adds { AddsFill (holder held.old).number serial key tables taken.first taken.text held.old.value held.new.value }
    ensures blocks { IsPermutation held.new.value.dir.tables (hand.fresh ++ held.old.value.dir.tables) }
    ensures events { held.new.value.journal.events ≡ held.old.value.journal.events ++ event.Run who (how.Start serial key tables) ∷ [] }
    ensures ranges { held.new.ranges ≡ record { blocks = taken.first ∷ []; bytes = 8 * taken.first.words; room = held.old.ranges.room } }
    ensures listed { listed_for (holder held.old).number (tasks_of held.new.value) ≡ own (holder held.old).number (task.Fill serial) (taken.first ∷ []) }
{
    let seat = held.number();
    let alloc = held.value().alloc();
    let mut ranges = replace(held.ranges(), Ranges::empty(alloc));
    held.value()
        .add_entry(seat, serial, key.bytes(), hand, taken, &mut ranges);
    *held.ranges() = ranges;
    held.value().push(Event::Run {
        who,
        how: How::Start {
            serial,
            key,
            tables,
        },
    })
}

/// The event is pushed that a SELECT runs plain for want of room.
fn run_without_room(held: &mut Held<'_, Server>, who: Who, none: NoTile) -> u64
    requires { HoldsNothing who none held.old }
    ensures stands { MayRelease held.new × SameHolder held.old held.new }
    ensures place { result ≡ length held.new.value.journal.events }
    ensures pushed { held.new.value ≡ with_event (event.Run who (how.Plain (reason.NoRoom none.need none.largest))) held.old.value }
    ensures ranges { held.new.ranges ≡ held.old.ranges }
    ensures listed { listed_for (holder held.old).number (tasks_of held.new.value) ≡ [] }
{
    held.value().push(Event::Run {
        who,
        how: How::Plain(Reason::NoRoom {
            need: none.need,
            largest: none.largest,
        }),
    })
}
