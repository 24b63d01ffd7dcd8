//! Blocks move down to lower places.

ghost use Rattle.std.specs.Prelude.{◌≡◌, ℕ, List, [], length, IfSome, IfNone};
ghost use Rattle.qc_model.specs.declared.events.Event.TheVariants as event;
ghost use Rattle.qc_tiles.specs.Tiles.{IsTiling, movable};
ghost use Rattle.qc_dir.specs.Directory.{IsDirectory};
ghost use Rattle.qc_turn.specs.Tasks.{listed_for};
ghost use Rattle.qc_turn.specs.declared.view.FoundWord.{FoundWord};
ghost use Rattle.qc_turn.specs.Seats.{MayRelease, SameHolder, holder};
ghost use Rattle.qc_core.specs.declared.server_state.ServerState.{ServerState};
ghost use Rattle.qc_core.specs.Whole.{with_event, tasks_of};
ghost use Rattle.qc_core.specs.Calls.{IsNext, HasSpare};
ghost use Rattle.qc_core.specs.EndedStreams.{swept, ReadsStreams, Finds};
ghost use Rattle.qc_core.specs.Compaction.{shifted_by, IsCompacted, MayCarry, HasCarried};

use crate::ended_streams::reap_ended_streams;
use crate::server::Server;
use crate::server_state::ServerState;
use qc_model::events::{Event, Who};
use qc_tiles::Move;
use qc_turn::Held;

impl ServerState {
    /// Moves the lowest block that is handed out, isn't pinned and has a free block just below it, down to the front of that, whatever it is for. None, with
    /// nothing changed, exactly where there is none. Its words are not moved.
    fn move_down(&mut self) -> Option<Move>
        requires valid { IsDirectory self.old.dir }
        requires tiling { (words : ℕ) × IsTiling words self.old.tiles }
        ensures change { result ≡ movable self.old.tiles }
        ensures none { IfNone result (self.new ≡ self.old) }
        ensures some { IfSome result (λ change. self.new ≡ shifted_by change self.old) }
        ensures valid { IsDirectory self.new.dir }
    {
        let change = self.tiles.move_down()?;
        self.chains.shift(change);
        self.dir.shift(change);
        Some(change)
    }
}

impl Server {
    /// The same of what is in the box.
    fn move_down(&mut self) -> Option<Move>
        requires valid { IsDirectory self.old.dir }
        requires tiling { (words : ℕ) × IsTiling words self.old.tiles }
        ensures change { result ≡ movable self.old.tiles }
        ensures none { IfNone result (self.new ≡ self.old) }
        ensures some { IfSome result (λ change. self.new ≡ shifted_by change self.old) }
        ensures valid { IsDirectory self.new.dir }
    {
        self.parts.move_down()
    }
}

/// Copies the words of a block down to where it moved, in rising order, since the places may overlap.
fn carry(held: &mut Held<'_, Server>, change: Move)
    requires { MayCarry held.old change }
    ensures { HasCarried held.old held.new change change.words }
{
    for index in 0..change.words {
        let word = held.load(change.from + index);
        held.store(change.to + index, word);
    }
}

/// Moves blocks down, each with its words, until none can any more.
fn compact(held: &mut Held<'_, Server>)
    requires stands { MayRelease held.old }
    ensures stands { MayRelease held.new × SameHolder held.old held.new }
    ensures compacted { IsCompacted held.old.value held.new.value }
    ensures listed { tasks_of held.new.value ≡ tasks_of held.old.value }
    ensures ranges { held.new.ranges ≡ held.old.ranges }
{
    while let Some(change) = held.value().move_down() {
        carry(held, change);
    }
}

/// Pushes the event of a FLUSH QUERY CACHE.
fn push_flush(held: &mut Held<'_, Server>, who: Who) -> u64
    requires stands { MayRelease held.old }
    requires next { IsNext held.old who }
    requires room { HasSpare held.old.value }
    ensures stands { MayRelease held.new × SameHolder held.old held.new }
    ensures number { result ≡ length held.new.value.journal.events }
    ensures pushed { held.new.value ≡ with_event (event.Flush who) held.old.value }
    ensures ranges { held.new.ranges ≡ held.old.ranges }
{
    held.value().push(Event::Flush { who })
}

/// FLUSH QUERY CACHE, as in MySQL's "Query Cache Status and Maintenance": moves blocks down, each with its words, until no block that isn't pinned has a free
/// block just below it, pushes its event, and answers its number. Before that the streams that other seats have ended are struck off. No entry leaves, and no
/// block of a task moves. It takes no memory, and costs the words that move.
pub fn flush(held: &mut Held<'_, Server>, who: Who) -> u64
    requires stands { MayRelease held.old }
    requires next { IsNext held.old who }
    requires room { HasSpare held.old.value }
    ensures stands { MayRelease held.new }
    ensures number { result ≡ length held.new.value.journal.events }
    ensures flushed { (found : List FoundWord) × ReadsStreams (holder held.old).number held.old.value found × Finds held.old held.new found
        × (mid : ServerState) × IsCompacted (swept found held.old.value) mid × (held.new.value ≡ with_event (event.Flush who) mid) }
    ensures rests { listed_for (holder held.old).number (tasks_of held.new.value) ≡ [] }
{
    reap_ended_streams(held);
    compact(held);
    push_flush(held, who)
}
