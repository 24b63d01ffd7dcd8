//! A session looks for an answer.

ghost use Rattle.std.specs.Prelude.{◌≡◌, ◌*◌, ◌≤◌, ◌<◌, length, option_map, Some, not, ◌&&◌, IsSome, IfSome, IfNone};
ghost use Rattle.std.specs.List.{list_all};
ghost use Rattle.qc_model.specs.Choice.{answering, changed_since, is_stale, wrote};
ghost use Rattle.qc_model.specs.Journal.{last_change};
ghost use Rattle.qc_chain.specs.Words.{words_of};
ghost use Rattle.qc_dir.specs.Directory.{entry_at};
ghost use Rattle.qc_turn.specs.declared.task.Task.TheVariants as task;
ghost use Rattle.qc_turn.specs.Tasks.{listed_for, own};
ghost use Rattle.qc_turn.specs.Seats.{MayRelease, SameHolder, holder};
ghost use Rattle.qc_core.specs.Whole.{tasks_of};
ghost use Rattle.qc_core.specs.Calls.{IsNext, HasSpare, MaySend};
ghost use Rattle.qc_core.specs.HitStream.{IsChainOf, hit_server};

use crate::hit_stream::{Hit, stream_entry};
use crate::keys::find_entry;
use crate::server::Server;
use qc_model::events::Who;
use qc_trx::SessionState;
use qc_turn::Held;
use qc_types::TableName;

impl Server {
    /// Whether a table changed behind this place, where there is one.
    fn changed_behind(&self, place: Option<u64>, table: &TableName) -> bool
        ensures { result ≡ changed_since place (last_change self.now.journal.events table.now) }
    {
        match place {
            None => false,
            Some(place) => place < self.journal().last_change(table),
        }
    }

    /// Whether the session sees these tables as they are now.
    fn are_current(&self, tables: &[TableName], state: &SessionState) -> bool
        ensures { result ≡ list_all (λ t. not (wrote state.now.state t) && not (is_stale state.now.state self.now.journal.events t)) tables.now }
    {
        let place = state.snapshot();
        for table in tables {
            if state.wrote(table) || self.changed_behind(place, table) {
                return false;
            }
        }
        true
    }

    /// Whether an entry is complete, and the session sees its tables as they are now.
    fn may_send(&self, serial: u64, state: &SessionState) -> bool
        requires { IsSome (entry_at serial self.now.dir.entries) }
        ensures { MaySend state.now.state serial self.now result }
    {
        let Some(entry) = self.entry(serial) else {
            unreachable!()
        };
        entry.complete && self.are_current(entry.tables.items(), state)
    }
}

/// Looks for a complete entry of the key that the session may see. Where there is one, the session hits it: the seat streams it from now on, and has its
/// chain in hand, as in MySQL's "How the Query Cache Operates". Otherwise nothing changes. It takes no memory. Costs the key's bytes, as far as hashes
/// spread, for each table of the entry the operations of the session's own transaction, and the blocks of the hit.
pub fn look(held: &mut Held<'_, Server>, who: Who, key: &[u8], state: &SessionState) -> Option<Hit>
    requires stands { MayRelease held.old }
    requires next { IsNext held.old who }
    requires room { HasSpare held.old.value }
    requires ranges { held.old.value.options.size ≤ 512 * held.old.ranges.room }
    ensures stands { MayRelease held.new × SameHolder held.old held.new }
    ensures found { option_map (λ hit. hit.serial) result ≡ option_map (λ y. y.serial) (answering state.now.state held.old.value.journal.events key.now) }
    ensures none { IfNone result ((held.new.value ≡ held.old.value) × (held.new.ranges ≡ held.old.ranges)) }
    ensures server { IfSome result (λ hit. held.new.value ≡ hit_server who hit.serial (holder held.old).number held.old.value) }
    ensures hit { IfSome result (λ hit. (hit.place ≡ length held.new.value.journal.events) × (hit.bytes ≡ held.new.ranges.bytes)) }
    ensures ranges { IfSome result (λ hit. IsChainOf hit.serial held.new.value held.new.ranges) }
    ensures within { IfSome result (λ hit. hit.bytes ≤ 8 * words_of held.new.ranges.blocks) }
    ensures listed { IfSome result (λ hit. listed_for (holder held.old).number (tasks_of held.new.value) ≡ own (holder held.old).number (task.Stream hit.serial) held.new.ranges.blocks) }
    ensures same_room { IfSome result (λ hit. held.new.ranges.room ≡ held.old.ranges.room) }
{
    let Some(serial) = find_entry(held, key) else {
        return None;
    };
    if !held.value().may_send(serial, state) {
        return None;
    }
    Some(stream_entry(held, who, serial))
}
