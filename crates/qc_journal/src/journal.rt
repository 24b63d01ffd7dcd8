//! The journal.

ghost use Rattle.std.specs.Prelude.{◌≡◌, ◌+◌, ◌^◌, ◌<◌, ◌≤◌, ◌++◌, ◌∷◌, [], length, IfOk, OnOk, Some};
ghost use Rattle.qc_model.specs.Cache as meant;
ghost use Rattle.qc_journal.specs.Room.{recorded};
ghost use Rattle.qc_model.specs.Journal.{event_at, event_count, last_change};

use crate::changes::Changes;
use crate::counts::{Counts, SESSIONS, raise_session, session_of};
use crate::replicas::replicas;
use qc_model::events::{Counters, Event, Events};
use qc_types::{NoMemory, TableName};
use std::alloc::Global;
use std::marker::Model;

/// The one list of events of the server, numbered from 1, to which events are added and from which none is taken. Contracts see the events,
/// and how many more there is room for. It keeps the five counts of SHOW STATUS that are of events, how many deciding
/// events each session has, and an index of the tables that commits touched.
#[derive(Drop)]
pub struct Journal {
    alloc: Global,
    events: Vec<Event>,
    counts: Counts,
    /// How many deciding events each session has, by its number.
    sessions: [u64; SESSIONS],
    changes: Changes,
}

impl Model for Journal {
    ghost use Rattle.std.specs.Prelude.{◌-◌, vec_len, vec_capacity};
    ghost use Rattle.qc_journal.specs.Room.{Recorded};

    ghost Value = { Recorded };

    ghost use Rattle.qc_journal.specs.Kept.{IsKept};

    ghost view = { λ j. record { events = j.events.items; spare = vec_capacity j.events - vec_len j.events } };

    ghost invariant = { λ j. IsKept j.counts j.sessions j.changes j.events.items };
}

impl Journal {
    /// A journal of no events. It takes no memory.
    pub fn new(alloc: Global) -> Journal
        ensures { result.events ≡ [] }
    {
        Journal {
            alloc,
            events: Vec::new(alloc),
            counts: Counts::NONE,
            sessions: [0; SESSIONS],
            changes: Changes::new(alloc),
        }
    }

    /// Makes room for at least so many events more, and brings the index of changes up to date, which takes memory too. Where memory lacks, the
    /// events stay, and there is room for as many more as before. Costs, over many calls, the logarithm of how many tables were ever changed for each
    /// operation of the events since the last call, and constant time for each event.
    pub fn reserve(&mut self, events: u32) -> Result<(), NoMemory>
        ensures same { self.new.events ≡ self.old.events }
        ensures room { OnOk result (events ≤ self.new.spare) }
        ensures no_less { self.old.spare ≤ self.new.spare }
    {
        self.changes.catch_up(self.alloc, self.events.as_slice())?;
        self.events.reserve(events as usize)?;
        Ok(())
    }

    /// How many more events there is room for. Constant time.
    pub fn room(&self) -> usize
        ensures { result ≡ self.now.spare }
    {
        self.events.capacity() - self.events.len()
    }

    /// Adds an event at the end, and answers its number, where there is room for it. It can't fail, and takes no memory. Constant time.
    pub fn push(&mut self, event: Event) -> u64
        requires { 1 ≤ self.old.spare }
        ensures number { result ≡ length self.new.events }
        ensures added { self.new.events ≡ self.old.events ++ event ∷ [] }
        ensures room { self.old.spare ≡ self.new.spare + 1 }
        ensures pushed { self.new ≡ recorded event self.old }
    {
        let number = self.events.len() as u64 + 1;
        self.counts.raise(&event);
        raise_session(&mut self.sessions, session_of(&event));
        self.events.push_reserved(event);
        number
    }

    /// The events once more, in their order. Fails where memory runs out. Linear in their number and in what they hold, but for the operations of commits, which
    /// are shared.
    pub fn events(&self) -> Result<Events, NoMemory>
        ensures { IfOk result (λ events. events ≡ self.now.events) }
    {
        replicas(self.alloc, self.events.as_slice())
    }

    /// The events in their order, of a journal to which none comes any more. Constant time.
    pub fn into_events(self) -> Events
        ensures { result ≡ self.events }
    {
        Events::from_vec(self.events)
    }

    /// How many events there are, which is the number of the last. Constant time.
    pub fn len(&self) -> u64
        ensures value { result ≡ length self.now.events }
        ensures within { length self.now.events < 2 ^ 63 }
    {
        self.events.len() as u64
    }

    /// How many deciding events a session has. Constant time.
    pub fn count(&self, session: u8) -> u64
        ensures count { result ≡ event_count self.now.events session }
        ensures within { result < 2 ^ 63 }
    {
        let _ = self.events.len();
        self.sessions[session as usize]
    }

    /// The event with this number, which is at least 1 and no more than there are. Constant time.
    pub fn event(&self, number: u64) -> &Event
        requires first { 1 ≤ number }
        requires last { number ≤ length self.now.events }
        ensures { event_at self.now.events number ≡ Some result.now }
    {
        &self.events[(number - 1) as usize]
    }

    /// The number of the last commit that touches the table, or 0. A commit touches the tables that it writes, creates or drops, and those of a
    /// database that it drops. Costs the operations of the events since the last `reserve`, and the logarithm of how many tables were ever changed.
    pub fn last_change(&self, table: &TableName) -> u64
        ensures { result ≡ last_change self.now.events table.now }
    {
        self.changes.last_change(self.events.as_slice(), table)
    }

    /// The counters of SHOW STATUS at this moment, where so many entries stand in the cache. Constant time.
    pub fn counters(&self, entries: u64) -> Counters
        requires { entries ≡ length (meant.cache self.now.events) }
        ensures { result ≡ meant.counters self.now.events }
    {
        Counters {
            com_select: self.counts.com_select,
            hits: self.counts.hits,
            inserts: self.counts.inserts,
            not_cached: self.counts.not_cached,
            lowmem_prunes: self.counts.lowmem_prunes,
            queries_in_cache: entries,
        }
    }
}
