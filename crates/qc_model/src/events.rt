//! Events of the journal.

use crate::shared_ops::SharedOps;
use qc_types::{OwnedList, TableName, Tables, Text, Totals, Why};

/// A session, and the number of its deciding event.
#[derive(Clone, Copy, Debug, PartialEq, Eq)]
pub struct Who {
    /// 1 to 64, or 0 for the setup part.
    pub session: u8,
    /// Counts the session's deciding events from 1.
    pub number: u64,
}

/// Why a select ran outside the cache.
#[derive(Drop)]
pub enum Reason {
    /// It is answered with this error.
    Error(u16),
    /// The cache has no memory, or the type is 0.
    Off,
    /// The statement or the type says that the cache is not asked.
    NotAsked,
    /// The statement is one that the cache may not keep.
    Rule(Why),
    /// Its own transaction has written this table.
    Written(TableName),
    /// A table changed at a place behind the snapshot of its transaction.
    NotVisible {
        /// The first such table.
        table: TableName,
        /// The number of the event that was the last to change it.
        changed: u64,
        /// The number of the event at which the snapshot was taken.
        snapshot: u64,
    },
    /// An entry of the same key, with this serial, is still being filled.
    Rival(u64),
    /// No free block has as many words as it needs, and no entry is left that could go.
    NoRoom {
        /// The words of 8 bytes that it needs.
        need: u32,
        /// The words of the largest free block, or 0 where there is none.
        largest: u32,
    },
}

/// How a command ran.
#[derive(Drop)]
pub enum How {
    /// A select was answered from the entry with this serial.
    Hit(u64),
    /// A select ran, and an entry was begun for it.
    Start {
        /// The serial of the entry.
        serial: u64,
        /// Its key.
        key: Text,
        /// The tables that it uses, in the order of FROM.
        tables: Tables,
    },
    /// A select ran outside the cache.
    Plain(Reason),
    /// A command that is no select and changes no data ran.
    Other,
    /// SHOW STATUS ran, with the cache's totals.
    Status(Totals),
    /// A transaction was refused, since another event had changed the table, or a row of it.
    Conflict {
        /// The table.
        table: TableName,
        /// The key of the row, where it is one.
        key: Option<i64>,
        /// The number of the event that had changed it.
        by: u64,
    },
}

/// Why an entry that was being filled is gone.
#[derive(Clone, Copy, Debug, PartialEq, Eq)]
pub enum GoneWhy {
    /// Its reply grew longer than one entry may be.
    TooLarge {
        /// The bytes of the reply.
        length: u64,
        /// The most bytes that one may have.
        limit: u32,
    },
    /// The cache had no room for its next piece.
    NoRoom {
        /// The words of 8 bytes that it needs.
        need: u32,
        /// The words of the largest free block, or 0 where there is none.
        largest: u32,
    },
    /// Its session ended.
    Ended,
}

/// An event of the one journal.
#[derive(Drop)]
pub enum Event {
    /// A command of a session ran and changed no data.
    Run {
        /// Whose it is.
        who: Who,
        /// How it ran.
        how: How,
    },
    /// Changes of a session became part of the database.
    Commit {
        /// Whose they are.
        who: Who,
        /// The changes.
        ops: SharedOps,
    },
    /// An entry was completed.
    Done {
        /// Its serial.
        serial: u64,
    },
    /// An entry that was being filled is gone.
    Gone {
        /// Its serial.
        serial: u64,
        /// Why it is.
        why: GoneWhy,
    },
    /// The entry went that was used longest ago, of those that are complete and that nobody streams, to make room.
    Prune {
        /// Its serial.
        serial: u64,
        /// The words of 8 bytes for which room was made.
        need: u32,
        /// The words of the largest free block before, or 0 where there was none.
        largest: u32,
    },
    /// RESET QUERY CACHE, or FLUSH TABLES: all entries went.
    Reset {
        /// Whose command it is.
        who: Who,
    },
    /// FLUSH QUERY CACHE: the entries were moved together.
    Flush {
        /// Whose command it is.
        who: Who,
    },
}

/// The journal: events in their order, of which the first has place 1.
pub type Events = OwnedList<Event>;

/// The Qcache counters, as SHOW STATUS names them in the MySQL manual.
#[derive(Clone, Copy, Debug, PartialEq, Eq)]
pub struct Counters {
    /// Selects that began an entry or ran outside the cache: Com_select.
    pub com_select: u64,
    /// Selects that were answered from entries: Qcache_hits.
    pub hits: u64,
    /// Entries that were begun: Qcache_inserts.
    pub inserts: u64,
    /// Selects that ran outside the cache without an error: Qcache_not_cached.
    pub not_cached: u64,
    /// Entries that went to make room: Qcache_lowmem_prunes.
    pub lowmem_prunes: u64,
    /// Entries that stand at the end: Qcache_queries_in_cache.
    pub queries_in_cache: u64,
}
