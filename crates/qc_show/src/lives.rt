//! The lives of entries: what began them, what they answered, and what ended them.

use qc_key::read_key;
use qc_model::events::{Event, GoneWhy, How};
use qc_sql::tables::RowOp;
use qc_types::{NoMemory, TableName};
use std::alloc::Global;
use std::collections::BTreeMap;

/// What ended an entry, and at which event.
#[derive(Clone, Copy, Debug, PartialEq, Eq)]
pub enum End {
    /// A commit of this session changed a table that it uses.
    Changed { place: u64, session: u8 },
    /// RESET QUERY CACHE or FLUSH TABLES of this session.
    Reset { place: u64, session: u8 },
    /// It made room for so many words, where the largest free block had fewer.
    Pruned { place: u64, need: u32, largest: u32 },
    /// It was given up when it was being filled.
    Gone { place: u64, why: GoneWhy },
}

impl End {
    /// The event that ended it.
    pub fn place(self) -> u64 {
        match self {
            End::Changed { place, .. } => place,
            End::Reset { place, .. } => place,
            End::Pruned { place, .. } => place,
            End::Gone { place, .. } => place,
        }
    }
}

/// An entry's life. Places are numbers of events.
#[derive(Clone, Copy)]
pub struct Life<'a> {
    pub serial: u64,
    /// The session that began it, and where.
    pub session: u8,
    pub begun: u64,
    pub key: &'a [u8],
    pub tables: &'a [TableName],
    pub complete: Option<u64>,
    pub hits: u64,
    pub last_hit: u64,
    /// None where it stands at the end of the journal.
    pub end: Option<End>,
}

/// The lives of the entries of a journal so far.
#[derive(Drop)]
pub struct Lives<'a> {
    alloc: Global,
    lives: Vec<Life<'a>>,
    /// The entry that was begun last under a serial, by its index.
    by_serial: BTreeMap<u64, usize>,
    /// The entries that use a table, or one of a database, and that may not have ended yet.
    by_table: BTreeMap<Vec<u8>, Vec<usize>>,
    by_database: BTreeMap<Vec<u8>, Vec<usize>>,
    /// The first entry that was begun behind the last reset.
    behind_reset: usize,
}

impl<'a> Lives<'a> {
    /// No entries so far.
    pub fn new(alloc: Global) -> Lives<'a> {
        Lives {
            alloc,
            lives: Vec::new(alloc),
            by_serial: BTreeMap::new(alloc),
            by_table: BTreeMap::new(alloc),
            by_database: BTreeMap::new(alloc),
            behind_reset: 0,
        }
    }

    /// The lives of all entries of a journal. About linear in it.
    pub fn of(alloc: Global, events: &'a [Event]) -> Result<Lives<'a>, NoMemory> {
        let mut lives = Lives::new(alloc);
        for (index, event) in events.iter().enumerate() {
            let _ended = lives.take(index as u64 + 1, event)?;
        }
        Ok(lives)
    }

    /// The entries, in the order in which they were begun.
    pub fn all(&self) -> &[Life<'a>] {
        self.lives.as_slice()
    }

    /// The entry that was begun last under this serial.
    pub fn get(&self, serial: u64) -> Option<&Life<'a>> {
        self.lives.get(*self.by_serial.get(&serial)?)
    }

    /// The place in the list of that entry.
    pub fn index_of(&self, serial: u64) -> Option<usize> {
        self.by_serial.get(&serial).copied()
    }

    /// Takes the event at this place, and gives the serials of the entries that it ended.
    pub fn take(&mut self, place: u64, event: &'a Event) -> Result<Vec<u64>, NoMemory> {
        let mut ended = Vec::new(self.alloc);
        match event {
            Event::Run { who, how } => self.take_run(place, who.session, how)?,
            Event::Commit { who, ops } => {
                let end = End::Changed {
                    place,
                    session: who.session,
                };
                self.take_operations(end, ops.items(), &mut ended)?;
            }
            Event::Done { serial } => self.complete(*serial, place),
            Event::Gone { serial, why } => {
                let end = End::Gone { place, why: *why };
                self.end_serial(*serial, end, &mut ended)?;
            }
            Event::Prune {
                serial,
                need,
                largest,
            } => {
                let end = End::Pruned {
                    place,
                    need: *need,
                    largest: *largest,
                };
                self.end_serial(*serial, end, &mut ended)?;
            }
            Event::Reset { who } => {
                let end = End::Reset {
                    place,
                    session: who.session,
                };
                self.end_all(end, &mut ended)?;
            }
            Event::Flush { .. } => {}
        }
        Ok(ended)
    }

    fn take_run(&mut self, place: u64, session: u8, how: &'a How) -> Result<(), NoMemory> {
        match how {
            How::Hit(serial) => {
                self.hit(*serial, place);
                Ok(())
            }
            How::Start {
                serial,
                key,
                tables,
            } => self.begin(Life {
                serial: *serial,
                session,
                begun: place,
                key: key.bytes(),
                tables: tables.items(),
                complete: None,
                hits: 0,
                last_hit: 0,
                end: None,
            }),
            _ => Ok(()),
        }
    }

    fn begin(&mut self, life: Life<'a>) -> Result<(), NoMemory> {
        let index = self.lives.len();
        for table in life.tables {
            let name = name_of(self.alloc, table)?;
            list(self.alloc, &mut self.by_table, name, index)?;
            let database = Vec::from_slice(self.alloc, table.db.bytes())?;
            list(self.alloc, &mut self.by_database, database, index)?;
        }
        self.by_serial.insert(life.serial, index)?;
        self.lives.push(life)?;
        Ok(())
    }

    fn hit(&mut self, serial: u64, place: u64) {
        let Some(index) = self.index_of(serial) else {
            return;
        };
        if let Some(life) = self.lives.get_mut(index) {
            life.hits = life.hits.saturating_add(1);
            life.last_hit = place;
        }
    }

    fn complete(&mut self, serial: u64, place: u64) {
        let Some(index) = self.index_of(serial) else {
            return;
        };
        if let Some(life) = self.lives.get_mut(index) {
            life.complete = Some(place);
        }
    }

    fn end_serial(&mut self, serial: u64, end: End, ended: &mut Vec<u64>) -> Result<(), NoMemory> {
        match self.index_of(serial) {
            Some(index) => end_life(&mut self.lives, index, end, ended),
            None => Ok(()),
        }
    }

    fn end_all(&mut self, end: End, ended: &mut Vec<u64>) -> Result<(), NoMemory> {
        for index in self.behind_reset..self.lives.len() {
            end_life(&mut self.lives, index, end, ended)?;
        }
        self.behind_reset = self.lives.len();
        Ok(())
    }

    /// Ends the entries that use what the operations change. Of operations on one table in a row the first is enough.
    fn take_operations(
        &mut self,
        end: End,
        ops: &[RowOp],
        ended: &mut Vec<u64>,
    ) -> Result<(), NoMemory> {
        let mut before = None;
        for op in ops {
            match op {
                RowOp::Put(table, _)
                | RowOp::Del(table, _)
                | RowOp::CreateTable(table, _)
                | RowOp::DropTable(table) => {
                    if !is_table(before, table) {
                        let name = name_of(self.alloc, table)?;
                        let users = self.by_table.remove(name.as_slice());
                        end_listed(&mut self.lives, users, end, ended)?;
                    }
                    before = Some(table);
                }
                RowOp::DropDb(name) => {
                    let users = self.by_database.remove(name.bytes());
                    end_listed(&mut self.lives, users, end, ended)?;
                }
                RowOp::CreateDb(_) => {}
            }
        }
        Ok(())
    }
}

/// Whether it is this table.
fn is_table(before: Option<&TableName>, table: &TableName) -> bool {
    match before {
        Some(before) => before.db.bytes() == table.db.bytes()
            && before.name.bytes() == table.name.bytes(),
        None => false,
    }
}

/// A table's name as one text: the length of its database's name, that name, and its own.
fn name_of(alloc: Global, table: &TableName) -> Result<Vec<u8>, NoMemory> {
    let db = table.db.bytes();
    let mut name = Vec::from_slice(alloc, &(db.len() as u64).to_le_bytes())?;
    name.extend_from_slice(db)?;
    name.extend_from_slice(table.name.bytes())?;
    Ok(name)
}

/// Puts an entry under a name.
fn list(
    alloc: Global,
    lists: &mut BTreeMap<Vec<u8>, Vec<usize>>,
    name: Vec<u8>,
    index: usize,
) -> Result<(), NoMemory> {
    lists.entry(name)?.or_insert(Vec::new(alloc)).push(index)?;
    Ok(())
}

/// Ends the entries of a list that haven't ended yet.
fn end_listed(
    lives: &mut Vec<Life<'_>>,
    users: Option<Vec<usize>>,
    end: End,
    ended: &mut Vec<u64>,
) -> Result<(), NoMemory> {
    if let Some(users) = users {
        for index in &users {
            end_life(lives, *index, end, ended)?;
        }
    }
    Ok(())
}

/// Ends an entry that hasn't ended yet.
fn end_life(
    lives: &mut Vec<Life<'_>>,
    index: usize,
    end: End,
    ended: &mut Vec<u64>,
) -> Result<(), NoMemory> {
    if let Some(life) = lives.get_mut(index) {
        if life.end.is_none() {
            ended.push(life.serial)?;
            life.end = Some(end);
        }
    }
    Ok(())
}

/// The statement's text in an entry's key, or the whole key where it is none.
pub fn statement_of(key: &[u8]) -> &[u8] {
    match read_key(key) {
        Some(parts) => parts.text,
        None => key,
    }
}

/// The current database in an entry's key.
pub fn database_of(key: &[u8]) -> &[u8] {
    match read_key(key) {
        Some(parts) => parts.db,
        None => &[],
    }
}
