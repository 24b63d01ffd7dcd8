//! What event a command left, as a line.

use crate::line::Line;
use qc_app::{Event, GoneWhy, How, Reason, ReportLine, Who, Word};
use qc_sql::tables::{Column, Kind, RowOp};
use qc_types::{NoMemory, TableName, Value, Why};

/// How many events of a session were seen, and the place of the last one.
#[derive(Clone, Copy)]
pub struct Seen {
    session: u8,
    events: u64,
    place: u64,
}

impl Seen {
    pub fn none(session: u8) -> Seen {
        Seen {
            session,
            events: 0,
            place: 0,
        }
    }

    /// Whether these are all events of the session.
    pub fn are_all(&self, journal: &[Event]) -> bool {
        let is_own = |event: &&Event| session_of(event) == Some(self.session);
        journal.iter().filter(is_own).count() as u64 == self.events
    }

    /// Whether an event is the next one of the session.
    fn is_next(&self, event: &Event) -> bool {
        match who_of(event) {
            Some(who) => who.session == self.session && who.number == self.events.wrapping_add(1),
            None => false,
        }
    }
}

/// Whose event it is, where it is a session's.
fn who_of(event: &Event) -> Option<Who> {
    match event {
        Event::Run { who, .. }
        | Event::Commit { who, .. }
        | Event::Reset { who }
        | Event::Flush { who } => Some(*who),
        _ => None,
    }
}

fn session_of(event: &Event) -> Option<u8> {
    who_of(event).map(|who| who.session)
}

/// The word of a line whose command has this event.
fn word_of(event: &Event) -> Word {
    match event {
        Event::Run { how, .. } => match how {
            How::Hit(_) => Word::Hit,
            How::Start { .. } => Word::Start,
            How::Plain(_) => Word::Plain,
            _ => Word::Other,
        },
        _ => Word::Other,
    }
}

impl Line {
    /// Puts the event of a line, behind the entries that were pruned for it and before the end of the entry that it began, and whether the line has another place
    /// or another word than those of its event.
    pub fn put_event_of(
        &mut self,
        line: &ReportLine,
        journal: &[Event],
        seen: &mut Seen,
    ) -> Result<(), NoMemory> {
        let before = line.place.wrapping_sub(1) as usize;
        let word = match journal.get(before) {
            Some(event) if seen.is_next(event) => {
                seen.events = seen.events.wrapping_add(1);
                seen.place = line.place;
                self.put_prunes(journal.get(..before).unwrap_or(journal))?;
                self.put_event(event)?;
                self.put_end_of(event, journal)?;
                word_of(event)
            }
            _ => {
                self.put("-")?;
                Word::Local
            }
        };
        if line.place != seen.place {
            self.put(" at another place")?;
        }
        if line.how != word {
            self.put(" by another word")?;
        }
        Ok(())
    }

    /// Puts the prunes at the end of what stands before an event.
    fn put_prunes(&mut self, before: &[Event]) -> Result<(), NoMemory> {
        let is_other = |event: &Event| !matches!(event, Event::Prune { .. });
        let first = match before.iter().rposition(is_other) {
            Some(place) => place.wrapping_add(1),
            None => 0,
        };
        for event in before.get(first..).unwrap_or(&[]) {
            self.put_event(event)?;
            self.put(", ")?;
        }
        Ok(())
    }

    /// Puts the end of the entry that an event began.
    fn put_end_of(&mut self, event: &Event, journal: &[Event]) -> Result<(), NoMemory> {
        let Event::Run {
            how: How::Start { serial: begun, .. },
            ..
        } = event
        else {
            return Ok(());
        };
        for event in journal {
            match event {
                Event::Done { serial } | Event::Gone { serial, .. } if serial == begun => {
                    self.put(" ")?;
                    self.put_event(event)?;
                }
                _ => {}
            }
        }
        Ok(())
    }

    fn put_event(&mut self, event: &Event) -> Result<(), NoMemory> {
        match event {
            Event::Run { how, .. } => self.put_how(how),
            Event::Commit { ops, .. } => self.put_ops(ops.items()),
            Event::Done { .. } => self.put("done"),
            Event::Gone { why, .. } => self.put_gone(why),
            Event::Reset { .. } => self.put("reset"),
            Event::Flush { .. } => self.put("flush"),
            Event::Prune {
                serial,
                need,
                largest,
            } => {
                self.put_number("prune ", *serial)?;
                self.put_number(" ", u64::from(*need))?;
                self.put_number(" ", u64::from(*largest))
            }
        }
    }

    fn put_how(&mut self, how: &How) -> Result<(), NoMemory> {
        match how {
            How::Hit(serial) => self.put_number("hit ", *serial),
            How::Start { serial, .. } => self.put_number("start ", *serial),
            How::Plain(reason) => self.put_reason(reason),
            How::Other => self.put("other"),
            How::Conflict { .. } => self.put("conflict"),
            How::Status(totals) => {
                self.put_number("status ", u64::from(totals.blocks))?;
                self.put_number(" ", u64::from(totals.free_blocks))?;
                self.put_number(" ", u64::from(totals.free_words).saturating_mul(8))
            }
        }
    }

    fn put_reason(&mut self, reason: &Reason) -> Result<(), NoMemory> {
        match reason {
            Reason::Error(code) => self.put_number("plain error ", u64::from(*code)),
            Reason::Off => self.put("plain off"),
            Reason::NotAsked => self.put("plain notasked"),
            Reason::Rule(Why::Locking) => self.put("plain locking"),
            Reason::Rule(Why::NoTables) => self.put("plain notables"),
            Reason::Rule(Why::SystemTable(table)) => self.put_table("plain systemtable ", table),
            Reason::Rule(Why::Function(name)) => {
                self.put("plain function ")?;
                self.put_bytes(name.bytes())
            }
            Reason::Written(table) => self.put_table("plain written ", table),
            Reason::NotVisible { table, .. } => self.put_table("plain notvisible ", table),
            Reason::Rival(_) => self.put("plain rival"),
            Reason::NoRoom { .. } => self.put("plain noroom"),
        }
    }

    fn put_gone(&mut self, why: &GoneWhy) -> Result<(), NoMemory> {
        match why {
            GoneWhy::TooLarge { length, limit } => {
                self.put_number("gone ", *length)?;
                self.put_number(" over ", u64::from(*limit))
            }
            GoneWhy::NoRoom { .. } => self.put("gone for want of room"),
            GoneWhy::Ended => self.put("gone with its session"),
        }
    }

    fn put_ops(&mut self, ops: &[RowOp]) -> Result<(), NoMemory> {
        if ops.is_empty() {
            return self.put("commit of nothing");
        }
        let mut between = "commit ";
        for op in ops {
            self.put(between)?;
            self.put_op(op)?;
            between = "; ";
        }
        Ok(())
    }

    fn put_op(&mut self, op: &RowOp) -> Result<(), NoMemory> {
        match op {
            RowOp::Put(table, row) => {
                self.put_table("put ", table)?;
                self.put_values(row.items())
            }
            RowOp::Del(table, key) => {
                self.put_table("del ", table)?;
                self.put(" ")?;
                self.put(key.to_string(self.alloc)?.as_str())
            }
            RowOp::CreateTable(table, columns) => {
                self.put_table("create ", table)?;
                self.put_table_columns(columns.items())
            }
            RowOp::DropTable(table) => self.put_table("drop ", table),
            RowOp::CreateDb(name) => {
                self.put("createdb ")?;
                self.put_bytes(name.bytes())
            }
            RowOp::DropDb(name) => {
                self.put("dropdb ")?;
                self.put_bytes(name.bytes())
            }
        }
    }

    fn put_table(&mut self, text: &str, table: &TableName) -> Result<(), NoMemory> {
        self.put(text)?;
        self.put_bytes(table.db.bytes())?;
        self.put(".")?;
        self.put_bytes(table.name.bytes())
    }

    fn put_values(&mut self, values: &[Value]) -> Result<(), NoMemory> {
        let mut between = " ";
        for value in values {
            self.put(between)?;
            match value {
                Value::Null => self.put("NULL")?,
                Value::Int(number) => self.put(number.to_string(self.alloc)?.as_str())?,
                Value::Str(text) => self.put_bytes(text.bytes())?,
            }
            between = ",";
        }
        Ok(())
    }

    fn put_table_columns(&mut self, columns: &[Column]) -> Result<(), NoMemory> {
        let mut between = " ";
        for column in columns {
            self.put(between)?;
            self.put_bytes(column.name.bytes())?;
            match column.kind {
                Kind::Int => self.put(" BIGINT")?,
                Kind::Str(length) => {
                    self.put_number(" VARCHAR(", u64::from(length))?;
                    self.put(")")?;
                }
            }
            // A key is never NULL, so only one that says otherwise shows it.
            self.put(match (column.primary, column.not_null) {
                (true, true) => " key",
                (true, false) => " key null",
                (false, true) => " not null",
                (false, false) => "",
            })?;
            between = ", ";
        }
        Ok(())
    }
}
