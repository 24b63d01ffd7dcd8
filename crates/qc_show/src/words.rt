//! Events of a journal, in words.

use crate::fault::Fault;
use crate::lives::{End, Lives, statement_of};
use crate::plain::{Within, put_count, put_plain};
use crate::script::put_command;
use crate::sessions::SessionName;
use crate::tables::{put_table, put_tables};
use qc_model::events::{Event, GoneWhy, How, Reason};
use qc_sql::commands::Command;
use qc_sql::tables::RowOp;
use qc_types::{TableName, Why};
use std::io::Write;

/// An event, and what is known of it beside.
#[derive(Clone, Copy)]
pub struct Seen<'a> {
    pub event: &'a Event,
    /// The serials of the entries that it ended.
    pub ended: &'a [u64],
    /// The command that it decided, where the script is known.
    pub command: Option<&'a Command>,
}

/// Puts an event in words, in one line without its end. The entries are those of the journal up to and with it. Linear in the event.
pub fn put_event<W: Write>(
    out: &mut W,
    within: Within,
    lives: &Lives<'_>,
    seen: Seen<'_>,
) -> Result<(), Fault> {
    match seen.event {
        Event::Run { who, how } => {
            let session = SessionName(who.session);
            write!(out, "{session} ")?;
            put_how(out, within, how)?;
            put_statement(out, within, lives, how, seen.command)
        }
        Event::Commit { who, ops } => {
            let session = SessionName(who.session);
            write!(out, "{session} committed: ")?;
            put_operations(out, within, ops.items())?;
            put_ended(out, seen.ended)?;
            put_asked(out, within, seen.command)
        }
        Event::Done { serial } => Ok(write!(out, "entry {serial} is complete")?),
        Event::Gone { serial, why } => {
            write!(out, "entry {serial} was given up: ")?;
            put_gone(out, *why)
        }
        Event::Prune {
            serial,
            need,
            largest,
        } => {
            write!(
                out,
                "entry {serial}, the one that was used longest ago, was pruned: "
            )?;
            put_need(out, *need, *largest)
        }
        Event::Reset { who } => {
            let session = SessionName(who.session);
            write!(out, "{session} emptied the cache")?;
            put_ended(out, seen.ended)?;
            put_asked(out, within, seen.command)
        }
        Event::Flush { who } => {
            let session = SessionName(who.session);
            write!(out, "{session} moved the blocks of the cache together")?;
            put_asked(out, within, seen.command)
        }
    }
}

fn put_how<W: Write>(out: &mut W, within: Within, how: &How) -> Result<(), Fault> {
    match how {
        How::Hit(serial) => write!(out, "hit entry {serial}")?,
        How::Start { serial, tables, .. } => {
            write!(out, "began entry {serial} on ")?;
            put_tables(out, within, tables.items())?;
        }
        How::Plain(reason) => {
            out.write_all(b"ran a SELECT outside the cache, since ")?;
            put_reason(out, within, reason)?;
        }
        How::Other => out.write_all(b"ran a command that committed nothing")?,
        How::Status(totals) => {
            let blocks = totals.blocks;
            let free_blocks = totals.free_blocks;
            let free_bytes = u64::from(totals.free_words) * 8;
            write!(
                out,
                "asked for the status: {blocks} blocks, {free_blocks} of them free, with {free_bytes} free bytes"
            )?;
        }
        How::Conflict { table, key, by } => {
            write!(out, "was rolled back, since event {by} had changed ")?;
            if let Some(key) = key {
                write!(out, "row {key} of ")?;
            }
            put_table(out, within, table)?;
        }
    }
    Ok(())
}

/// Puts the text of a statement behind what became of it: a hit's and a start's by the entry's key, and any other's by the script.
fn put_statement<W: Write>(
    out: &mut W,
    within: Within,
    lives: &Lives<'_>,
    how: &How,
    command: Option<&Command>,
) -> Result<(), Fault> {
    match how {
        How::Hit(serial) => match lives.get(*serial) {
            Some(life) => put_text(out, within, statement_of(life.key)),
            None => put_asked(out, within, command),
        },
        How::Start { key, .. } => put_text(out, within, statement_of(key.bytes())),
        _ => put_asked(out, within, command),
    }
}

fn put_text<W: Write>(out: &mut W, within: Within, text: &[u8]) -> Result<(), Fault> {
    out.write_all(b": ")?;
    put_plain(out, within, text)
}

fn put_asked<W: Write>(
    out: &mut W,
    within: Within,
    command: Option<&Command>,
) -> Result<(), Fault> {
    if let Some(command) = command {
        out.write_all(b": ")?;
        put_command(out, within, command)?;
    }
    Ok(())
}

/// Puts why a SELECT ran outside the cache.
pub fn put_reason<W: Write>(out: &mut W, within: Within, reason: &Reason) -> Result<(), Fault> {
    match reason {
        Reason::Error(code) => write!(out, "it is refused with error {code}")?,
        Reason::Off => out.write_all(b"the cache is off")?,
        Reason::NotAsked => out.write_all(b"the cache isn't asked")?,
        Reason::Rule(why) => put_why(out, within, why)?,
        Reason::Written(table) => {
            out.write_all(b"its transaction has written ")?;
            put_table(out, within, table)?;
        }
        Reason::NotVisible {
            table,
            changed,
            snapshot,
        } => {
            put_table(out, within, table)?;
            write!(
                out,
                " changed at event {changed}, behind the snapshot of its transaction at event {snapshot}"
            )?;
        }
        Reason::Rival(serial) => write!(
            out,
            "entry {serial} of the same statement is still being filled"
        )?,
        Reason::NoRoom { need, largest } => {
            out.write_all(b"there is no room: ")?;
            put_need(out, *need, *largest)?;
        }
    }
    Ok(())
}

fn put_why<W: Write>(out: &mut W, within: Within, why: &Why) -> Result<(), Fault> {
    match why {
        Why::Locking => out.write_all(b"it locks the rows that it reads")?,
        Why::NoTables => out.write_all(b"it names no table")?,
        Why::SystemTable(table) => {
            out.write_all(b"it reads the system table ")?;
            put_table(out, within, table)?;
        }
        Why::Function(name) => {
            out.write_all(b"it calls ")?;
            put_plain(out, within, name.bytes())?;
        }
    }
    Ok(())
}

fn put_gone<W: Write>(out: &mut W, why: GoneWhy) -> Result<(), Fault> {
    match why {
        GoneWhy::TooLarge { length, limit } => write!(
            out,
            "its reply has {length} bytes or more, and the limit is {limit}"
        )?,
        GoneWhy::NoRoom { need, largest } => put_need(out, need, largest)?,
        GoneWhy::Ended => out.write_all(b"its session ended")?,
    }
    Ok(())
}

fn put_need<W: Write>(out: &mut W, need: u32, largest: u32) -> Result<(), Fault> {
    out.write_all(b"a block of ")?;
    put_count(out, u64::from(need), "word", "words")?;
    write!(out, " was needed, and the largest free one had {largest}")?;
    Ok(())
}

/// Puts the entries that an event ended, where there are any.
fn put_ended<W: Write>(out: &mut W, ended: &[u64]) -> Result<(), Fault> {
    for (index, serial) in ended.iter().enumerate() {
        let before = match (index, ended.len()) {
            (0, 1) => "; this removed entry",
            (0, _) => "; this removed entries",
            _ => ",",
        };
        write!(out, "{before} {serial}")?;
    }
    Ok(())
}

/// Puts what ended an entry.
pub fn put_end<W: Write>(out: &mut W, end: End) -> Result<(), Fault> {
    match end {
        End::Changed { place, session } => {
            let session = SessionName(session);
            write!(out, "removed by a commit of {session} at event {place}")?;
        }
        End::Reset { place, session } => {
            let session = SessionName(session);
            write!(
                out,
                "removed at event {place}, when {session} emptied the cache"
            )?;
        }
        End::Pruned {
            place,
            need,
            largest,
        } => {
            write!(out, "pruned at event {place}: ")?;
            put_need(out, need, largest)?;
        }
        End::Gone { place, why } => {
            write!(out, "given up at event {place}: ")?;
            put_gone(out, why)?;
        }
    }
    Ok(())
}

/// What operations of one kind do.
#[derive(Clone, Copy, Debug, PartialEq, Eq)]
enum OperationKind {
    Puts,
    Deletes,
    Creates,
    Drops,
    CreatesDatabase,
    DropsDatabase,
}

/// Puts the operations of a commit in words. Those in a row that put into one table, or delete from it, are told together.
fn put_operations<W: Write>(out: &mut W, within: Within, ops: &[RowOp]) -> Result<(), Fault> {
    if ops.is_empty() {
        out.write_all(b"nothing")?;
    }
    let mut told = 0u64;
    for (index, op) in ops.iter().enumerate() {
        told = told.saturating_add(1);
        let goes_on = match ops.get(index + 1) {
            Some(next) => is_alike(op, next),
            None => false,
        };
        if !goes_on {
            put_alike(out, within, op, told)?;
            told = 0;
            if index + 1 < ops.len() {
                out.write_all(b", ")?;
            }
        }
    }
    Ok(())
}

fn kind_of(op: &RowOp) -> OperationKind {
    match op {
        RowOp::Put(..) => OperationKind::Puts,
        RowOp::Del(..) => OperationKind::Deletes,
        RowOp::CreateTable(..) => OperationKind::Creates,
        RowOp::DropTable(_) => OperationKind::Drops,
        RowOp::CreateDb(_) => OperationKind::CreatesDatabase,
        RowOp::DropDb(_) => OperationKind::DropsDatabase,
    }
}

fn table_of(op: &RowOp) -> Option<&TableName> {
    match op {
        RowOp::Put(table, _) | RowOp::Del(table, _) => Some(table),
        RowOp::CreateTable(table, _) | RowOp::DropTable(table) => Some(table),
        RowOp::CreateDb(_) | RowOp::DropDb(_) => None,
    }
}

/// Whether two operations put into one table or delete from it.
fn is_alike(op: &RowOp, next: &RowOp) -> bool {
    let kind = kind_of(op);
    if kind != kind_of(next) || !matches!(kind, OperationKind::Puts | OperationKind::Deletes) {
        return false;
    }
    match (table_of(op), table_of(next)) {
        (Some(one), Some(other)) => one.db.bytes() == other.db.bytes()
            && one.name.bytes() == other.name.bytes(),
        _ => false,
    }
}

/// Puts an operation, where so many are alike.
fn put_alike<W: Write>(out: &mut W, within: Within, op: &RowOp, count: u64) -> Result<(), Fault> {
    match op {
        RowOp::Put(table, _) => {
            put_count(out, count, "row", "rows")?;
            out.write_all(b" put into ")?;
            put_table(out, within, table)
        }
        RowOp::Del(table, _) => {
            put_count(out, count, "row", "rows")?;
            out.write_all(b" deleted from ")?;
            put_table(out, within, table)
        }
        RowOp::CreateTable(table, columns) => {
            out.write_all(b"table ")?;
            put_table(out, within, table)?;
            out.write_all(b" created with ")?;
            put_count(out, columns.items().len() as u64, "column", "columns")
        }
        RowOp::DropTable(table) => {
            out.write_all(b"table ")?;
            put_table(out, within, table)?;
            Ok(out.write_all(b" dropped")?)
        }
        RowOp::CreateDb(name) => {
            out.write_all(b"database ")?;
            put_plain(out, within, name.bytes())?;
            Ok(out.write_all(b" created")?)
        }
        RowOp::DropDb(name) => {
            out.write_all(b"database ")?;
            put_plain(out, within, name.bytes())?;
            Ok(out.write_all(b" dropped")?)
        }
    }
}
