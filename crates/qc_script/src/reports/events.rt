//! Events of the journal. What follows the first field of a line is put with a space before each field.

ghost use Rattle.std.specs.Prelude.{◌≡◌, ◌+◌, ◌<◌, ◌^◌, ◌*◌, ◌++◌, ◌∷◌, [], map, decimal, codes, OnOk};
ghost use Rattle.qc_model.specs.ReportText.{who_fields, why_fields, reason_fields, how_fields, gone_fields, event_fields, key_text, listed, table_text};
ghost use Rattle.qc_script.specs.ReportParts.{spaced};
ghost use Rattle.qc_script.specs.ShortNames.{HasShortColumns};

use crate::reports::fields::{
    put_bytes, put_number, put_pair, put_signed, put_table, put_word, put_word_of_pair,
    put_word_of_table,
};
use crate::reports::operations::put_operations;
use qc_model::events::{Event, GoneWhy, How, Reason, Who};
use qc_types::{NoMemory, TableName, Text, Totals, Why};
use std::alloc::Global;

/// Puts the fields of an event. It takes time linear in their text.
pub fn put_event(alloc: Global, event: &Event, out: &mut Text) -> Result<(), NoMemory>
    requires { HasShortColumns event.now }
    ensures { OnOk result (out.new ≡ out.old ++ spaced (event_fields event.now)) }
{
    match event {
        Event::Run { who, how } => {
            put_word_of_who(alloc, b"run", *who, out)?;
            put_how(alloc, how, out)
        }
        Event::Commit { who, ops } => {
            put_word_of_who(alloc, b"commit", *who, out)?;
            put_number(alloc, ops.items().len() as u64, out)?;
            out.extend(b" ")?;
            put_operations(alloc, ops.items(), out)
        }
        Event::Done { serial } => {
            put_word(b"done", out)?;
            put_number(alloc, *serial, out)
        }
        Event::Gone { serial, why } => {
            put_word(b"gone", out)?;
            put_number(alloc, *serial, out)?;
            put_gone(alloc, *why, out)
        }
        Event::Prune {
            serial,
            need,
            largest,
        } => {
            put_word(b"prune", out)?;
            put_number(alloc, *serial, out)?;
            put_pair(alloc, *need as u64, *largest as u64, out)
        }
        Event::Reset { who } => put_word_of_who(alloc, b"reset", *who, out),
        Event::Flush { who } => put_word_of_who(alloc, b"flush", *who, out),
    }
}

// A word, a session and the number of its event.
fn put_word_of_who(alloc: Global, word: &[u8], who: Who, out: &mut Text) -> Result<(), NoMemory>
    ensures { OnOk result (out.new ≡ out.old ++ spaced (word.now ∷ who_fields who)) }
{
    put_word_of_pair(alloc, word, who.session as u64, who.number, out)
}

fn put_how(alloc: Global, how: &How, out: &mut Text) -> Result<(), NoMemory>
    ensures { OnOk result (out.new ≡ out.old ++ spaced (how_fields how.now)) }
{
    match how {
        How::Hit(serial) => {
            put_word(b"hit", out)?;
            put_number(alloc, *serial, out)
        }
        How::Start {
            serial,
            key,
            tables,
        } => {
            put_word(b"start", out)?;
            put_number(alloc, *serial, out)?;
            put_bytes(alloc, key.bytes(), out)?;
            put_tables(alloc, tables.items(), out)
        }
        How::Plain(reason) => {
            put_word(b"plain", out)?;
            put_reason(alloc, reason, out)
        }
        How::Other => put_word(b"other", out),
        How::Status(totals) => {
            put_word(b"status", out)?;
            put_totals(alloc, *totals, out)
        }
        How::Conflict { table, key, by } => {
            put_word_of_table(alloc, b"conflict", table, out)?;
            put_key(alloc, *key, out)?;
            put_number(alloc, *by, out)
        }
    }
}

fn put_reason(alloc: Global, reason: &Reason, out: &mut Text) -> Result<(), NoMemory>
    ensures { OnOk result (out.new ≡ out.old ++ spaced (reason_fields reason.now)) }
{
    match reason {
        Reason::Error(code) => {
            put_word(b"error", out)?;
            put_number(alloc, *code as u64, out)
        }
        Reason::Off => put_word(b"off", out),
        Reason::NotAsked => put_word(b"notasked", out),
        Reason::Rule(why) => put_why(alloc, why, out),
        Reason::Written(table) => put_word_of_table(alloc, b"written", table, out),
        Reason::NotVisible {
            table,
            changed,
            snapshot,
        } => {
            put_word_of_table(alloc, b"notvisible", table, out)?;
            put_pair(alloc, *changed, *snapshot, out)
        }
        Reason::Rival(serial) => {
            put_word(b"rival", out)?;
            put_number(alloc, *serial, out)
        }
        Reason::NoRoom { need, largest } => {
            put_word_of_pair(alloc, b"noroom", *need as u64, *largest as u64, out)
        }
    }
}

fn put_why(alloc: Global, why: &Why, out: &mut Text) -> Result<(), NoMemory>
    ensures { OnOk result (out.new ≡ out.old ++ spaced (why_fields why.now)) }
{
    match why {
        Why::Locking => put_word(b"locking", out),
        Why::NoTables => put_word(b"notables", out),
        Why::SystemTable(table) => put_word_of_table(alloc, b"systemtable", table, out),
        Why::Function(name) => {
            put_word(b"function", out)?;
            put_bytes(alloc, name.bytes(), out)
        }
    }
}

fn put_gone(alloc: Global, why: GoneWhy, out: &mut Text) -> Result<(), NoMemory>
    ensures { OnOk result (out.new ≡ out.old ++ spaced (gone_fields why)) }
{
    match why {
        GoneWhy::TooLarge { length, limit } => {
            put_word_of_pair(alloc, b"toolarge", length, limit as u64, out)
        }
        GoneWhy::NoRoom { need, largest } => {
            put_word_of_pair(alloc, b"noroom", need as u64, largest as u64, out)
        }
        GoneWhy::Ended => put_word(b"ended", out),
    }
}

// The blocks, the free blocks and the free bytes.
fn put_totals(alloc: Global, totals: Totals, out: &mut Text) -> Result<(), NoMemory>
    ensures { OnOk result (out.new ≡ out.old ++ spaced (decimal totals.blocks ∷ decimal totals.free_blocks ∷ decimal (8 * totals.free_words) ∷ [])) }
{
    put_pair(alloc, totals.blocks as u64, totals.free_blocks as u64, out)?;
    put_number(alloc, 8 * totals.free_words as u64, out)
}

fn put_key(alloc: Global, key: Option<i64>, out: &mut Text) -> Result<(), NoMemory>
    ensures { OnOk result (out.new ≡ out.old ++ 32 ∷ key_text key) }
{
    out.extend(b" ")?;
    match key {
        None => out.extend(b"-"),
        Some(number) => put_signed(alloc, number, out),
    }
}

// A space and tables, with a comma between two.
fn put_tables(alloc: Global, tables: &[TableName], out: &mut Text) -> Result<(), NoMemory>
    ensures { OnOk result (out.new ≡ out.old ++ 32 ∷ listed (map table_text tables.now)) }
{
    out.extend(b" ")?;
    if let Some((first, others)) = tables.split_first() {
        put_table(alloc, first, out)?;
        for table in others {
            out.extend(b",")?;
            put_table(alloc, table, out)?;
        }
    }
    Ok(())
}
