//! Events of the journal, from the fields of their lines.

ghost use Rattle.std.specs.Prelude.{◌≡◌, IfOk};
ghost use Rattle.qc_types.specs.Answers.{Gives};
ghost use Rattle.qc_script.specs.Told as told;
ghost use Rattle.qc_script.specs.Told.{Is, behind_two};
ghost use Rattle.qc_script.specs.ShortNames.{HasShortColumns};

use crate::reading::fields::{
    bytes, cut, key, number, number_below, number_of_8, number_of_16, number_of_32, table, tables,
};
use crate::reading::made::Made;
use crate::reading::misspelt::Misspelt;
use crate::reading::operations::operations;
use qc_model::events::{Event, GoneWhy, How, Reason, Who};
use qc_model::shared_ops::SharedOps;
use qc_types::{Or, Totals, Why};
use std::alloc::Global;

/// The event that these fields tell. Linear in them, but for the tables that a commit's rows look up.
#[tactic(auto, unfolding(crate::specs::Told::event_told))]
pub fn event(alloc: Global, made: &mut Made, fields: &[u8]) -> Result<Event, Or<Misspelt>>
    ensures short { IfOk result HasShortColumns }
    ensures told { Gives (λ e. (e, made.new)) (λ e. e) result (told.event_told made.old fields.now) }
{
    let (word, fields) = cut(b' ', fields);
    if word == b"commit".as_slice() {
        return commit(alloc, made, fields);
    }
    Ok(other(alloc, word, fields)?)
}

/// An event that changes no data, by its word.
#[tactic(auto, unfolding(crate::specs::Told::other_told))]
fn other(alloc: Global, word: &[u8], fields: &[u8]) -> Result<Event, Or<Misspelt>>
    ensures short { IfOk result HasShortColumns }
    ensures told { Gives (λ e. e) (λ e. e) result (told.other_told word.now fields.now) }
{
    if word == b"run".as_slice() {
        return run(alloc, fields);
    }
    if word == b"done".as_slice() {
        return Ok(Event::Done {
            serial: number(fields)?,
        });
    }
    if word == b"gone".as_slice() {
        return Ok(gone_event(fields)?);
    }
    if word == b"prune".as_slice() {
        return Ok(prune(fields)?);
    }
    if word == b"reset".as_slice() {
        return Ok(Event::Reset { who: who(fields)? });
    }
    if word == b"flush".as_slice() {
        return Ok(Event::Flush { who: who(fields)? });
    }
    Err(Or::Other(Misspelt))
}

#[tactic(auto, unfolding(crate::specs::Told::run_told))]
fn run(alloc: Global, fields: &[u8]) -> Result<Event, Or<Misspelt>>
    ensures short { IfOk result HasShortColumns }
    ensures told { Gives (λ e. e) (λ e. e) result (told.run_told fields.now) }
{
    let who = who(fields)?;
    let how = how(alloc, behind_two(fields))?;
    Ok(Event::Run { who, how })
}

/// The number of the operations stands in front of them.
#[tactic(auto, unfolding(crate::specs::Told::commit_told))]
fn commit(alloc: Global, made: &mut Made, fields: &[u8]) -> Result<Event, Or<Misspelt>>
    ensures short { IfOk result HasShortColumns }
    ensures told { Gives (λ e. (e, made.new)) (λ e. e) result (told.commit_told made.old fields.now) }
{
    let who = who(fields)?;
    let (_count, list) = cut(b' ', behind_two(fields));
    let ops = operations(alloc, made, list)?;
    Ok(Event::Commit {
        who,
        ops: SharedOps::of(alloc, ops)?,
    })
}

#[tactic(auto, unfolding(crate::specs::Told::gone_event_told))]
fn gone_event(fields: &[u8]) -> Result<Event, Misspelt>
    ensures short { IfOk result HasShortColumns }
    ensures told { Is (λ e. e) result (told.gone_event_told fields.now) }
{
    let (serial, why) = cut(b' ', fields);
    Ok(Event::Gone {
        serial: number(serial)?,
        why: gone(why)?,
    })
}

#[tactic(auto, unfolding(crate::specs::Told::prune_told))]
fn prune(fields: &[u8]) -> Result<Event, Misspelt>
    ensures short { IfOk result HasShortColumns }
    ensures told { Is (λ e. e) result (told.prune_told fields.now) }
{
    let (serial, fields) = cut(b' ', fields);
    let (need, largest) = cut(b' ', fields);
    Ok(Event::Prune {
        serial: number(serial)?,
        need: number_of_32(need)?,
        largest: number_of_32(largest)?,
    })
}

/// What stands behind the first two fields.
fn behind_two(fields: &[u8]) -> &[u8]
    ensures { result.now ≡ behind_two fields.now }
{
    let (_first, fields) = cut(b' ', fields);
    let (_second, fields) = cut(b' ', fields);
    fields
}

/// A session, and the number of its event.
#[tactic(auto, unfolding(crate::specs::Told::who_told))]
fn who(fields: &[u8]) -> Result<Who, Misspelt>
    ensures { Is (λ w. w) result (told.who_told fields.now) }
{
    let (session, fields) = cut(b' ', fields);
    let (event_number, _behind) = cut(b' ', fields);
    Ok(Who {
        session: number_of_8(session)?,
        number: number(event_number)?,
    })
}

#[tactic(auto, unfolding(crate::specs::Told::how_told))]
fn how(alloc: Global, fields: &[u8]) -> Result<How, Or<Misspelt>>
    ensures { Gives (λ h. h) (λ e. e) result (told.how_told fields.now) }
{
    let (word, fields) = cut(b' ', fields);
    if word == b"hit".as_slice() {
        return Ok(How::Hit(number(fields)?));
    }
    if word == b"start".as_slice() {
        return start(alloc, fields);
    }
    if word == b"plain".as_slice() {
        return Ok(How::Plain(reason(alloc, fields)?));
    }
    if word == b"other".as_slice() {
        return Ok(How::Other);
    }
    if word == b"status".as_slice() {
        return Ok(How::Status(totals(fields)?));
    }
    if word == b"conflict".as_slice() {
        return conflict(alloc, fields);
    }
    Err(Or::Other(Misspelt))
}

#[tactic(auto, unfolding(crate::specs::Told::start_told))]
fn start(alloc: Global, fields: &[u8]) -> Result<How, Or<Misspelt>>
    ensures { Gives (λ h. h) (λ e. e) result (told.start_told fields.now) }
{
    let (serial, fields) = cut(b' ', fields);
    let (key, list) = cut(b' ', fields);
    Ok(How::Start {
        serial: number(serial)?,
        key: bytes(alloc, key)?,
        tables: tables(alloc, list)?,
    })
}

#[tactic(auto, unfolding(crate::specs::Told::conflict_told))]
fn conflict(alloc: Global, fields: &[u8]) -> Result<How, Or<Misspelt>>
    ensures { Gives (λ h. h) (λ e. e) result (told.conflict_told fields.now) }
{
    let (name, fields) = cut(b' ', fields);
    let (row, by) = cut(b' ', fields);
    Ok(How::Conflict {
        table: table(alloc, name)?,
        key: key(row)?,
        by: number(by)?,
    })
}

#[tactic(auto, unfolding(crate::specs::Told::reason_told))]
fn reason(alloc: Global, fields: &[u8]) -> Result<Reason, Or<Misspelt>>
    ensures { Gives (λ r. r) (λ e. e) result (told.reason_told fields.now) }
{
    let (word, fields) = cut(b' ', fields);
    if word == b"error".as_slice() {
        return Ok(Reason::Error(number_of_16(fields)?));
    }
    if word == b"off".as_slice() {
        return Ok(Reason::Off);
    }
    if word == b"notasked".as_slice() {
        return Ok(Reason::NotAsked);
    }
    if word == b"written".as_slice() {
        return Ok(Reason::Written(table(alloc, fields)?));
    }
    if word == b"notvisible".as_slice() {
        return not_visible(alloc, fields);
    }
    if word == b"rival".as_slice() {
        return Ok(Reason::Rival(number(fields)?));
    }
    if word == b"noroom".as_slice() {
        let (need, largest) = cut(b' ', fields);
        return Ok(Reason::NoRoom {
            need: number_of_32(need)?,
            largest: number_of_32(largest)?,
        });
    }
    Ok(Reason::Rule(why(alloc, word, fields)?))
}

#[tactic(auto, unfolding(crate::specs::Told::not_visible_told))]
fn not_visible(alloc: Global, fields: &[u8]) -> Result<Reason, Or<Misspelt>>
    ensures { Gives (λ r. r) (λ e. e) result (told.not_visible_told fields.now) }
{
    let (name, fields) = cut(b' ', fields);
    let (changed, snapshot) = cut(b' ', fields);
    Ok(Reason::NotVisible {
        table: table(alloc, name)?,
        changed: number(changed)?,
        snapshot: number(snapshot)?,
    })
}

#[tactic(auto, unfolding(crate::specs::Told::why_told))]
fn why(alloc: Global, word: &[u8], fields: &[u8]) -> Result<Why, Or<Misspelt>>
    ensures { Gives (λ y. y) (λ e. e) result (told.why_told word.now fields.now) }
{
    if word == b"locking".as_slice() {
        return Ok(Why::Locking);
    }
    if word == b"notables".as_slice() {
        return Ok(Why::NoTables);
    }
    if word == b"systemtable".as_slice() {
        return Ok(Why::SystemTable(table(alloc, fields)?));
    }
    if word == b"function".as_slice() {
        return Ok(Why::Function(bytes(alloc, fields)?));
    }
    Err(Or::Other(Misspelt))
}

#[tactic(auto, unfolding(crate::specs::Told::gone_told))]
fn gone(fields: &[u8]) -> Result<GoneWhy, Misspelt>
    ensures { Is (λ y. y) result (told.gone_told fields.now) }
{
    let (word, fields) = cut(b' ', fields);
    let (first, second) = cut(b' ', fields);
    if word == b"toolarge".as_slice() {
        return Ok(GoneWhy::TooLarge {
            length: number(first)?,
            limit: number_of_32(second)?,
        });
    }
    if word == b"noroom".as_slice() {
        return Ok(GoneWhy::NoRoom {
            need: number_of_32(first)?,
            largest: number_of_32(second)?,
        });
    }
    if word == b"ended".as_slice() {
        return Ok(GoneWhy::Ended);
    }
    Err(Misspelt)
}

/// The blocks, the free blocks and the free bytes, which are 8 for each free word.
#[tactic(auto, unfolding(crate::specs::Told::totals_told))]
fn totals(fields: &[u8]) -> Result<Totals, Misspelt>
    ensures { Is (λ t. t) result (told.totals_told fields.now) }
{
    let (blocks, fields) = cut(b' ', fields);
    let (free_blocks, free_bytes) = cut(b' ', fields);
    Ok(Totals {
        blocks: number_of_32(blocks)?,
        free_blocks: number_of_32(free_blocks)?,
        free_words: (number_below(1 << 35, free_bytes)? / 8) as u32,
    })
}
