//! Events once more. What commits carried out is shared, since it may be long; all else has memory of its own.

ghost use Rattle.std.specs.Prelude.{◌≡◌, IfOk};

use qc_model::events::{Event, How, Reason};
use qc_types::{Duplicate, NoMemory, OwnedList};
use std::alloc::Global;

/// What `Duplicate` is to the types of the crates below, which say nothing of their copies.
pub(crate) trait Replicate: Drop {
    /// An equal value, or an error where memory lacks. Takes time and memory linear in the value's size.
    fn replicate(&self, alloc: Global) -> Result<Self, NoMemory>
        ensures { IfOk result (λ replica. replica ≡ self.now) };
}

/// Equal values in their order. Linear in what they hold.
pub(crate) fn replicas<T: Replicate>(alloc: Global, items: &[T]) -> Result<OwnedList<T>, NoMemory>
    ensures { IfOk result (λ list. list ≡ items.now) }
{
    let mut list = OwnedList::new(alloc);
    for item in items {
        list.push(item.replicate(alloc)?)?;
    }
    Ok(list)
}

/// An equal reason, in memory of its own. Linear in its size.
pub fn copy_of_reason(alloc: Global, reason: &Reason) -> Result<Reason, NoMemory>
    ensures { IfOk result (λ copy. copy ≡ reason.now) }
{
    reason.replicate(alloc)
}

impl Replicate for Reason {
    fn replicate(&self, alloc: Global) -> Result<Reason, NoMemory> {
        match self {
            Reason::Error(code) => Ok(Reason::Error(*code)),
            Reason::Off => Ok(Reason::Off),
            Reason::NotAsked => Ok(Reason::NotAsked),
            Reason::Rule(why) => Ok(Reason::Rule(why.duplicate(alloc)?)),
            Reason::Written(table) => Ok(Reason::Written(table.duplicate(alloc)?)),
            Reason::NotVisible {
                table,
                changed,
                snapshot,
            } => Ok(Reason::NotVisible {
                table: table.duplicate(alloc)?,
                changed: *changed,
                snapshot: *snapshot,
            }),
            Reason::Rival(serial) => Ok(Reason::Rival(*serial)),
            Reason::NoRoom { need, largest } => Ok(Reason::NoRoom {
                need: *need,
                largest: *largest,
            }),
        }
    }
}

impl Replicate for How {
    fn replicate(&self, alloc: Global) -> Result<How, NoMemory> {
        match self {
            How::Hit(serial) => Ok(How::Hit(*serial)),
            How::Start {
                serial,
                key,
                tables,
            } => Ok(How::Start {
                serial: *serial,
                key: key.copy(alloc)?,
                tables: tables.copy(alloc)?,
            }),
            How::Plain(reason) => Ok(How::Plain(reason.replicate(alloc)?)),
            How::Other => Ok(How::Other),
            How::Status(totals) => Ok(How::Status(*totals)),
            How::Conflict { table, key, by } => Ok(How::Conflict {
                table: table.duplicate(alloc)?,
                key: *key,
                by: *by,
            }),
        }
    }
}

impl Replicate for Event {
    fn replicate(&self, alloc: Global) -> Result<Event, NoMemory> {
        match self {
            Event::Run { who, how } => Ok(Event::Run {
                who: *who,
                how: how.replicate(alloc)?,
            }),
            Event::Commit { who, ops } => Ok(Event::Commit {
                who: *who,
                ops: ops.share()?,
            }),
            Event::Done { serial } => Ok(Event::Done { serial: *serial }),
            Event::Gone { serial, why } => Ok(Event::Gone {
                serial: *serial,
                why: *why,
            }),
            Event::Prune {
                serial,
                need,
                largest,
            } => Ok(Event::Prune {
                serial: *serial,
                need: *need,
                largest: *largest,
            }),
            Event::Reset { who } => Ok(Event::Reset { who: *who }),
            Event::Flush { who } => Ok(Event::Flush { who: *who }),
        }
    }
}
