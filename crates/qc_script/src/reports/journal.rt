//! The journal of a report.

ghost use Rattle.std.specs.Prelude.{◌≡◌, ◌+◌, ◌++◌, ◌∷◌, [], decimal, OnOk};
ghost use Rattle.std.specs.List.{All};
ghost use Rattle.qc_model.specs.ReportText.{lines, fields, event_fields};
ghost use Rattle.qc_script.specs.ReportParts.{journal_part};
ghost use Rattle.qc_script.specs.ShortNames.{HasShortColumns};

use crate::reports::events::put_event;
use crate::reports::fields::{put_count, put_digits};
use qc_model::events::Event;
use qc_types::{NoMemory, Text};
use std::alloc::Global;

/// Puts how many events there are, and the line of each. It takes time linear in the lines.
pub fn put_journal(alloc: Global, events: &[Event], out: &mut Text) -> Result<(), NoMemory>
    requires { All HasShortColumns events.now }
    ensures { OnOk result (out.new ≡ out.old ++ lines (journal_part events.now)) }
{
    put_count(alloc, b"journal", events.len(), out)?;
    for (index, event) in events.iter().enumerate() {
        put_line(alloc, index as u64 + 1, event, out)?;
    }
    Ok(())
}

/// Puts the line of an event, by its number.
#[tactic(auto, using(crate::proofs::Joined::joined))]
pub fn put_line(alloc: Global, number: u64, event: &Event, out: &mut Text) -> Result<(), NoMemory>
    requires { HasShortColumns event.now }
    ensures { OnOk result (out.new ≡ out.old ++ lines (fields (decimal number ∷ event_fields event.now) ∷ [])) }
{
    put_digits(alloc, number, out)?;
    put_event(alloc, event, out)?;
    out.extend(b"\n")
}
