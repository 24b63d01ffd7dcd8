//! Memory for the values of a row of the result.

ghost use Rattle.std.specs.Prelude.{◌≡◌, map, IfOk};
ghost use Rattle.qc_eval.specs.Buffers.{Hold};
ghost use Rattle.qc_eval.specs.Chosen.{HasRows, folded_of, value_in};

use crate::item::{ItemBuffer, room_of};
use crate::scene::Scene;
use qc_resolve::Formula;
use qc_types::{NoMemory, Steps};
use std::alloc::Global;
use std::sync::ledger::Ledger;

/// A buffer for each item, with room for the longest text that it may have. Linear in the items, besides that room.
pub fn buffers(
    alloc: Global,
    scene: &Scene<'_>,
    items: &[Formula],
) -> Result<Vec<ItemBuffer>, NoMemory>
    ensures { IfOk result (λ row. Hold scene.now.tables.now (folded_of scene.now) items.now row.items) }
{
    let mut row = Vec::new(alloc);
    for item in items {
        row.push(ItemBuffer::new(alloc, room_of(scene, item))?)?;
    }
    Ok(row)
}

/// Takes the value of each item.
pub fn fill<L: Ledger>(
    row: &mut Vec<ItemBuffer>,
    items: &[Formula],
    scene: &Scene<'_>,
    steps: &mut Steps<L>,
)
    requires rows { HasRows scene.now }
    requires hold { Hold scene.now.tables.now (folded_of scene.now) items.now row.old.items }
    ensures hold { Hold scene.now.tables.now (folded_of scene.now) items.now row.new.items }
    ensures values { map (λ b. b.value) row.new.items ≡ map (value_in scene.now) items.now }
{
    for index in 0..items.len() {
        row[index].take(scene, &items[index], steps);
    }
}
