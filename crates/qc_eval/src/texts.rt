//! Texts of formulas, put into a buffer.

ghost use Rattle.std.specs.Prelude.{◌≡◌, ◌+◌, ◌≤◌, length, map, Some};
ghost use Rattle.qc_sql.specs.Rows.{concat_texts, text_of};
ghost use Rattle.qc_eval.specs.Chosen.{HasRows, value_in};
ghost use Rattle.qc_eval.specs.Texts.{Puts};
ghost use Rattle.qc_eval.specs.Values.{cell_value};

use crate::buffer::TextBuffer;
use crate::scene::Scene;
use crate::sizes::size;
use crate::values::{length_cell, literal, present_cell};
use itoa::Buffer;
use qc_resolve::Formula;
use qc_sql::cells::Cell;
use qc_types::Steps;
use std::sync::ledger::Ledger;

/// Puts the text of a formula's value behind a buffer, and says whether it is there: it isn't where the value is NULL or has more than `room` bytes, and
/// then some prefix of it may have been put. Linear in the formula and in the texts that it reads.
#[tactic(auto, using(qc_resolve::specs::Folding::formula_laws))]
#[cycle(texts)]
pub fn append<L: Ledger>(
    scene: &Scene<'_>,
    formula: &Formula,
    room: usize,
    out: &mut TextBuffer,
    steps: &mut Steps<L>,
) -> bool
    requires rows { HasRows scene.now }
    requires most { room ≤ 65535 }
    requires fits { length out.old.bytes + room ≤ out.old.capacity }
    ensures { Puts (text_of (value_in scene.now formula.now)) room result out.old out.new }
{
    match formula {
        Formula::Column(place) => put_cell(scene.read(*place, steps), room, out),
        Formula::Folded(index) => put_cell(scene.folded(*index), room, out),
        Formula::Literal(value) => put_cell(literal(value), room, out),
        Formula::Present(inner) => {
            put_cell(present_cell(size(scene, inner.get(), steps)), room, out)
        }
        Formula::Length(inner) => {
            put_cell(length_cell(size(scene, inner.get(), steps)), room, out)
        }
        Formula::Concat(parts) => append_all(scene, parts.items(), room, out, steps),
    }
}

/// The same for the texts of several formulas, joined.
#[cycle(texts)]
pub fn append_all<L: Ledger>(
    scene: &Scene<'_>,
    parts: &[Formula],
    room: usize,
    out: &mut TextBuffer,
    steps: &mut Steps<L>,
) -> bool
    requires rows { HasRows scene.now }
    requires most { room ≤ 65535 }
    requires fits { length out.old.bytes + room ≤ out.old.capacity }
    ensures { Puts (concat_texts (map (value_in scene.now) parts.now)) room result out.old out.new }
{
    let mut left = room;
    for part in parts {
        let before = out.len();
        if !append(scene, part, left, out, steps) {
            return false;
        }
        left -= out.len() - before;
    }
    true
}

/// The same for a cell.
fn put_cell(cell: Cell<'_>, room: usize, out: &mut TextBuffer) -> bool
    requires { length out.old.bytes + room ≤ out.old.capacity }
    ensures { Puts (text_of (cell_value cell.entry)) room result out.old out.new }
{
    match cell {
        Cell::Null => false,
        Cell::Int(number) => put_text(Buffer::new().format(number).as_bytes(), room, out),
        Cell::Wide(number) => put_text(Buffer::new().format(number).as_bytes(), room, out),
        Cell::Str(text) => put_text(text, room, out),
    }
}

fn put_text(text: &[u8], room: usize, out: &mut TextBuffer) -> bool
    requires { length out.old.bytes + room ≤ out.old.capacity }
    ensures { Puts (Some text.now) room result out.old out.new }
{
    if text.len() > room {
        return false;
    }
    out.put(text);
    true
}
