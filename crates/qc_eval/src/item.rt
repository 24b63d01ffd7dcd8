//! The value of an item of the result.

ghost use Rattle.std.specs.Prelude.{◌≡◌, ◌≤◌, map, IfOk};
ghost use Rattle.qc_sql.specs.Rows.{concat_texts, concat_value};
ghost use Rattle.qc_eval.specs.Chosen.{HasRows, folded_of, value_in};
ghost use Rattle.qc_eval.specs.Rooms.{text_room, value_room};
ghost use Rattle.qc_eval.specs.Values.{cell_value};

use crate::buffer::TextBuffer;
use crate::scene::Scene;
use crate::sizes::size;
use crate::texts::append_all;
use crate::values::{MOST_TEXT, length_cell, literal, present_cell};
use qc_resolve::Formula;
use qc_sql::cells::Cell;
use qc_types::{NoMemory, Steps};
use std::alloc::Global;
use std::marker::Model;
use std::sync::ledger::Ledger;

/// The form of a value, whose text stands apart.
#[derive(Clone, Copy)]
pub enum Form {
    Null,
    Int(i64),
    Wide(i128),
    Str,
}

/// A value of its own, in memory that holds a text of so many bytes.
#[derive(Drop)]
pub struct ItemBuffer {
    form: Form,
    text: TextBuffer,
}

impl Model for ItemBuffer {
    ghost use Rattle.qc_eval.specs.Shown.{Shown, form_value};

    ghost Value = { Shown };

    ghost view = { λ b. record { value = form_value b.form b.text.bytes; capacity = b.text.capacity } };
}

impl ItemBuffer {
    /// NULL, with room for a text of so many bytes.
    pub fn new(alloc: Global, capacity: usize) -> Result<ItemBuffer, NoMemory>
        ensures { IfOk result (λ b. capacity ≤ b.capacity) }
    {
        Ok(ItemBuffer {
            form: Form::Null,
            text: TextBuffer::new(alloc, capacity)?,
        })
    }

    /// Takes a formula's value.
    #[tactic(auto, using(qc_resolve::specs::Folding::formula_laws))]
    pub fn take<L: Ledger>(&mut self, scene: &Scene<'_>, formula: &Formula, steps: &mut Steps<L>)
        requires rows { HasRows scene.now }
        requires room { text_room scene.now.tables.now (folded_of scene.now) formula.now ≤ self.old.capacity }
        ensures value { self.new.value ≡ value_in scene.now formula.now }
        ensures capacity { self.old.capacity ≤ self.new.capacity }
    {
        match formula {
            Formula::Column(place) => self.keep(scene.read(*place, steps)),
            Formula::Folded(index) => self.keep(scene.folded(*index)),
            Formula::Literal(value) => self.keep(literal(value)),
            Formula::Present(inner) => self.keep(present_cell(size(scene, inner.get(), steps))),
            Formula::Length(inner) => self.keep(length_cell(size(scene, inner.get(), steps))),
            Formula::Concat(parts) => self.join(scene, parts.items(), steps),
        }
    }

    fn join<L: Ledger>(&mut self, scene: &Scene<'_>, parts: &[Formula], steps: &mut Steps<L>)
        requires rows { HasRows scene.now }
        requires room { 65535 ≤ self.old.capacity }
        ensures value { self.new.value ≡ concat_value (concat_texts (map (value_in scene.now) parts.now)) }
        ensures capacity { self.old.capacity ≤ self.new.capacity }
    {
        self.text.truncate(0);
        self.form = if append_all(scene, parts, MOST_TEXT, &mut self.text, steps) {
            Form::Str
        } else {
            Form::Null
        };
    }

    fn keep(&mut self, cell: Cell<'_>)
        requires { value_room (cell_value cell) ≤ self.old.capacity }
        ensures value { self.new.value ≡ cell_value cell.entry }
        ensures capacity { self.old.capacity ≤ self.new.capacity }
    {
        self.form = match cell {
            Cell::Null => Form::Null,
            Cell::Int(number) => Form::Int(number),
            Cell::Wide(number) => Form::Wide(number),
            Cell::Str(text) => {
                self.text.truncate(0);
                self.text.put(text);
                Form::Str
            }
        };
    }

    pub fn cell(&self) -> Cell<'_>
        ensures { cell_value result ≡ self.now.value }
    {
        match self.form {
            Form::Null => Cell::Null,
            Form::Int(number) => Cell::Int(number),
            Form::Wide(number) => Cell::Wide(number),
            Form::Str => Cell::Str(self.text.bytes()),
        }
    }
}

/// The longest text that a formula may have, in bytes. Constant time.
#[tactic(auto, using(qc_resolve::specs::Folding::formula_laws))]
pub fn room_of(scene: &Scene<'_>, formula: &Formula) -> usize
    ensures { result ≡ text_room scene.now.tables.now (folded_of scene.now) formula.now }
{
    match formula {
        Formula::Column(place) => scene.room(*place),
        Formula::Folded(index) => cell_room(scene.folded(*index)),
        Formula::Literal(value) => cell_room(literal(value)),
        Formula::Present(_) => 0,
        Formula::Length(_) => 0,
        Formula::Concat(_) => MOST_TEXT,
    }
}

fn cell_room(cell: Cell<'_>) -> usize
    ensures { result ≡ value_room (cell_value cell.entry) }
{
    match cell {
        Cell::Str(text) => text.len(),
        Cell::Null => 0,
        Cell::Int(_) => 0,
        Cell::Wide(_) => 0,
    }
}
