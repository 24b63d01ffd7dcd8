//! Texts that are joined for a comparison.

ghost use Rattle.std.specs.Prelude.{◌≡◌, map};
ghost use Rattle.qc_sql.specs.Rows.{concat_texts, concat_value, text_of};
ghost use Rattle.qc_table.specs.Views.{text_value};
ghost use Rattle.qc_eval.specs.Chosen.{HasRows, value_in};
ghost use Rattle.qc_eval.specs.Values.{cell_value};

use crate::buffer::TextBuffer;
use crate::scene::Scene;
use crate::texts::append_all;
use crate::values::MOST_TEXT;
use qc_resolve::Formula;
use qc_sql::cells::Cell;
use qc_types::{NoMemory, Steps};
use std::alloc::Global;
use std::marker::Model;
use std::sync::ledger::Ledger;

/// A joined text or NULL, in memory that holds the longest. Contracts see it as that.
#[derive(Drop)]
pub struct JoinBuffer {
    buffer: TextBuffer,
    there: bool,
}

impl Model for JoinBuffer {
    ghost use Rattle.std.specs.Prelude.{ℕ, ◌≤◌, List, Option, Some, None, if◌then◌else◌};

    ghost Value = { Option (List ℕ) };

    ghost view = { λ j. if j.there then Some j.buffer.bytes else None };

    ghost invariant = { λ j. 65535 ≤ j.buffer.capacity };
}

impl JoinBuffer {
    pub fn new(alloc: Global) -> Result<JoinBuffer, NoMemory> {
        Ok(JoinBuffer {
            buffer: TextBuffer::new(alloc, MOST_TEXT)?,
            there: false,
        })
    }

    /// Joins the texts of these formulas' values.
    pub fn join<L: Ledger>(&mut self, scene: &Scene<'_>, parts: &[Formula], steps: &mut Steps<L>)
        requires { HasRows scene.now }
        ensures { self.new ≡ text_of (concat_value (concat_texts (map (value_in scene.now) parts.now))) }
    {
        self.buffer.truncate(0);
        self.there = append_all(scene, parts, MOST_TEXT, &mut self.buffer, steps);
    }

    pub fn cell(&self) -> Cell<'_>
        ensures { cell_value result ≡ text_value self.now }
    {
        if self.there {
            Cell::Str(self.buffer.bytes())
        } else {
            Cell::Null
        }
    }
}
