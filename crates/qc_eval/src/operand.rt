//! Operands of comparisons.

ghost use Rattle.std.specs.Prelude.{◌≡◌};
ghost use Rattle.qc_eval.specs.Chosen.{HasRows, value_in};
ghost use Rattle.qc_eval.specs.Operands.{operand_value};
ghost use Rattle.qc_eval.specs.Values.{cell_value};

use crate::joined::JoinBuffer;
use crate::scene::Scene;
use crate::sizes::size;
use crate::values::{length_cell, literal, present_cell};
use qc_resolve::Formula;
use qc_sql::cells::Cell;
use qc_types::Steps;
use std::sync::ledger::Ledger;

/// A value that is compared.
#[derive(Clone, Copy)]
pub enum Operand<'a> {
    Plain(Cell<'a>),
    /// The text that a buffer holds.
    Joined,
}

/// The value of an operand, which may stand in a buffer.
pub fn cell_of<'a>(operand: Operand<'a>, joined: &'a JoinBuffer) -> Cell<'a>
    ensures { cell_value result ≡ operand_value joined.now operand.entry }
{
    match operand {
        Operand::Plain(cell) => cell,
        Operand::Joined => joined.cell(),
    }
}

/// The value of a formula, of which a joined text stands in the buffer. Linear in the formula and in the texts that it joins.
#[tactic(auto, using(qc_resolve::specs::Folding::formula_laws, crate::proofs::Joins::sizes_tell))]
pub fn operand_of<'a, L: Ledger>(
    scene: &Scene<'a>,
    formula: &'a Formula,
    joined: &mut JoinBuffer,
    steps: &mut Steps<L>,
) -> Operand<'a>
    requires { HasRows scene.now }
    ensures { operand_value joined.new result ≡ value_in scene.now formula.now }
{
    match formula {
        Formula::Column(place) => Operand::Plain(scene.read(*place, steps)),
        Formula::Folded(index) => Operand::Plain(scene.folded(*index)),
        Formula::Literal(value) => Operand::Plain(literal(value)),
        Formula::Present(inner) => Operand::Plain(present_cell(size(scene, inner.get(), steps))),
        Formula::Length(inner) => Operand::Plain(length_cell(size(scene, inner.get(), steps))),
        Formula::Concat(parts) => {
            joined.join(scene, parts.items(), steps);
            Operand::Joined
        }
    }
}
