//! How long the texts of formulas are.

ghost use Rattle.std.specs.Prelude.{◌≡◌, map, option_map, pos};
ghost use Rattle.qc_resolve.specs.Meaning.{formula_value};
ghost use Rattle.qc_sql.specs.Rows.{concat_texts, concat_value};
ghost use Rattle.qc_eval.specs.Chosen.{HasRows, value_in};
ghost use Rattle.qc_eval.specs.Texts.{text_size};

use crate::scene::Scene;
use crate::values::{MOST_TEXT, cell_size, length_cell, literal};
use qc_resolve::Formula;
use qc_types::Steps;
use std::sync::ledger::Ledger;

/// How many bytes the text of a formula's value has; none: it is NULL. Linear in the formula and in the texts that it reads.
#[tactic(auto, using(qc_resolve::specs::Folding::formula_laws))]
#[cycle(sizes)]
pub fn size<L: Ledger>(scene: &Scene<'_>, formula: &Formula, steps: &mut Steps<L>) -> Option<usize>
    requires { HasRows scene.now }
    ensures { result ≡ text_size (value_in scene.now formula.now) }
{
    match formula {
        Formula::Column(place) => cell_size(scene.read(*place, steps)),
        Formula::Folded(index) => cell_size(scene.folded(*index)),
        Formula::Literal(value) => cell_size(literal(value)),
        Formula::Present(_) => Some(1),
        Formula::Length(inner) => cell_size(length_cell(size(scene, inner.get(), steps))),
        Formula::Concat(parts) => joined_size(scene, parts.items(), steps),
    }
}

/// How many bytes the texts of these formulas have together; none: one of them is NULL, or they are too long.
#[cycle(sizes)]
fn joined_size<L: Ledger>(
    scene: &Scene<'_>,
    parts: &[Formula],
    steps: &mut Steps<L>,
) -> Option<usize>
    requires { HasRows scene.now }
    ensures { result ≡ text_size (concat_value (concat_texts (map (value_in scene.now) parts.now))) }
{
    let mut total = 0;
    for part in parts {
        let more = size(scene, part, steps)?;
        if more > MOST_TEXT - total {
            return None;
        }
        total += more;
    }
    Some(total)
}
