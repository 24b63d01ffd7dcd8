//! What a statement that changes something does.

ghost use Rattle.std.specs.Prelude.{◌≡◌, [], ◌∷◌, length, IfOk};
ghost use Rattle.qc_sql.specs.Effects.{effect_of};

use qc_sql::tables::{Ops, RowOp};
use qc_types::NoMemory;
use std::alloc::Global;
use std::marker::Model;

/// The operations of a statement, in order, and how many rows it is said to affect.
#[derive(Drop)]
pub struct Effect {
    pub ops: Ops,
    pub affected: u64,
}

impl Model for Effect {
    ghost use Rattle.qc_sql.specs.Effects as meant;

    ghost Value = { meant.Effect };

    ghost view = { λ e. record { operations = e.ops; affected = e.affected } };
}

impl Effect {
    /// The effect of operations each of which is a row that is affected.
    pub(crate) fn of_rows(ops: Ops) -> Effect
        ensures { result ≡ effect_of ops (length ops) }
    {
        Effect {
            affected: ops.items().len() as u64,
            ops,
        }
    }

    /// The effect of one operation alone.
    pub(crate) fn of_one(alloc: Global, op: RowOp, affected: u64) -> Result<Effect, NoMemory>
        ensures { IfOk result (λ e. e ≡ effect_of (op ∷ []) affected) }
    {
        let mut ops = Ops::new(alloc);
        ops.push(op)?;
        Ok(Effect { ops, affected })
    }
}
