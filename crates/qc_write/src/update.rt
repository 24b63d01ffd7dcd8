//! UPDATE.

ghost use Rattle.std.specs.Prelude.{◌≡◌};
ghost use Rattle.qc_types.specs.Answers.{Gives};
ghost use Rattle.qc_sql.specs.Effects as meant;
ghost use Rattle.qc_write.specs.Placing.{update_validated};
ghost use Rattle.qc_write.specs.Targets.{bound_of};

use crate::assigned_rows::put_rows;
use crate::assignments::place_all;
use crate::outcome::Effect;
use crate::target::{Target, bind_target};
use qc_eval::matching_rows;
use qc_sql::statements::Update;
use qc_table::Database;
use qc_types::{Or, SqlError, Steps};
use std::alloc::Global;
use std::sync::ledger::Ledger;

/// What UPDATE does: a Put of each row that changes, by rising key; it affects so many rows. Refused with 1046, 1049 and 1146; assignment by assignment
/// with 1054 for its column, with 1235 where that is the key, with 1054 for the column on its right side and with 1235 for a text beside a number; with
/// what the condition is refused with; and then row by row, and assignment by assignment, with 1048 and 1406. The assignments of a row go from left to
/// right, and see what those before them set. Linear in the rows times the condition, and in the rows that the condition keeps times the columns and the
/// assignments, with the texts that are copied.
pub(crate) fn update<L: Ledger>(
    alloc: Global,
    database: &Database,
    db: &[u8],
    session: u8,
    update: &Update,
    steps: &mut Steps<L>,
) -> Result<Effect, Or<SqlError>>
    ensures { Gives (λ e. e) (λ e. e) result (meant.update_effect database.now db.now session update.now) }
{
    let target = bind_target(alloc, database, db, &update.table)?;
    update_in(alloc, &target, db, session, update, steps)
}

fn update_in<L: Ledger>(
    alloc: Global,
    target: &Target<'_>,
    db: &[u8],
    session: u8,
    update: &Update,
    steps: &mut Steps<L>,
) -> Result<Effect, Or<SqlError>>
    ensures { Gives (λ e. e) (λ e. e) result (update_validated (bound_of target.now) db.now session update.now) }
{
    let version = target.version;
    let sets = place_all(alloc, version.columns().items(), update.sets.items())?;
    let cond = &update.cond;
    let rows = matching_rows(alloc, &target.name, version, cond, db, session, steps)?;
    let ops = put_rows(alloc, target, &sets, rows.items(), steps)?;
    Ok(Effect::of_rows(ops))
}
