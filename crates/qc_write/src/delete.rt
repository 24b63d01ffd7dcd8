//! DELETE.

ghost use Rattle.std.specs.Prelude.{◌≡◌};
ghost use Rattle.qc_types.specs.Answers.{Gives};
ghost use Rattle.qc_sql.specs.Effects as meant;
ghost use Rattle.qc_write.specs.Removing.{delete_validated};
ghost use Rattle.qc_write.specs.Targets.{bound_of};

use crate::deleted_rows::del_rows;
use crate::outcome::Effect;
use crate::target::{Target, bind_target};
use qc_eval::matching_rows;
use qc_sql::statements::{Cond, TableRef};
use qc_table::Database;
use qc_types::{Or, SqlError, Steps};
use std::alloc::Global;
use std::sync::ledger::Ledger;

/// What DELETE does: a Del of each row that the condition keeps, by rising key; it affects so many rows. Refused with 1046, 1049 and 1146, and then with
/// what the condition is refused with. Linear in the rows times the condition, and in the number of columns.
pub(crate) fn delete<L: Ledger>(
    alloc: Global,
    database: &Database,
    db: &[u8],
    session: u8,
    table: &TableRef,
    cond: &Option<Cond>,
    steps: &mut Steps<L>,
) -> Result<Effect, Or<SqlError>>
    ensures { Gives (λ e. e) (λ e. e) result (meant.delete_effect database.now db.now session table.now cond.now) }
{
    let target = bind_target(alloc, database, db, table)?;
    delete_from(alloc, &target, db, session, cond, steps)
}

fn delete_from<L: Ledger>(
    alloc: Global,
    target: &Target<'_>,
    db: &[u8],
    session: u8,
    cond: &Option<Cond>,
    steps: &mut Steps<L>,
) -> Result<Effect, Or<SqlError>>
    ensures { Gives (λ e. e) (λ e. e) result (delete_validated (bound_of target.now) db.now session cond.now) }
{
    let version = target.version;
    let rows = matching_rows(alloc, &target.name, version, cond, db, session, steps)?;
    let ops = del_rows(alloc, target, rows.items(), steps)?;
    Ok(Effect::of_rows(ops))
}
