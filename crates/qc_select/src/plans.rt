//! The plan of a SELECT.

ghost use Rattle.std.specs.Prelude.{◌≡◌, IfOk};
ghost use Rattle.qc_sql.specs.Rows.{rows};
ghost use Rattle.qc_model.specs.Session.{flags_of};
ghost use Rattle.qc_trx.specs.SnapshotStates.{IsSnapshotState, seen_on};
ghost use Rattle.qc_select.specs.Selects.{planned};

use qc_eval::Plan;
use qc_sql::statements::Select;
use qc_table::Database;
use qc_trx::SessionState;
use qc_types::{NoMemory, Or, SqlError};
use std::alloc::Global;

/// The plan of a SELECT on the database that its session sees, where this is the present one; or the error that refuses it. No row is read.
pub(crate) fn prepare(
    alloc: Global,
    select: &Select,
    database: &Database,
    state: &SessionState,
) -> Result<Result<Plan, SqlError>, NoMemory>
    ensures plan { IfOk result (λ plan. plan ≡ planned (rows select.now (seen_on database.now state.now) state.now.state.db (flags_of state.now.state) state.now.state.session)) }
    ensures state { IfOk result (λ plan. IsSnapshotState state.now) }
{
    let view = state.view(database)?;
    let flags = state.flags();
    match Plan::prepare(alloc, select, &view, state.db(), &flags, state.session()) {
        Ok(plan) => Ok(Ok(plan)),
        Err(Or::Other(error)) => Ok(Err(error)),
        Err(Or::Memory) => Err(NoMemory),
    }
}
