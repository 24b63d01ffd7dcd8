//! Statements that change rows.

ghost use Rattle.std.specs.Prelude.{◌≡◌, [], true, None, OnErr, OnOk};
ghost use Rattle.qc_types.specs.Answers.{Gives};
ghost use Rattle.qc_sql.specs.Database.{apply};
ghost use Rattle.qc_sql.specs.Effects as meant;
ghost use Rattle.qc_model.specs.Machine.{full_table};
ghost use Rattle.qc_trx.specs.SnapshotStates.{MayAdd, added, seen_on};
ghost use Rattle.qc_statements.specs.Statements.{changes_rows};
ghost use Rattle.qc_statements.specs.Sound.{arrived_snapshot_state};

use qc_sql::statements::Statement;
use qc_sql::tables::Ops;
use qc_table::Database;
use qc_trx::SessionState;
use qc_types::{NoMemory, Or, SqlError, Steps};
use qc_write::{Effect, effect};
use std::alloc::Global;
use std::sync::ledger::Ledger;

/// A statement on rows has arrived, whose event will have this number; before it stands this database. With autocommit off it opens a transaction, and
/// the first of a transaction takes the snapshot. Constant time. The one error is want of memory, and leaves the state as it was.
pub fn arrive(state: &mut SessionState, database: &Database, place: u64) -> Result<(), NoMemory>
    ensures arrived { OnOk result (state.new ≡ arrived_snapshot_state place database.now state.old) }
    ensures session { state.new.state.session ≡ state.old.state.session }
    ensures err { OnErr result (state.new ≡ state.old) }
{
    let now = database.share()?;
    state.arrive();
    state.see(place, now);
    Ok(())
}

/// What an INSERT, UPDATE or DELETE does on the database that the session sees, or why it is refused. Where the transaction has a snapshot, the database
/// at hand plays no role. The share of what is seen ends here, so that a commit can change the database in place. Costs what `qc_write::effect` costs.
pub fn effect_on_view<L: Ledger>(
    alloc: Global,
    statement: &Statement,
    state: &SessionState,
    database: &Database,
    steps: &mut Steps<L>,
) -> Result<Effect, Or<SqlError>>
    requires { changes_rows statement.now ≡ true }
    ensures { Gives (λ e. e) (λ e. e) result (meant.effect statement.now (seen_on database.now state.now) state.now.state.db state.now.state.session) }
{
    let view = state.view(database)?;
    effect(alloc, statement, &view, state.db(), state.session(), steps)
}

/// Adds operations to the transaction's own. A statement is refused where a table would be too full, so they have room. The one error is want of memory,
/// and leaves the state as it was. Costs what `SessionState::add_ops` costs.
pub fn add(alloc: Global, state: &mut SessionState, ops: Ops) -> Result<(), NoMemory>
    requires may { MayAdd ops state.old }
    requires room { full_table (apply ops (seen_on [] state.old)) ≡ None }
    ensures added { OnOk result (state.new ≡ added ops state.old) }
    ensures err { OnErr result (state.new ≡ state.old) }
{
    match state.add_ops(alloc, ops) {
        Ok(()) => Ok(()),
        Err(Or::Memory) => Err(NoMemory),
        Err(Or::Other(_)) => unreachable!(),
    }
}
