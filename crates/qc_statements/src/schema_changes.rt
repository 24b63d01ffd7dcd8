//! Statements that change tables and databases.

ghost use Rattle.std.specs.Prelude.{◌≡◌, true, None, IfOk};
ghost use Rattle.qc_types.specs.declared.options.Options.{Options};
ghost use Rattle.qc_laws.specs.sizes.Names.{is_short_statement};
ghost use Rattle.qc_laws.specs.fits.Sound.{changes_tables};
ghost use Rattle.qc_model.specs.Journal.{present};
ghost use Rattle.qc_model.specs.Machine.{changed_form, conflict_in};
ghost use Rattle.qc_model.specs.Session.{own_operations};
ghost use Rattle.qc_statements.specs.Sound.{IsSound, IsFitState, MayFollow};
ghost use Rattle.qc_statements.specs.Ends.{MayTry};
ghost use Rattle.qc_statements.specs.Forms.{IsGood, given_by};
ghost use Rattle.qc_sql.specs.Database.{apply};

use crate::transaction_end::check_conflicts;
use qc_journal::Journal;
use qc_sql::statements::Statement;
use qc_sql::tables::Ops;
use qc_table::Database;
use qc_trx::{Conflict, SessionState};
use qc_types::{NoMemory, Or, SqlError, Steps, TableName};
use qc_write::{Effect, effect};
use std::alloc::Global;
use std::sync::ledger::Ledger;

/// What a statement that makes, empties or drops tables or databases does. It commits the open transaction, with itself behind it.
#[derive(Drop)]
pub enum SchemaChange {
    /// A later commit met one of the transaction's operations: it is rolled back.
    Conflict(Conflict),
    /// This table would have too many rows with these operations: the transaction is rolled back.
    Full(TableName),
    /// The statement is refused: nothing changes, and the transaction stays open.
    Refused(SqlError),
    /// The transaction ends with a commit of its operations, and of these behind them.
    Commits(Effect),
}

/// What TRUNCATE, CREATE or DROP does at the end of the journal, on the database that it makes. Nothing is changed yet. The one error is want of memory.
/// Costs what `check_conflicts`, `Database::apply` and `qc_write::effect` cost.
pub fn schema_change<L: Ledger>(
    alloc: Global,
    statement: &Statement,
    state: &SessionState,
    database: &Database,
    journal: &Journal,
    steps: &mut Steps<L>,
) -> Result<SchemaChange, NoMemory>
    requires sound { (o : Options) × IsSound o journal.now.events database.now }
    requires fit { IsFitState journal.now.events state.now }
    requires forms { changes_tables statement.now ≡ true }
    requires short { is_short_statement statement.now ≡ true }
    ensures gives { IfOk result (λ c. (who : _) → given_by who state.now.state c ≡ changed_form who state.now.state journal.now.events statement.now) }
    ensures good { IfOk result (IsGood journal.now.events database.now (own_operations state.now.state)) }
{
    match check_conflicts(alloc, state, journal) {
        Ok(ops) => change_behind(alloc, statement, state, database, journal, ops, steps),
        Err(Or::Other(conflict)) => Ok(SchemaChange::Conflict(conflict)),
        Err(Or::Memory) => Err(NoMemory),
    }
}

/// The same behind the transaction's own operations, which no later commit met.
fn change_behind<L: Ledger>(
    alloc: Global,
    statement: &Statement,
    state: &SessionState,
    database: &Database,
    journal: &Journal,
    ops: &Ops,
    steps: &mut Steps<L>,
) -> Result<SchemaChange, NoMemory>
    requires sound { (o : Options) × IsSound o journal.now.events database.now }
    requires fit { IsFitState journal.now.events state.now }
    requires forms { changes_tables statement.now ≡ true }
    requires short { is_short_statement statement.now ≡ true }
    requires alone { conflict_in state.now.state journal.now.events ≡ None }
    requires own { ops.now ≡ own_operations state.now.state }
    requires good { MayTry ops.now (present journal.now.events) }
    ensures gives { IfOk result (λ c. (who : _) → given_by who state.now.state c ≡ changed_form who state.now.state journal.now.events statement.now) }
    ensures good { IfOk result (IsGood journal.now.events database.now (own_operations state.now.state)) }
{
    match database.apply(alloc, ops) {
        Ok(made) => match effect(alloc, statement, &made, state.db(), state.session(), steps) {
            Ok(effect) => Ok(SchemaChange::Commits(effect)),
            Err(Or::Other(error)) => Ok(SchemaChange::Refused(error)),
            Err(Or::Memory) => Err(NoMemory),
        },
        Err(Or::Other(full)) => Ok(SchemaChange::Full(full.table)),
        Err(Or::Memory) => Err(NoMemory),
    }
}
