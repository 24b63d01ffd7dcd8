//! How an open transaction ends.

ghost use Rattle.std.specs.Prelude.{◌≡◌, IfOk, IfErr};
ghost use Rattle.qc_types.specs.declared.options.Options.{Options};
ghost use Rattle.qc_types.specs.Answers.{Gives};
ghost use Rattle.qc_model.specs.Journal.{present};
ghost use Rattle.qc_trx.specs.Endings.{meant, end_of};
ghost use Rattle.qc_statements.specs.Sound.{IsSound, IsFitState};
ghost use Rattle.qc_statements.specs.Ends.{MayTry, IsWithCommit};

use qc_journal::Journal;
use qc_sql::tables::Ops;
use qc_trx::{Conflict, SessionState};
use qc_types::Or;
use std::alloc::Global;

/// Whether the open transaction of a session may commit at the end of the journal: its own operations, which are none where no transaction is open, or
/// the conflict with the first later commit that meets one of them. What the operations make isn't made here: who commits them learns by
/// `Database::change` whether a table would be too full. Costs what `SessionState::finish` costs.
pub fn check_conflicts<'a>(
    alloc: Global,
    state: &'a SessionState,
    journal: &Journal,
) -> Result<&'a Ops, Or<Conflict>>
    requires sound { (o : Options) × IsSound o journal.now.events (present journal.now.events) }
    requires fit { IsFitState journal.now.events state.now }
    ensures gives { Gives (λ ops. ops.now) meant result (end_of state.now.state journal.now.events) }
    ensures good { IfOk result (λ ops. MayTry ops.now (present journal.now.events)) }
    ensures commit { IfErr result (IsWithCommit journal.now.events) }
{
    state.finish(alloc, journal)
}
