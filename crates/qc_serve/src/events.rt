//! The one event of a command, pushed under the turn by a seat that may then give it back.

ghost use Rattle.std.specs.Prelude.{◌≡◌, ◌<◌, true, length, Err, IfOk, OnErr};
ghost use Rattle.std.specs.List.{list_all};
ghost use Rattle.qc_types.specs.Answers.{Gives};
ghost use Rattle.qc_sql.specs.Database.{apply};
ghost use Rattle.qc_model.specs.declared.events.Event.TheVariants as event;
ghost use Rattle.qc_model.specs.Licence.{ops_fit};
ghost use Rattle.qc_table.specs.Fitting.{fitting};
ghost use Rattle.qc_laws.specs.sizes.Operations.{is_small_operation};
ghost use Rattle.qc_core.specs.Calls.{IsNoted};
ghost use Rattle.qc_serve.specs.Seats.{IsReady, IsSameSeat, Pushes};

use qc_core::{Server, commit, note};
use qc_model::events::{How, Who};
use qc_sql::tables::Ops;
use qc_table::TableFull;
use qc_turn::Held;
use qc_types::Or;
use std::alloc::Global;

/// The event of a command that changed no data, or of a conflict. Answers its number.
pub(crate) fn push_run(held: &mut Held<'_, Server>, who: Who, how: How) -> u64
    requires ready { IsReady who held.old }
    requires noted { IsNoted held.old.value how }
    ensures number { result ≡ length held.new.value.journal.events }
    ensures pushes { Pushes who (event.Run who how) held.old held.new }
{
    note(held, who, how)
}

/// A commit of operations, which are carried out. Answers its number. Refused exactly where a table would have too many rows, by the first such table; no
/// event comes of that, nor where memory lacks.
pub(crate) fn push_commit(
    held: &mut Held<'_, Server>,
    alloc: Global,
    who: Who,
    ops: Ops,
) -> Result<u64, Or<TableFull>>
    requires ready { IsReady who held.old }
    requires some { 0 < length ops }
    requires fit { ops_fit ops held.old.value.database ≡ true }
    requires small { list_all is_small_operation ops ≡ true }
    ensures number { IfOk result (λ number. number ≡ length held.new.value.journal.events) }
    ensures made { Gives (λ number. apply ops held.old.value.database) (λ full. full.table) result (fitting (apply ops held.old.value.database)) }
    ensures pushes { IfOk result (λ number. Pushes who (event.Commit who ops) held.old held.new) }
    ensures kept { OnErr result (IsSameSeat held.old held.new × IsReady who held.new × (held.new.value ≡ held.old.value)) }
{
    commit(held, alloc, who, ops)
}
