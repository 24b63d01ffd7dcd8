//! The current database.

ghost use Rattle.std.specs.Prelude.{◌≡◌, OnErr};
ghost use Rattle.qc_types.specs.Answers.{Gives};
ghost use Rattle.qc_statements.specs.Statements.{chosen};

use qc_sql::errors::unknown_database;
use qc_table::Database;
use qc_trx::SessionState;
use qc_types::{Or, SqlError, Text};
use std::alloc::Global;

/// USE, and COM_INIT_DB: another current database, where the session sees it, or else the error that refuses it. The state is then as before, and also
/// where memory runs out. Costs the length of the name, and the logarithm of how many databases there are.
pub fn use_db(
    alloc: Global,
    name: &Text,
    state: &mut SessionState,
    database: &Database,
) -> Result<(), Or<SqlError>>
    ensures gives { Gives (λ _. state.new) (λ e. e) result (chosen name.now database.now state.old) }
    ensures err { OnErr result (state.new ≡ state.old) }
{
    let view = state.view(database)?;
    if !view.has_db(name.bytes()) {
        return Err(Or::Other(unknown_database(alloc, name.bytes())?));
    }
    state.use_db(name.copy(alloc)?);
    Ok(())
}
