//! What a statement does.

ghost use Rattle.std.specs.Prelude.{◌≡◌, true};
ghost use Rattle.qc_types.specs.Answers.{Gives};
ghost use Rattle.qc_sql.specs.Effects as meant;
ghost use Rattle.qc_write.specs.Changes.{is_change};

use crate::create::create_effect;
use crate::databases::{create_db_effect, drop_db_effect};
use crate::delete::delete;
use crate::insert::insert_effect;
use crate::outcome::Effect;
use crate::tables::{drop_effect, truncate_effect};
use crate::update::update;
use qc_sql::statements::Statement;
use qc_table::Database;
use qc_types::{Or, SqlError, Steps};
use std::alloc::Global;
use std::sync::ledger::Ledger;

/// What a statement that changes rows, tables or databases does to a database, for a session with this current database (empty: none) and this number:
/// its operations, in order, with the number of rows that MySQL says are affected; or the first refusal, and then it does nothing. The database stays as
/// it is. Follows MySQL's INSERT, UPDATE, DELETE, TRUNCATE TABLE, CREATE and DROP, with the errors and the order of errors of this profile. Every read of
/// a stored row is counted. Cost: an INSERT of n rows into a table of m costs n log n + n log m and what its values hold; UPDATE and DELETE are linear in
/// the rows times the condition, and UPDATE in the rows that the condition keeps times the columns and the assignments; CREATE TABLE is linear in its
/// parts, and DROP DATABASE costs the number of its tables; the others cost the logarithms of how many databases and tables there are.
#[tactic(auto, unfolding(qc_sql::specs::Effects::effect))]
pub fn effect<L: Ledger>(
    alloc: Global,
    statement: &Statement,
    database: &Database,
    db: &[u8],
    session: u8,
    steps: &mut Steps<L>,
) -> Result<Effect, Or<SqlError>>
    requires { is_change statement.now ≡ true }
    ensures { Gives (λ e. e) (λ e. e) result (meant.effect statement.now database.now db.now session) }
{
    match statement {
        Statement::Insert(insert) => insert_effect(alloc, insert, database, db, steps),
        Statement::Update(set) => update(alloc, database, db, session, set, steps),
        Statement::Delete(gone) => {
            delete(alloc, database, db, session, &gone.table, &gone.cond, steps)
        }
        Statement::Truncate(table) => truncate_effect(alloc, database, db, table),
        Statement::CreateTable(table, parts) => {
            create_effect(alloc, database, db, table, parts.items())
        }
        Statement::DropTable(table) => drop_effect(alloc, database, db, table),
        Statement::CreateDb(name) => create_db_effect(alloc, database, name),
        Statement::DropDb(name) => drop_db_effect(alloc, database, name),
        _ => unreachable!(),
    }
}
