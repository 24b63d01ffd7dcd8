//! A condition on the rows of one table, validated.

ghost use Rattle.std.specs.Prelude.{◌≡◌, [], ◌∷◌, IfOk};
ghost use Rattle.std.specs.List.{AllByRecursion};
ghost use Rattle.qc_types.specs.Answers.{Gives};
ghost use Rattle.qc_sql.specs.Effects.{matching, scope_of};
ghost use Rattle.qc_resolve.specs.Fit.{IsSoundBound};
ghost use Rattle.qc_resolve.specs.Meaning.{keeps};
ghost use Rattle.qc_resolve.specs.Kept.{kept_rows, under_its_name};

use crate::conditions::condition;
use crate::scope::{Bound, Bounds, Scope};
use crate::test::Test;
use qc_sql::statements::Cond;
use qc_table::TableVersion;
use qc_types::{Duplicate, NoMemory, Or, SqlError, TableName, Text};
use std::alloc::Global;

/// The condition of a statement that changes the rows of one table, validated over that table under its own name, for a session with this current database
/// (empty: none) and this number: a test that keeps the same rows, none where there is no condition, or the first refusal. The table is shared and not
/// read. Linear in the size of the condition, times the columns of the table.
pub fn resolve_condition(
    alloc: Global,
    name: &TableName,
    version: &TableVersion,
    cond: &Option<Cond>,
    db: &[u8],
    session: u8,
) -> Result<Option<Test>, Or<SqlError>>
    ensures { Gives (λ test. matching version.now (keeps test)) (λ e. e) result (kept_rows name.now version.now cond.now db.now session) }
{
    let scope = scope_over(alloc, name, version, db, session)?;
    condition(alloc, &scope, cond)
}

/// What such a condition is validated in.
fn scope_over(
    alloc: Global,
    name: &TableName,
    version: &TableVersion,
    db: &[u8],
    session: u8,
) -> Result<Scope, NoMemory>
    ensures value { IfOk result (λ s. s ≡ scope_of (under_its_name name.now version.now) db.now session) }
    ensures sound { IfOk result (λ s. IsSoundBound (under_its_name name.now version.now)) }
{
    let mut bounds = Bounds::new(alloc);
    bounds.push(bound(alloc, name, version)?)?;
    Ok(Scope {
        bounds,
        db: Text::of(alloc, db)?,
        session,
    })
}

fn bound(alloc: Global, name: &TableName, version: &TableVersion) -> Result<Bound, NoMemory>
    ensures value { IfOk result (λ b. b ≡ under_its_name name.now version.now) }
    ensures sound { IfOk result (λ b. IsSoundBound (under_its_name name.now version.now)) }
{
    Ok(Bound {
        called: name.name.copy(alloc)?,
        name: name.duplicate(alloc)?,
        version: version.share()?,
    })
}
