//! The tables of FROM.

ghost use Rattle.std.specs.Prelude.{◌≡◌, ◌*◌, ◌^◌, ◌+◌, min, [], map, bytes_eq, option_copied, IfOk};
ghost use Rattle.std.specs.List.{AllByRecursion, list_any};
ghost use Rattle.qc_types.specs.Answers.{Gives};
ghost use Rattle.qc_sql.specs.Rows as meant;
ghost use Rattle.qc_sql.specs.Effects.{known_database};
ghost use Rattle.qc_sql.specs.Rows.{each};
ghost use Rattle.qc_resolve.specs.Validated.{bounds_validated};
ghost use Rattle.qc_resolve.specs.Fit.{IsSoundBound};

use crate::scope::{Bound, Bounds};
use qc_sql::errors::{
    name_not_unique, no_database_selected, no_such_table, too_many_combinations, unknown_database,
};
use qc_sql::names::full_name;
use qc_sql::statements::Source;
use qc_table::Database;
use qc_types::{NoMemory, Or, SqlError, TableName, Text};
use std::alloc::Global;

/// The most row combinations of a SELECT.
const MOST_COMBINATIONS: u64 = 1 << 40;

/// The tables of FROM, each as it stands; or the first refusal, from left to right.
pub fn bind_all(
    alloc: Global,
    database: &Database,
    db: &[u8],
    sources: &[Source],
) -> Result<Bounds, Or<SqlError>>
    ensures gives { Gives (λ bs. bs) (λ e. e) result (each (meant.bind database.now db.now) sources.now) }
    ensures sound { IfOk result (AllByRecursion IsSoundBound) }
{
    let mut bounds = Bounds::new(alloc);
    for source in sources {
        bounds.push(bind(alloc, database, db, source)?)?;
    }
    Ok(bounds)
}

fn bind(
    alloc: Global,
    database: &Database,
    db: &[u8],
    source: &Source,
) -> Result<Bound, Or<SqlError>>
    ensures gives { Gives (λ b. b) (λ e. e) result (meant.bind database.now db.now source.now) }
    ensures sound { IfOk result IsSoundBound }
{
    let name = full_name(alloc, db, &source.table)?;
    check_database(alloc, database, &name)?;
    let Some(version) = database.table(&name) else {
        return Err(Or::Other(no_such_table(alloc, &name)?));
    };
    Ok(Bound {
        called: source.name.copy(alloc)?,
        version: version.share()?,
        name,
    })
}

/// Refuses a table where no database is named or current (1046), and where the database isn't there (1049). Costs the logarithm of how many databases
/// there are.
pub fn check_database(
    alloc: Global,
    database: &Database,
    name: &TableName,
) -> Result<(), Or<SqlError>>
    ensures { Gives (λ _. tt) (λ e. e) result (known_database database.now name.now) }
{
    if name.db.bytes().is_empty() {
        return Err(Or::Other(no_database_selected(alloc)?));
    }
    if !database.has_db(name.db.bytes()) {
        return Err(Or::Other(unknown_database(alloc, name.db.bytes())?));
    }
    Ok(())
}

/// Refuses two tables under one name, and too many row combinations. Quadratic in the number of tables, of which a text has at most 8.
pub fn check_bounds(alloc: Global, bounds: &[Bound]) -> Result<(), Or<SqlError>>
    ensures { Gives (λ _. tt) (λ e. e) result (bounds_validated bounds.now) }
{
    if let Some(name) = first_repeated(bounds) {
        return Err(Or::Other(name_not_unique(alloc, name.bytes())?));
    }
    if combination_count(bounds) > MOST_COMBINATIONS {
        return Err(Or::Other(too_many_combinations(alloc)?));
    }
    Ok(())
}

/// The first name that an earlier table has too.
fn first_repeated(bounds: &[Bound]) -> Option<&Text>
    ensures { option_copied result ≡ meant.first_repeated [] (map (λ b. b.called) bounds.now) }
{
    for (i, bound) in bounds.iter().enumerate() {
        if is_called(&bounds[..i], &bound.called) {
            return Some(&bound.called);
        }
    }
    None
}

fn is_called(bounds: &[Bound], name: &Text) -> bool
    ensures { result ≡ list_any (bytes_eq name.now) (map (λ b. b.called) bounds.now) }
{
    for bound in bounds {
        if name.bytes() == bound.called.bytes() {
            return true;
        }
    }
    false
}

/// How many row combinations there are, where they aren't too many.
fn combination_count(bounds: &[Bound]) -> u64
    ensures { result ≡ min (meant.combination_count bounds.now) (2 ^ 40 + 1) }
{
    let mut count = 1;
    for bound in bounds {
        count = (count * u64::from(bound.version.count())).min(MOST_COMBINATIONS + 1);
    }
    count
}
