//! A SELECT, validated.

ghost use Rattle.std.specs.Prelude.{◌≡◌, ◌≤◌, ◌^◌, ◌==◌, ◌&&◌, not, length, map, IfOk};
ghost use Rattle.std.specs.List.{AllByRecursion};
ghost use Rattle.qc_types.specs.Answers.{Gives};
ghost use Rattle.qc_sql.specs.Rows as meant;
ghost use Rattle.qc_sql.specs.Rows.{has_aggregate};
ghost use Rattle.qc_resolve.specs.Fit.{IsSoundBound};
ghost use Rattle.qc_resolve.specs.Validated.{validated_over, parts_validated, few_shown, selection_validated, order_allowed, resolved_of, offset_of, count_of};
ghost use Rattle.qc_resolve.specs.Meaning.{rows_of, all_combinations, items_of};

use crate::bind::{bind_all, check_bounds};
use crate::conditions::condition;
use crate::items::{Shown, has_aggregate, show};
use crate::order::order_keys;
use crate::resolved::{OrderKeys, Output, Resolved, Versions};
use crate::scope::{Bound, Scope};
use crate::test::Test;
use qc_sql::errors::{not_supported, too_many_columns};
use qc_sql::session::Flags;
use qc_sql::statements::{Limit, Select};
use qc_table::Database;
use qc_types::{NoMemory, Or, SqlError, Text};
use std::alloc::Global;

/// The most columns of a result.
const MOST_COLUMNS: usize = 64;

/// Which combinations are kept, and in which order.
#[derive(Drop)]
pub struct Selection {
    pub test: Option<Test>,
    pub order: OrderKeys,
}

/// A SELECT validated on a database, for a session with this current database (empty: none), these flags and this number: what stands for it, or the first
/// refusal. They come in this order: a locking read in a transaction; table by table 1046, 1049 and 1146; 1066; 1104 above 2^40 row combinations; the
/// items from left to right; 1117 above 64 columns; the condition; an ordered aggregate; the order. The tables are shared and not read. Cost: linear in
/// the sizes of the items, the condition and the order, times the columns of all tables, and quadratic in the number of tables.
pub fn resolve(
    alloc: Global,
    select: &Select,
    database: &Database,
    db: &[u8],
    flags: &Flags,
    session: u8,
) -> Result<Resolved, Or<SqlError>>
    ensures gives { Gives rows_of (λ e. e) result (meant.rows select.now database.now db.now flags.now session) }
    ensures few { IfOk result (λ r. length (all_combinations r.tables) ≤ 2 ^ 40) }
    ensures full { IfOk result (λ r. length (items_of r.output) ≡ length r.columns) }
{
    if select.lock && flags.in_trans {
        return Err(Or::Other(not_supported(alloc, b"locking read")?));
    }
    let bounds = bind_all(alloc, database, db, select.from.items())?;
    let db = Text::of(alloc, db)?;
    let scope = Scope {
        bounds,
        db,
        session,
    };
    resolve_over(alloc, select, flags, &scope)
}

/// The same over the tables of FROM.
#[tactic(auto, unfolding(crate::specs::Validated::validated_over))]
fn resolve_over(
    alloc: Global,
    select: &Select,
    flags: &Flags,
    scope: &Scope,
) -> Result<Resolved, Or<SqlError>>
    ensures { Gives (λ r. r) (λ e. e) result (validated_over select.now flags.now scope.now) }
{
    check_bounds(alloc, scope.bounds.items())?;
    resolve_parts(alloc, select, flags, scope)
}

/// What is shown, which combinations are kept, and in which order.
#[tactic(auto, unfolding(crate::specs::Validated::parts_validated))]
fn resolve_parts(
    alloc: Global,
    select: &Select,
    flags: &Flags,
    scope: &Scope,
) -> Result<Resolved, Or<SqlError>>
    ensures { Gives (λ r. r) (λ e. e) result (parts_validated select.now flags.now scope.now) }
{
    let tables = versions(alloc, scope.bounds.items())?;
    let shown = few_shown(alloc, flags, scope, select)?;
    let selection = select_from(alloc, scope, select)?;
    Ok(resolved(select, flags, tables, shown, selection))
}

/// What is shown, in at most 64 columns.
fn few_shown(
    alloc: Global,
    flags: &Flags,
    scope: &Scope,
    select: &Select,
) -> Result<Shown, Or<SqlError>>
    ensures { Gives (λ s. s) (λ e. e) result (few_shown flags.now scope.now select.now) }
{
    let shown = show(alloc, flags, scope, select)?;
    if shown.columns.items().len() > MOST_COLUMNS {
        return Err(Or::Other(too_many_columns(alloc)?));
    }
    Ok(shown)
}

fn select_from(alloc: Global, scope: &Scope, select: &Select) -> Result<Selection, Or<SqlError>>
    ensures { Gives (λ s. s) (λ e. e) result (selection_validated scope.now select.now) }
{
    let test = condition(alloc, scope, &select.cond)?;
    let order = order_of(alloc, scope, select)?;
    Ok(Selection { test, order })
}

/// The columns by which rows are sorted, which may not stand beside an aggregate.
fn order_of(alloc: Global, scope: &Scope, select: &Select) -> Result<OrderKeys, Or<SqlError>>
    ensures { Gives (λ ks. ks) (λ e. e) result (order_allowed scope.now select.now) }
{
    if is_ordered_aggregate(select) {
        return Err(Or::Other(not_supported(alloc, b"ordered aggregate")?));
    }
    order_keys(alloc, scope, select.order.items())
}

fn is_ordered_aggregate(select: &Select) -> bool
    ensures { result ≡ (has_aggregate select.now && not (length select.now.order == 0)) }
{
    has_aggregate(select.items.items()) && !select.order.items().is_empty()
}

/// What stands for a SELECT, of its parts.
fn resolved(
    select: &Select,
    flags: &Flags,
    tables: Versions,
    shown: Shown,
    selection: Selection,
) -> Resolved
    ensures { result ≡ resolved_of select.now flags.now tables shown selection }
{
    let Selection { test, order } = selection;
    let Shown {
        columns,
        formulas,
        folds,
    } = shown;
    let output = if has_aggregate(select.items.items()) {
        Output::Folded {
            folds,
            items: formulas,
        }
    } else {
        Output::Each {
            items: formulas,
            order,
        }
    };
    Resolved {
        columns,
        tables,
        test,
        output,
        offset: offset(select.limit),
        count: count(select.limit, flags.row_limit),
    }
}

fn versions(alloc: Global, bounds: &[Bound]) -> Result<Versions, NoMemory>
    ensures { IfOk result (λ vs. vs ≡ map (λ b. b.table) bounds.now) }
{
    let mut versions = Versions::new(alloc);
    for bound in bounds {
        versions.push(bound.version.share()?)?;
    }
    Ok(versions)
}

/// How many rows are skipped.
fn offset(limit: Option<Limit>) -> u64
    ensures { result ≡ offset_of limit }
{
    match limit {
        Some(limit) => limit.offset,
        None => 0,
    }
}

/// How many rows are given at most.
fn count(limit: Option<Limit>, row_limit: u64) -> u64
    ensures { result ≡ count_of limit row_limit }
{
    match limit {
        Some(limit) => limit.count,
        None => row_limit,
    }
}
