//! The items of a SELECT.

ghost use Rattle.std.specs.Prelude.{◌≡◌, IfOk, OnOk};
ghost use Rattle.std.specs.List.{list_any};
ghost use Rattle.qc_types.specs.Answers.{Gives};
ghost use Rattle.qc_sql.specs.Rows.{aggregate_at};
ghost use Rattle.qc_sql.specs.Trees.{fold_expr};
ghost use Rattle.qc_resolve.specs.Columns.{all_spots, spots_from};
ghost use Rattle.qc_resolve.specs.Validated.{none_shown, has_aggregate_item, item_step, shown_validated, spot_step, with_spots};
ghost use Rattle.qc_resolve.specs.Steps.{run};
ghost use Rattle.qc_resolve.specs.Values.{value_validated};
ghost use Rattle.qc_resolve.specs.Views.{spot_of, validated_of};

use crate::columns::Found;
use crate::definitions::{definition, of_column};
use crate::formula::{Formula, Formulas, Place};
use crate::groups::{folded, group_value};
use crate::resolved::{Fold, Folds};
use crate::scope::{Bound, Scope};
use crate::values::{Valued, row_value};
use qc_sql::errors::not_supported;
use qc_sql::replies::{ColumnDef, ColumnDefs};
use qc_sql::session::Flags;
use qc_sql::statements::{Expr, Item, Select};
use qc_types::{NoMemory, Or, SqlError};
use std::alloc::Global;

/// What is shown of a row of the result: a definition and a formula for each column, and the aggregates in the formulas.
#[derive(Drop)]
pub struct Shown {
    pub columns: ColumnDefs,
    pub formulas: Formulas,
    pub folds: Folds,
}

impl Shown {
    fn new(alloc: Global) -> Shown
        ensures { result ≡ none_shown }
    {
        Shown {
            columns: ColumnDefs::new(alloc),
            formulas: Formulas::new(alloc),
            folds: Folds::new(alloc),
        }
    }

    /// Puts an item behind what is shown.
    fn add(
        &mut self,
        alloc: Global,
        flags: &Flags,
        scope: &Scope,
        aggregated: bool,
        item: &Item,
    ) -> Result<(), Or<SqlError>>
        ensures { Gives (λ _. self.new) (λ e. e) result (item_step flags.now scope.now aggregated item.now self.old) }
    {
        let value = item_value(alloc, scope, aggregated, &mut self.folds, &item.value)?;
        let column = definition(alloc, flags, item, &value)?;
        self.columns.push(column)?;
        self.formulas.push(value.formula)?;
        Ok(())
    }

    /// Puts all columns of a table behind what is shown.
    fn add_table(
        &mut self,
        alloc: Global,
        flags: &Flags,
        aggregated: bool,
        slot: usize,
        bound: &Bound,
    ) -> Result<(), NoMemory>
        ensures { OnOk result (self.new ≡ with_spots flags.now aggregated self.old (spots_from bound.now slot 0 bound.now.table.columns)) }
    {
        for (i, column) in bound.version.columns().items().iter().enumerate() {
            let place = Place {
                slot,
                column: i as u8,
            };
            let found = Found {
                bound,
                column,
                place,
            };
            self.add_column(alloc, flags, aggregated, &found)?;
        }
        Ok(())
    }

    /// Puts a column behind what is shown: beside an aggregate its value in the first combination, as no column of a group has another.
    fn add_column(
        &mut self,
        alloc: Global,
        flags: &Flags,
        aggregated: bool,
        found: &Found<'_>,
    ) -> Result<(), NoMemory>
        ensures { OnOk result (self.new ≡ spot_step flags.now aggregated self.old (spot_of found.now)) }
    {
        let column = of_column(alloc, flags, found, found.column.name.bytes())?;
        self.columns.push(column)?;
        if aggregated {
            let formula = folded(&mut self.folds, Fold::First(found.place))?;
            return self.formulas.push(formula);
        }
        self.formulas.push(Formula::Column(found.place))
    }
}

/// What a SELECT shows, or the first refusal, from left to right.
pub fn show(
    alloc: Global,
    flags: &Flags,
    scope: &Scope,
    select: &Select,
) -> Result<Shown, Or<SqlError>>
    ensures { Gives (λ s. s) (λ e. e) result (shown_validated flags.now scope.now select.now) }
{
    if !select.star {
        return shown_items(alloc, flags, scope, select.items.items());
    }
    if select.from.items().is_empty() {
        return Err(Or::Other(not_supported(alloc, b"star")?));
    }
    let aggregated = has_aggregate(select.items.items());
    Ok(shown_tables(alloc, flags, aggregated, scope.bounds.items())?)
}

fn shown_items(
    alloc: Global,
    flags: &Flags,
    scope: &Scope,
    items: &[Item],
) -> Result<Shown, Or<SqlError>>
    ensures { Gives (λ s. s) (λ e. e) result (run (item_step flags.now scope.now (list_any has_aggregate_item items.now)) items.now none_shown) }
{
    let aggregated = has_aggregate(items);
    let mut shown = Shown::new(alloc);
    for item in items {
        shown.add(alloc, flags, scope, aggregated, item)?;
    }
    Ok(shown)
}

fn shown_tables(
    alloc: Global,
    flags: &Flags,
    aggregated: bool,
    bounds: &[Bound],
) -> Result<Shown, NoMemory>
    ensures { IfOk result (λ s. s ≡ with_spots flags.now aggregated none_shown (all_spots 0 bounds.now)) }
{
    let mut shown = Shown::new(alloc);
    for (slot, bound) in bounds.iter().enumerate() {
        shown.add_table(alloc, flags, aggregated, slot, bound)?;
    }
    Ok(shown)
}

/// The value of an item, of a row or of a group of rows.
fn item_value<'a>(
    alloc: Global,
    scope: &'a Scope,
    aggregated: bool,
    folds: &mut Folds,
    expr: &Expr,
) -> Result<Valued<'a>, Or<SqlError>>
    ensures { Gives (λ v. (validated_of v, folds.new)) (λ e. e) result (value_validated aggregated scope.now expr.now folds.old) }
{
    if aggregated {
        group_value(alloc, scope, folds, expr)
    } else {
        row_value(alloc, scope, expr)
    }
}

/// Whether an item has an aggregate. Linear in their sizes.
pub fn has_aggregate(items: &[Item]) -> bool
    ensures { result ≡ list_any has_aggregate_item items.now }
{
    items.iter().any(|item| is_aggregate(&item.value))
}

#[tactic(auto, using(qc_sql::specs::Trees::expr_laws))]
#[cycle(aggregates)]
fn is_aggregate(expr: &Expr) -> bool
    ensures { result ≡ fold_expr aggregate_at expr.now }
{
    match expr {
        Expr::Column(_) | Expr::Literal(_) => false,
        Expr::CountAll | Expr::Count(_) | Expr::Sum(_) | Expr::Min(_) | Expr::Max(_) => true,
        Expr::Length(of) => is_aggregate(of.get()),
        Expr::Concat(parts) => any_aggregate(parts.items()),
        Expr::Call { arguments, .. } => any_aggregate(arguments.items()),
    }
}

#[cycle(aggregates)]
fn any_aggregate(exprs: &[Expr]) -> bool
    ensures { result ≡ list_any (fold_expr aggregate_at) exprs.now }
{
    for expr in exprs {
        if is_aggregate(expr) {
            return true;
        }
    }
    false
}
