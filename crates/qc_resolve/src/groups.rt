//! Values of a group of rows, beside aggregates.

ghost use Rattle.std.specs.Prelude.{◌≡◌, [], ◌∷◌, ◌++◌, IfOk, OnOk};
ghost use Rattle.qc_types.specs.Answers.{Gives};
ghost use Rattle.qc_sql.specs.Rows as meant;
ghost use Rattle.qc_resolve.specs.Steps.{run};
ghost use Rattle.qc_resolve.specs.Values.{count_validated, folded, with_fold, group_validated, group_step, ways};
ghost use Rattle.qc_resolve.specs.Views.{validated_of};

use crate::columns::find_column;
use crate::formula::{Formula, Formulas};
use crate::resolved::{Fold, Folds};
use crate::scope::Scope;
use crate::values::{
    Sort, Valued, best_value, call_value, computed, length_value, literal_value, row_value,
    sum_value,
};
use qc_sql::errors::not_supported;
use qc_sql::statements::Expr;
use qc_types::{NoMemory, Or, SqlError};
use std::alloc::Global;

/// The formula of a value over a group of rows, whose aggregates are put behind these; or the first refusal, from left to right. A column alone is
/// refused. Linear in the value, times the columns of all tables.
#[tactic(auto, using(qc_sql::specs::Trees::expr_laws))]
#[cycle(group)]
pub fn group_value<'a>(
    alloc: Global,
    scope: &'a Scope,
    folds: &mut Folds,
    expr: &Expr,
) -> Result<Valued<'a>, Or<SqlError>>
    ensures { Gives (λ v. (validated_of v, folds.new)) (λ e. e) result (group_validated scope.now expr.now folds.old) }
{
    match expr {
        Expr::Column(name) => {
            find_column(alloc, scope, name)?;
            Err(Or::Other(not_supported(alloc, b"mixed aggregate")?))
        }
        Expr::Literal(value) => Ok(literal_value(alloc, value)?),
        Expr::CountAll => {
            let formula = folded(folds, Fold::CountAll)?;
            Ok(computed(Sort::Number, formula))
        }
        Expr::Count(of) => count(alloc, scope, folds, of.get()),
        Expr::Sum(name) => {
            let found = find_column(alloc, scope, name)?;
            let formula = folded(folds, Fold::Sum(found.place))?;
            sum_value(alloc, &found, formula)
        }
        Expr::Min(name) => {
            let found = find_column(alloc, scope, name)?;
            let formula = folded(folds, Fold::Least(found.place))?;
            Ok(best_value(found, formula))
        }
        Expr::Max(name) => {
            let found = find_column(alloc, scope, name)?;
            let formula = folded(folds, Fold::Greatest(found.place))?;
            Ok(best_value(found, formula))
        }
        Expr::Length(of) => {
            let of = group_value(alloc, scope, folds, of.get())?;
            Ok(length_value(alloc, of)?)
        }
        Expr::Concat(parts) => {
            let parts = group_values(alloc, scope, folds, parts.items())?;
            Ok(computed(Sort::Words, Formula::Concat(parts)))
        }
        Expr::Call { word, arguments } => {
            call_value(alloc, scope, word.bytes(), arguments.items().len())
        }
    }
}

/// COUNT of a value.
fn count<'a>(
    alloc: Global,
    scope: &Scope,
    folds: &mut Folds,
    of: &Expr,
) -> Result<Valued<'a>, Or<SqlError>>
    ensures { Gives (λ v. (validated_of v, folds.new)) (λ e. e) result (count_validated scope.now of.now folds.old) }
{
    let of = row_value(alloc, scope, of)?;
    let formula = folded(folds, Fold::Count(of.formula))?;
    Ok(computed(Sort::Number, formula))
}

#[cycle(group)]
fn group_values(
    alloc: Global,
    scope: &Scope,
    folds: &mut Folds,
    exprs: &[Expr],
) -> Result<Formulas, Or<SqlError>>
    ensures { Gives (λ fs. (fs, folds.new)) (λ e. e) result (run (λ e. group_step (ways scope.now e)) exprs.now ([], folds.old)) }
{
    let mut formulas = Formulas::new(alloc);
    for expr in exprs {
        let value = group_value(alloc, scope, folds, expr)?;
        formulas.push(value.formula)?;
    }
    Ok(formulas)
}

/// One aggregate more, and the formula of what it gives.
pub fn folded(folds: &mut Folds, fold: Fold) -> Result<Formula, NoMemory>
    ensures value { IfOk result (λ f. f ≡ folded folds.old) }
    ensures ok { OnOk result (folds.new ≡ with_fold folds.old fold) }
{
    let formula = Formula::Folded(folds.items().len());
    folds.push(fold)?;
    Ok(formula)
}
