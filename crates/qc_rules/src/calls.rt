//! The calls of functions in a SELECT.

ghost use Rattle.std.specs.Prelude.{◌≡◌, ◌∷◌, ◌++◌, length, map, option_map};
ghost use Rattle.qc_sql.specs.Rules.{calls_of, cond_calls, cond_calls_at, in_capitals, joined, select_calls};
ghost use Rattle.qc_sql.specs.Trees.{fold_cond};
ghost use Rattle.qc_rules.specs.Functions.{first_name};

use crate::functions::uncached_function;
use qc_sql::statements::{Cond, Expr, Item, Select};

/// The name of the first function, in the order of the text, that keeps a SELECT out of the cache. Linear in the tree, and what stands behind that
/// function isn't looked at.
pub fn first_uncached(select: &Select) -> Option<&'static str>
    ensures { option_map (λ name. name.now) result ≡ first_name (select_calls select.now) }
{
    if let Some(name) = in_items(select.items.items()) {
        return Some(name);
    }
    in_condition(&select.cond)
}

fn in_items(items: &[Item]) -> Option<&'static str>
    ensures { option_map (λ name. name.now) result ≡ first_name (joined (map (λ item. calls_of item.value) items.now)) }
{
    for item in items {
        if let Some(name) = in_expression(&item.value) {
            return Some(name);
        }
    }
    None
}

fn in_condition(cond: &Option<Cond>) -> Option<&'static str>
    ensures { option_map (λ name. name.now) result ≡ first_name (cond_calls cond.now) }
{
    match cond {
        None => None,
        Some(cond) => in_test(cond),
    }
}

#[tactic(auto, using(qc_sql::specs::Trees::cond_laws))]
#[cycle(tests)]
fn in_test(cond: &Cond) -> Option<&'static str>
    ensures { option_map (λ name. name.now) result ≡ first_name (fold_cond cond_calls_at cond.now) }
{
    match cond {
        Cond::Or(all) | Cond::And(all) => in_tests(all.items()),
        Cond::Not(of) => in_test(of.get()),
        Cond::Compare(a, _, b) => in_both(a, b),
        Cond::IsNull(of) | Cond::In(of, _) => in_expression(of),
        Cond::Between(of, low, high) => in_three(of, low, high),
    }
}

#[cycle(tests)]
fn in_tests(conds: &[Cond]) -> Option<&'static str>
    ensures { option_map (λ name. name.now) result ≡ first_name (joined (map (fold_cond cond_calls_at) conds.now)) }
{
    for cond in conds {
        if let Some(name) = in_test(cond) {
            return Some(name);
        }
    }
    None
}

fn in_both(a: &Expr, b: &Expr) -> Option<&'static str>
    ensures { option_map (λ name. name.now) result ≡ first_name (calls_of a.now ++ calls_of b.now) }
{
    if let Some(name) = in_expression(a) {
        return Some(name);
    }
    in_expression(b)
}

fn in_three(of: &Expr, low: &Expr, high: &Expr) -> Option<&'static str>
    ensures { option_map (λ name. name.now) result ≡ first_name (calls_of of.now ++ calls_of low.now ++ calls_of high.now) }
{
    if let Some(name) = in_both(of, low) {
        return Some(name);
    }
    in_expression(high)
}

#[tactic(auto, using(qc_sql::specs::Trees::expr_laws))]
#[cycle(expressions)]
fn in_expression(expr: &Expr) -> Option<&'static str>
    ensures { option_map (λ name. name.now) result ≡ first_name (calls_of expr.now) }
{
    match expr {
        Expr::Column(_)
        | Expr::Literal(_)
        | Expr::CountAll
        | Expr::Sum(_)
        | Expr::Min(_)
        | Expr::Max(_) => None,
        Expr::Count(of) | Expr::Length(of) => in_expression(of.get()),
        Expr::Concat(parts) => in_expressions(parts.items()),
        Expr::Call { word, arguments } => in_call(word.bytes(), arguments.items()),
    }
}

/// The call itself comes before those in its arguments.
#[cycle(expressions)]
fn in_call(word: &[u8], arguments: &[Expr]) -> Option<&'static str>
    ensures { option_map (λ name. name.now) result ≡ first_name ((in_capitals word.now, length arguments.now) ∷ joined (map calls_of arguments.now)) }
{
    if let Some(name) = uncached_function(word, arguments.len()) {
        return Some(name);
    }
    in_expressions(arguments)
}

#[cycle(expressions)]
fn in_expressions(exprs: &[Expr]) -> Option<&'static str>
    ensures { option_map (λ name. name.now) result ≡ first_name (joined (map calls_of exprs.now)) }
{
    for expr in exprs {
        if let Some(name) = in_expression(expr) {
            return Some(name);
        }
    }
    None
}
