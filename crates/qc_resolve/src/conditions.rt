//! Conditions.

ghost use Rattle.std.specs.Prelude.{◌≡◌, IfOk};
ghost use Rattle.std.specs.List.{list_any};
ghost use Rattle.qc_types.specs.Answers.{Gives};
ghost use Rattle.qc_sql.specs.Rows.{each, mixes, sort_of_value};
ghost use Rattle.qc_resolve.specs.declared.test.Test.TheVariants as made;
ghost use Rattle.qc_resolve.specs.Validated.{comparable, compare_validated, in_validated, between_validated, between_values, null_validated, test_validated, condition_validated};
ghost use Rattle.qc_resolve.specs.Views.{sort_of, validated_of};

use crate::scope::Scope;
use crate::test::{Test, Tests};
use crate::value_set::ValueSet;
use crate::values::{Sort, Valued, row_value, sort_of_literal};
use qc_sql::errors::not_supported;
use qc_sql::statements::{Cond, Expr, Op, Values};
use qc_types::{Boxed, NoMemory, Or, SqlError, Value};
use std::alloc::Global;

/// The test of a condition, where there is one; or the first refusal, from left to right.
pub fn condition(
    alloc: Global,
    scope: &Scope,
    cond: &Option<Cond>,
) -> Result<Option<Test>, Or<SqlError>>
    ensures { Gives (λ t. t) (λ e. e) result (condition_validated scope.now cond.now) }
{
    match cond {
        None => Ok(None),
        Some(cond) => Ok(Some(test(alloc, scope, cond)?)),
    }
}

#[tactic(auto, using(qc_sql::specs::Trees::cond_laws))]
#[cycle(tests)]
fn test(alloc: Global, scope: &Scope, cond: &Cond) -> Result<Test, Or<SqlError>>
    ensures { Gives (λ t. t) (λ e. e) result (test_validated scope.now cond.now) }
{
    match cond {
        Cond::Or(all) => Ok(Test::Any(tests(alloc, scope, all.items())?)),
        Cond::And(all) => Ok(Test::All(tests(alloc, scope, all.items())?)),
        Cond::Not(of) => Ok(negated(alloc, test(alloc, scope, of.get())?)?),
        Cond::Compare(a, op, b) => compare(alloc, scope, a, *op, b),
        Cond::IsNull(of) => is_null(alloc, scope, of),
        Cond::In(of, values) => is_in(alloc, scope, of, values),
        Cond::Between(of, low, high) => between(alloc, scope, of, low, high),
    }
}

#[cycle(tests)]
fn tests(alloc: Global, scope: &Scope, conds: &[Cond]) -> Result<Tests, Or<SqlError>>
    ensures { Gives (λ ts. ts) (λ e. e) result (each (test_validated scope.now) conds.now) }
{
    let mut tests = Tests::new(alloc);
    for cond in conds {
        tests.push(test(alloc, scope, cond)?)?;
    }
    Ok(tests)
}

fn negated(alloc: Global, test: Test) -> Result<Test, NoMemory>
    ensures { IfOk result (λ t. t ≡ made.Not test) }
{
    Ok(Test::Not(Boxed::new(alloc, test)?))
}

fn is_null(alloc: Global, scope: &Scope, of: &Expr) -> Result<Test, Or<SqlError>>
    ensures { Gives (λ t. t) (λ e. e) result (null_validated scope.now of.now) }
{
    let of = row_value(alloc, scope, of)?;
    Ok(Test::IsNull(of.formula))
}

fn compare(alloc: Global, scope: &Scope, a: &Expr, op: Op, b: &Expr) -> Result<Test, Or<SqlError>>
    ensures { Gives (λ t. t) (λ e. e) result (compare_validated scope.now a.now op b.now) }
{
    let a = row_value(alloc, scope, a)?;
    let b = row_value(alloc, scope, b)?;
    comparable(alloc, a.sort, b.sort)?;
    Ok(Test::Compare(a.formula, op, b.formula))
}

fn is_in(alloc: Global, scope: &Scope, of: &Expr, values: &Values) -> Result<Test, Or<SqlError>>
    ensures { Gives (λ t. t) (λ e. e) result (in_validated scope.now of.now values.now) }
{
    let of = row_value(alloc, scope, of)?;
    if mixes_any(of.sort, values.items()) {
        return Err(Or::Other(not_supported(alloc, b"mixed comparison")?));
    }
    Ok(Test::In(of.formula, ValueSet::from_values(alloc, values)?))
}

fn between(
    alloc: Global,
    scope: &Scope,
    of: &Expr,
    low: &Expr,
    high: &Expr,
) -> Result<Test, Or<SqlError>>
    ensures { Gives (λ t. t) (λ e. e) result (between_validated scope.now of.now low.now high.now) }
{
    let of = row_value(alloc, scope, of)?;
    let low = row_value(alloc, scope, low)?;
    let high = row_value(alloc, scope, high)?;
    between_values(alloc, of, low, high)
}

/// Refuses a number beside a text.
fn between_values(
    alloc: Global,
    of: Valued<'_>,
    low: Valued<'_>,
    high: Valued<'_>,
) -> Result<Test, Or<SqlError>>
    ensures { Gives (λ t. t) (λ e. e) result (between_values (validated_of of.entry) (validated_of low.entry) (validated_of high.entry)) }
{
    if mixes(of.sort, low.sort) || mixes(of.sort, high.sort) {
        return Err(Or::Other(not_supported(alloc, b"mixed comparison")?));
    }
    Ok(Test::Between(of.formula, low.formula, high.formula))
}

/// Refuses a number beside a text.
fn comparable(alloc: Global, a: Sort, b: Sort) -> Result<(), Or<SqlError>>
    ensures { Gives (λ _. tt) (λ e. e) result (comparable (sort_of a) (sort_of b)) }
{
    if mixes(a, b) {
        return Err(Or::Other(not_supported(alloc, b"mixed comparison")?));
    }
    Ok(())
}

fn mixes_any(sort: Sort, values: &[Value]) -> bool
    ensures { result ≡ list_any (λ v. mixes (sort_of sort) (sort_of_value v)) values.now }
{
    values.iter().any(|value| mixes_literal(sort, value))
}

fn mixes_literal(sort: Sort, value: &Value) -> bool
    ensures { result ≡ mixes (sort_of sort) (sort_of_value value.now) }
{
    mixes(sort, sort_of_literal(value))
}

fn mixes(a: Sort, b: Sort) -> bool
    ensures { result ≡ mixes (sort_of a) (sort_of b) }
{
    matches!(
        (a, b),
        (Sort::Number, Sort::Words) | (Sort::Words, Sort::Number)
    )
}
