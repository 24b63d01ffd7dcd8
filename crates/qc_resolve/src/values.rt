//! Values of one row.

ghost use Rattle.std.specs.Prelude.{◌≡◌, IfOk};
ghost use Rattle.qc_sql.specs.Rows as meant;
ghost use Rattle.qc_sql.specs.Rows.{each};
ghost use Rattle.qc_sql.specs.Rules.{in_capitals};
ghost use Rattle.qc_types.specs.Answers.{Gives};
ghost use Rattle.qc_resolve.specs.declared.formula.Formula.TheVariants as form;
ghost use Rattle.qc_resolve.specs.Columns.{found_at};
ghost use Rattle.qc_resolve.specs.Values.{computed, column_validated, sum_validated, best_validated, call_validated, database_value, formula_in_row, row_validated, ways};
ghost use Rattle.qc_resolve.specs.Views.{spot_of, sort_of, validated_of};

use crate::columns::{Found, find_column};
use crate::formula::{Formula, Formulas};
use crate::scope::Scope;
use qc_sql::errors::not_supported;
use qc_sql::statements::Expr;
use qc_sql::tables::Kind;
use qc_sql::words::in_capitals;
use qc_types::{Boxed, Duplicate, NoMemory, Or, SqlError, Text, Value};
use std::alloc::Global;

/// What a value is where it isn't NULL.
#[derive(Clone, Copy, Debug, PartialEq, Eq)]
pub enum Sort {
    Number,
    Words,
    /// It is always NULL.
    Nothing,
}

/// Where a value comes from, as its column in the result tells it.
#[derive(Drop)]
pub enum Origin<'a> {
    /// Told by its sort alone.
    Computed,
    Summed,
    /// A column.
    Itself(Found<'a>),
    /// The least or the greatest value of a column.
    BestOf(Found<'a>),
}

/// A value that was found good.
#[derive(Drop)]
pub struct Valued<'a> {
    pub sort: Sort,
    pub origin: Origin<'a>,
    pub formula: Formula,
}

/// The formula of a value of one row, in which each aggregate is over that row alone; or the first refusal, from left to right. Linear in the value,
/// times the columns of all tables.
#[tactic(auto, using(qc_sql::specs::Trees::expr_laws))]
#[cycle(row)]
pub fn row_value<'a>(
    alloc: Global,
    scope: &'a Scope,
    expr: &Expr,
) -> Result<Valued<'a>, Or<SqlError>>
    ensures { Gives validated_of (λ e. e) result (row_validated scope.now expr.now) }
{
    match expr {
        Expr::Column(name) => Ok(column_value(find_column(alloc, scope, name)?)),
        Expr::Literal(value) => Ok(literal_value(alloc, value)?),
        Expr::CountAll => Ok(computed(Sort::Number, Formula::Literal(Value::Int(1)))),
        Expr::Count(of) => Ok(present_value(alloc, row_value(alloc, scope, of.get())?)?),
        Expr::Sum(name) => {
            let found = find_column(alloc, scope, name)?;
            sum_value(alloc, &found, Formula::Column(found.place))
        }
        Expr::Min(name) | Expr::Max(name) => {
            let found = find_column(alloc, scope, name)?;
            Ok(best_value(found, Formula::Column(found.place)))
        }
        Expr::Length(of) => Ok(length_value(alloc, row_value(alloc, scope, of.get())?)?),
        Expr::Concat(parts) => {
            let parts = row_values(alloc, scope, parts.items())?;
            Ok(computed(Sort::Words, Formula::Concat(parts)))
        }
        Expr::Call { word, arguments } => {
            call_value(alloc, scope, word.bytes(), arguments.items().len())
        }
    }
}

#[cycle(row)]
fn row_values(alloc: Global, scope: &Scope, exprs: &[Expr]) -> Result<Formulas, Or<SqlError>>
    ensures { Gives (λ fs. fs) (λ e. e) result (each (λ e. formula_in_row (ways scope.now e)) exprs.now) }
{
    let mut formulas = Formulas::new(alloc);
    for expr in exprs {
        let value = row_value(alloc, scope, expr)?;
        formulas.push(value.formula)?;
    }
    Ok(formulas)
}

pub fn computed<'a>(sort: Sort, formula: Formula) -> Valued<'a>
    ensures { validated_of result ≡ computed (sort_of sort) formula }
{
    Valued {
        sort,
        origin: Origin::Computed,
        formula,
    }
}

/// COUNT of one row.
fn present_value<'a>(alloc: Global, of: Valued<'_>) -> Result<Valued<'a>, NoMemory>
    ensures { IfOk result (λ v. validated_of v ≡ computed meant.Number (form.Present of.entry.formula)) }
{
    let formula = Formula::Present(Boxed::new(alloc, of.formula)?);
    Ok(computed(Sort::Number, formula))
}

pub fn length_value<'a>(alloc: Global, of: Valued<'_>) -> Result<Valued<'a>, NoMemory>
    ensures { IfOk result (λ v. validated_of v ≡ computed meant.Number (form.Length of.entry.formula)) }
{
    let formula = Formula::Length(Boxed::new(alloc, of.formula)?);
    Ok(computed(Sort::Number, formula))
}

fn column_value(found: Found<'_>) -> Valued<'_>
    ensures { validated_of result ≡ column_validated (spot_of found.entry) }
{
    Valued {
        sort: sort_of_kind(found.column.kind),
        origin: Origin::Itself(found),
        formula: Formula::Column(found.place),
    }
}

pub fn literal_value<'a>(alloc: Global, value: &Value) -> Result<Valued<'a>, NoMemory>
    ensures { IfOk result (λ v. validated_of v ≡ computed (meant.sort_of_value value.now) (form.Literal value.now)) }
{
    let formula = Formula::Literal(value.duplicate(alloc)?);
    Ok(computed(sort_of_literal(value), formula))
}

/// The sum of a column, by this formula: refused where it isn't of numbers.
pub fn sum_value<'a>(
    alloc: Global,
    found: &Found<'a>,
    formula: Formula,
) -> Result<Valued<'a>, Or<SqlError>>
    ensures { Gives validated_of (λ e. e) result (sum_validated (spot_of found.now) formula) }
{
    match found.column.kind {
        Kind::Int => Ok(Valued {
            sort: Sort::Number,
            origin: Origin::Summed,
            formula,
        }),
        Kind::Str(_) => Err(Or::Other(not_supported(alloc, b"SUM of text")?)),
    }
}

/// The least or the greatest value of a column, by this formula.
pub fn best_value(found: Found<'_>, formula: Formula) -> Valued<'_>
    ensures { validated_of result ≡ best_validated (spot_of found.entry) formula }
{
    Valued {
        sort: sort_of_kind(found.column.kind),
        origin: Origin::BestOf(found),
        formula,
    }
}

/// What a call of DATABASE or CONNECTION_ID gives, and the refusal of another call.
pub fn call_value<'a>(
    alloc: Global,
    scope: &'a Scope,
    word: &[u8],
    arguments: usize,
) -> Result<Valued<'a>, Or<SqlError>>
    ensures { Gives validated_of (λ e. e) result (call_validated scope.now (in_capitals word.now) arguments) }
{
    let word = in_capitals(alloc, word)?;
    if word.bytes() == b"DATABASE".as_slice() && arguments == 0 {
        let value = database_value(alloc, &scope.db)?;
        return Ok(computed(Sort::Words, Formula::Literal(value)));
    }
    if word.bytes() == b"CONNECTION_ID".as_slice() && arguments == 0 {
        let value = Value::Int(i64::from(scope.session));
        return Ok(computed(Sort::Number, Formula::Literal(value)));
    }
    Err(Or::Other(not_supported(alloc, word.bytes())?))
}

fn database_value(alloc: Global, db: &Text) -> Result<Value, NoMemory>
    ensures { IfOk result (λ v. v ≡ database_value db.now) }
{
    if db.bytes().is_empty() {
        return Ok(Value::Null);
    }
    Ok(Value::Str(db.copy(alloc)?))
}

pub fn sort_of_kind(kind: Kind) -> Sort
    ensures { sort_of result ≡ meant.sort_of_kind kind }
{
    match kind {
        Kind::Int => Sort::Number,
        Kind::Str(_) => Sort::Words,
    }
}

pub fn sort_of_literal(value: &Value) -> Sort
    ensures { sort_of result ≡ meant.sort_of_value value.now }
{
    match value {
        Value::Null => Sort::Nothing,
        Value::Int(_) => Sort::Number,
        Value::Str(_) => Sort::Words,
    }
}
