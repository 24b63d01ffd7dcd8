//! Conditions. A condition is large, and what recurs holds something of the stack for each of 64 levels: so it gives conditions in boxes, and what
//! holds them by themselves stands in functions that don't recur.

ghost use Rattle.std.specs.Prelude.{◌≡◌, [], ◌∷◌, ◌++◌, false, IfOk};
ghost use Rattle.qc_sql.specs.declared.statements.Cond.TheVariants as test;
ghost use Rattle.qc_sql.specs.Reading as meant;
ghost use Rattle.qc_sql.specs.Grammar as rule;
ghost use Rattle.qc_parse.specs.Cursors.{unread, Takes, Reads};
ghost use Rattle.qc_parse.specs.Rests.{compared, listed_or_ranged};

use crate::cursor::Cursor;
use crate::halt::{Halt, unsupported};
use crate::lists::{beside, closed, followed, open_bracket, too_deep, with_member};
use crate::literals::tuple;
use crate::values::value;
use qc_lex::{Ahead, Lexeme};
use qc_sql::statements::{Cond, Conds, Expr, Op};
use qc_types::{Boxed, NoMemory, Or};
use std::alloc::Global;

/// How many brackets of a condition, NOTs before a test and calls may be open at once.
pub const MOST_OPEN: u8 = 64;

/// The comparison that is next, if one is.
fn op_ahead(cursor: &Cursor<'_>) -> Option<Op>
    ensures { result ≡ rule.op_ahead (unread cursor.now) }
{
    let Ahead::Token {
        what: Lexeme::Sign(sign),
        ..
    } = cursor.ahead
    else {
        return None;
    };
    match sign {
        b"=" => Some(Op::Eq),
        b"<>" | b"!=" => Some(Op::Ne),
        b"<" => Some(Op::Lt),
        b"<=" => Some(Op::Le),
        b">" => Some(Op::Gt),
        b">=" => Some(Op::Ge),
        _ => None,
    }
}

/// A condition, or NOT of it.
fn negated(alloc: Global, is_negated: bool, cond: Cond) -> Result<Cond, NoMemory>
    ensures { IfOk result (λ c. c ≡ rule.negated is_negated cond) }
{
    if is_negated {
        return Ok(Cond::Not(Boxed::new(alloc, cond)?));
    }
    Ok(cond)
}

/// IS NULL or IS NOT NULL, behind its value.
#[tactic(auto, unfolding(qc_sql::specs::Grammar::null_test))]
fn null_test(alloc: Global, cursor: &mut Cursor<'_>, value: Expr) -> Result<Cond, Or<Halt>>
    ensures { Reads (λ x. x) result (unread cursor.new) (rule.null_test value (unread cursor.old)) }
{
    let value = followed(value, cursor.word(b"IS"))?;
    let is_negated = cursor.passed(b"NOT");
    let value = followed(value, cursor.word(b"NULL"))?;
    Ok(negated(alloc, is_negated, Cond::IsNull(value))?)
}

/// IN and its literals, behind a value.
#[tactic(auto, unfolding(qc_sql::specs::Grammar::in_test))]
fn in_test(alloc: Global, cursor: &mut Cursor<'_>, value: Expr) -> Result<Cond, Or<Halt>>
    ensures { Reads (λ x. x) result (unread cursor.new) (rule.in_test value (unread cursor.old)) }
{
    let value = followed(value, cursor.word(b"IN"))?;
    let (value, values) = beside(value, tuple(alloc, cursor))?;
    Ok(Cond::In(value, values))
}

/// BETWEEN and its two values, behind a value.
fn between_test(
    alloc: Global,
    cursor: &mut Cursor<'_>,
    depth: u8,
    tested: Expr,
) -> Result<Cond, Or<Halt>>
    ensures { Reads (λ x. x) result (unread cursor.new) (rule.between_test (rule.value_at depth false) tested (unread cursor.old)) }
{
    let tested = followed(tested, cursor.word(b"BETWEEN"))?;
    let (tested, low) = beside(tested, value(alloc, cursor, depth, false))?;
    let values = followed((tested, low), cursor.word(b"AND"))?;
    let (values, high) = beside(values, value(alloc, cursor, depth, false))?;
    let (tested, low) = values;
    Ok(Cond::Between(tested, low, high))
}

/// The other value of a comparison, behind its sign.
fn comparison(
    alloc: Global,
    cursor: &mut Cursor<'_>,
    depth: u8,
    tested: Expr,
    op: Op,
) -> Result<Cond, Or<Halt>>
    ensures { Reads (λ x. x) result (unread cursor.new) (compared (rule.value_at depth false) tested op (unread cursor.old)) }
{
    let (tested, other) = beside(tested, value(alloc, cursor, depth, false))?;
    Ok(Cond::Compare(tested, op, other))
}

/// What is tested, behind a value: a comparison, IS, IN or BETWEEN.
fn test_behind(
    alloc: Global,
    cursor: &mut Cursor<'_>,
    depth: u8,
    tested: Expr,
) -> Result<Cond, Or<Halt>>
    ensures { Reads (λ x. x) result (unread cursor.new) (rule.test_behind (rule.value_at depth false) tested (unread cursor.old)) }
{
    if let Some(op) = op_ahead(cursor) {
        cursor.pass();
        return comparison(alloc, cursor, depth, tested, op);
    }
    if cursor.at_word(b"IS") {
        return null_test(alloc, cursor, tested);
    }
    list_or_range_or_not(alloc, cursor, depth, tested)
}

/// IN or BETWEEN, or NOT and one of them, behind a value.
fn list_or_range_or_not(
    alloc: Global,
    cursor: &mut Cursor<'_>,
    depth: u8,
    tested: Expr,
) -> Result<Cond, Or<Halt>>
    ensures { Reads (λ x. x) result (unread cursor.new) (listed_or_ranged (rule.value_at depth false) tested (unread cursor.old)) }
{
    let is_negated = cursor.passed(b"NOT");
    let test = list_or_range(alloc, cursor, depth, tested)?;
    Ok(negated(alloc, is_negated, test)?)
}

/// IN or BETWEEN, behind a value.
fn list_or_range(
    alloc: Global,
    cursor: &mut Cursor<'_>,
    depth: u8,
    tested: Expr,
) -> Result<Cond, Or<Halt>>
    ensures { Reads (λ x. x) result (unread cursor.new) (rule.list_or_range (rule.value_at depth false) tested (unread cursor.old)) }
{
    if cursor.at_word(b"IN") {
        return in_test(alloc, cursor, tested);
    }
    between_test(alloc, cursor, depth, tested)
}

/// A test of values, in which at most `depth` calls are open at once.
#[inline(never)]
fn test_of_values(alloc: Global, cursor: &mut Cursor<'_>, depth: u8) -> Result<Cond, Or<Halt>>
    ensures { Reads (λ x. x) result (unread cursor.new) (rule.test_of (rule.value_at depth false) (unread cursor.old)) }
{
    let tested = value(alloc, cursor, depth, false)?;
    test_behind(alloc, cursor, depth, tested)
}

/// A test of values, in a box.
#[inline(never)]
fn boxed_test(alloc: Global, cursor: &mut Cursor<'_>, depth: u8) -> Result<Boxed<Cond>, Or<Halt>>
    ensures { Reads (λ x. x) result (unread cursor.new) (rule.test_of (rule.value_at depth false) (unread cursor.old)) }
{
    let test = test_of_values(alloc, cursor, depth)?;
    Ok(Boxed::new(alloc, test)?)
}

/// A list with one condition more.
#[inline(never)]
fn with_boxed(members: Conds, member: Boxed<Cond>) -> Result<Conds, NoMemory>
    ensures { IfOk result (λ ms. ms ≡ members ++ member ∷ []) }
{
    with_member(members, member.into_inner())
}

/// NOT of a condition.
#[inline(never)]
fn not(alloc: Global, cond: Boxed<Cond>) -> Result<Boxed<Cond>, NoMemory>
    ensures { IfOk result (λ c. c ≡ test.Not cond) }
{
    Boxed::new(alloc, Cond::Not(cond))
}

/// OR of conditions.
#[inline(never)]
fn or(alloc: Global, members: Conds) -> Result<Boxed<Cond>, NoMemory>
    ensures { IfOk result (λ c. c ≡ test.Or members) }
{
    Boxed::new(alloc, Cond::Or(members))
}

/// AND of conditions.
#[inline(never)]
fn and(alloc: Global, members: Conds) -> Result<Boxed<Cond>, NoMemory>
    ensures { IfOk result (λ c. c ≡ test.And members) }
{
    Boxed::new(alloc, Cond::And(members))
}

/// NOT and what it negates, a condition in brackets, or a test; at most `depth` brackets, NOTs and calls are open at once in it.
#[tactic(auto, using(crate::proofs::Depth::no_not), unfolding(qc_sql::specs::Grammar::member_at))]
#[cycle(conditions)]
fn member(alloc: Global, cursor: &mut Cursor<'_>, depth: u8) -> Result<Boxed<Cond>, Or<Halt>>
    ensures { Reads (λ x. x) result (unread cursor.new) (rule.member_at depth (unread cursor.old)) }
{
    if !cursor.at_word(b"NOT") {
        return without_not(alloc, cursor, depth);
    }
    cursor.word(b"NOT")?;
    if depth == 0 {
        return Err(unsupported(alloc, b"nesting"));
    }
    let negated = member(alloc, cursor, depth - 1)?;
    Ok(not(alloc, negated)?)
}

/// A condition in brackets, or a test; LIKE isn't supported where another test would be.
#[cycle(conditions)]
fn without_not(alloc: Global, cursor: &mut Cursor<'_>, depth: u8) -> Result<Boxed<Cond>, Or<Halt>>
    ensures { Reads (λ x. x) result (unread cursor.new) (rule.without_not_at depth (unread cursor.old)) }
{
    match brackets_or_test(alloc, cursor, depth) {
        Err(Or::Other(Halt::Unexpected)) => {
            if cursor.at_word(b"LIKE") {
                return Err(unsupported(alloc, b"LIKE"));
            }
            Err(Or::Other(Halt::Unexpected))
        }
        other => other,
    }
}

#[tactic(auto, using(crate::proofs::Depth::no_bracket), unfolding(qc_sql::specs::Grammar::brackets_or_test_at))]
#[cycle(conditions)]
fn brackets_or_test(
    alloc: Global,
    cursor: &mut Cursor<'_>,
    depth: u8,
) -> Result<Boxed<Cond>, Or<Halt>>
    ensures { Reads (λ x. x) result (unread cursor.new) (rule.brackets_or_test_at depth (unread cursor.old)) }
{
    if !cursor.at_sign(b"(") {
        return boxed_test(alloc, cursor, depth);
    }
    if depth == 0 {
        return too_deep(alloc, cursor);
    }
    in_brackets(alloc, cursor, depth - 1)
}

/// A condition in brackets.
#[cycle(conditions)]
fn in_brackets(alloc: Global, cursor: &mut Cursor<'_>, depth: u8) -> Result<Boxed<Cond>, Or<Halt>>
    ensures { Reads (λ x. x) result (unread cursor.new) (meant.bracketed (rule.any_of (rule.member_at depth)) (unread cursor.old)) }
{
    open_bracket(alloc, cursor)?;
    let inside = any_of(alloc, cursor, depth)?;
    Ok(closed(cursor, inside)?)
}

/// One or more conditions with OR between each two.
#[cycle(conditions)]
fn any_of(alloc: Global, cursor: &mut Cursor<'_>, depth: u8) -> Result<Boxed<Cond>, Or<Halt>>
    ensures { Reads (λ x. x) result (unread cursor.new) (rule.any_of (rule.member_at depth) (unread cursor.old)) }
{
    let first = all_of(alloc, cursor, depth)?;
    if !cursor.at_word(b"OR") {
        return Ok(first);
    }
    let mut members = with_boxed(Conds::new(alloc), first)?;
    'ors: while cursor.at_word(b"OR") {
        cursor.pass();
        let (so_far, next) = beside(members, all_of(alloc, cursor, depth))?;
        members = with_boxed(so_far, next)?;
    }
    Ok(or(alloc, members)?)
}

/// One or more members with AND between each two.
#[cycle(conditions)]
fn all_of(alloc: Global, cursor: &mut Cursor<'_>, depth: u8) -> Result<Boxed<Cond>, Or<Halt>>
    ensures { Reads (λ x. x) result (unread cursor.new) (rule.all_of (rule.member_at depth) (unread cursor.old)) }
{
    let first = member(alloc, cursor, depth)?;
    if !cursor.at_word(b"AND") {
        return Ok(first);
    }
    let mut members = with_boxed(Conds::new(alloc), first)?;
    'ands: while cursor.at_word(b"AND") {
        cursor.pass();
        let (so_far, next) = beside(members, member(alloc, cursor, depth))?;
        members = with_boxed(so_far, next)?;
    }
    Ok(and(alloc, members)?)
}

/// A condition, from its front.
#[tactic(auto, unfolding(qc_sql::specs::Grammar::condition))]
pub fn condition(alloc: Global, cursor: &mut Cursor<'_>) -> Result<Cond, Or<Halt>>
    ensures { Reads (λ x. x) result (unread cursor.new) (rule.condition (unread cursor.old)) }
{
    let condition = any_of(alloc, cursor, MOST_OPEN)?;
    Ok(condition.into_inner())
}
