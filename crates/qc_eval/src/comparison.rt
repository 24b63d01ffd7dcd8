//! Comparisons of values, and truth of three values.

ghost use Rattle.std.specs.Prelude.{◌≡◌, true};
ghost use Rattle.qc_types.specs.declared.names.Value.TheVariants as value;
ghost use Rattle.qc_sql.specs.Rows as meant;
ghost use Rattle.qc_eval.specs.Truths.{combine, is_known};
ghost use Rattle.qc_eval.specs.Values.{cell_value};

use qc_sql::cells::Cell;
use qc_sql::statements::Op;
use std::cmp::Ordering;

/// The order of two values: NULL is the lowest, numbers go by their value, and texts by their bytes.
pub fn order(a: Cell<'_>, b: Cell<'_>) -> Ordering
    ensures { result ≡ meant.value_cmp (cell_value a.entry) (cell_value b.entry) }
{
    match a {
        Cell::Null => order_null(b),
        Cell::Int(number) => order_number(number as i128, b),
        Cell::Wide(number) => order_number(number, b),
        Cell::Str(text) => order_text(text, b),
    }
}

fn order_null(b: Cell<'_>) -> Ordering
    ensures { result ≡ meant.value_cmp value.Null (cell_value b.entry) }
{
    match b {
        Cell::Null => Ordering::Equal,
        Cell::Int(_) | Cell::Wide(_) | Cell::Str(_) => Ordering::Less,
    }
}

fn order_number(a: i128, b: Cell<'_>) -> Ordering
    ensures { result ≡ meant.value_cmp (value.Int a) (cell_value b.entry) }
{
    match b {
        Cell::Null => Ordering::Greater,
        Cell::Int(number) => a.cmp(&(number as i128)),
        Cell::Wide(number) => a.cmp(&number),
        Cell::Str(_) => Ordering::Less,
    }
}

fn order_text(a: &[u8], b: Cell<'_>) -> Ordering
    ensures { result ≡ meant.value_cmp (value.Str a.now) (cell_value b.entry) }
{
    match b {
        Cell::Str(text) => a.cmp(text),
        Cell::Null | Cell::Int(_) | Cell::Wide(_) => Ordering::Greater,
    }
}

pub fn is_null(cell: Cell<'_>) -> bool
    ensures { result ≡ meant.is_null (cell_value cell.entry) }
{
    matches!(cell, Cell::Null)
}

/// Whether two values stand in a relation; none: one of them is NULL.
pub fn compared(op: Op, a: Cell<'_>, b: Cell<'_>) -> Option<bool>
    ensures { result ≡ meant.compared op (cell_value a.entry) (cell_value b.entry) }
{
    if is_null(a) || is_null(b) {
        return None;
    }
    Some(holds(op, order(a, b)))
}

fn holds(op: Op, order: Ordering) -> bool
    ensures { result ≡ meant.holds_by op order }
{
    match op {
        Op::Eq => order.is_eq(),
        Op::Ne => order.is_ne(),
        Op::Lt => order.is_lt(),
        Op::Le => order.is_le(),
        Op::Gt => order.is_gt(),
        Op::Ge => order.is_ge(),
    }
}

/// AND of three values.
pub fn both(a: Option<bool>, b: Option<bool>) -> Option<bool>
    ensures { result ≡ meant.both a b }
{
    match (a, b) {
        (Some(false), _) | (_, Some(false)) => Some(false),
        (Some(true), other) => other,
        (None, _) => None,
    }
}

/// NOT of three values.
pub fn negated(a: Option<bool>) -> Option<bool>
    ensures { result ≡ meant.negated a }
{
    a.map(|value| !value)
}

/// OR of three values.
fn either(a: Option<bool>, b: Option<bool>) -> Option<bool>
    ensures { result ≡ meant.either a b }
{
    negated(both(negated(a), negated(b)))
}

/// OR where true is decisive, and AND where false is.
pub fn combine(decisive: bool, a: Option<bool>, b: Option<bool>) -> Option<bool>
    ensures { result ≡ combine decisive a b }
{
    if decisive { either(a, b) } else { both(a, b) }
}

/// Whether a truth is known to hold.
pub fn is_true(a: Option<bool>) -> bool
    ensures { result ≡ meant.is_true a }
{
    matches!(a, Some(true))
}

/// Whether a truth is known to be this one.
pub fn is_known(a: Option<bool>, value: bool) -> bool
    ensures { result ≡ is_known a value }
{
    match a {
        Some(known) => known == value,
        None => false,
    }
}
