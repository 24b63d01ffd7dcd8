//! Literals in order.

ghost use Rattle.std.specs.Prelude.{◌≡◌, IfOk};
ghost use Rattle.std.specs.List.Sorted.{IsSorted};
ghost use Rattle.qc_sql.specs.Rows.{sorted, value_cmp};

use qc_sql::statements::Values;
use qc_types::{NoMemory, Value};
use std::alloc::Global;
use std::cmp::Ordering;
use std::marker::Model;

/// Literals in rising order, so that one is found by halves: NULL is the lowest, numbers go by their value, and texts by their bytes. Contracts see it as that
/// list.
#[derive(Drop)]
pub struct ValueSet {
    values: Values,
}

impl Model for ValueSet {
    ghost use Rattle.std.specs.Prelude.{List};
    ghost use Rattle.std.specs.List.Sorted.{IsSorted};
    ghost use Rattle.qc_types.specs.declared.names.Value.{Value as Literal};
    ghost use Rattle.qc_sql.specs.Rows.{value_cmp};

    ghost Value = { List Literal };

    ghost view = { λ s. s.values };

    ghost invariant = { λ s. IsSorted value_cmp s.values };
}

impl ValueSet {
    /// Copies of some literals, each as often as it stands among them. Costs n log n comparisons of n literals, beside the copies.
    pub fn from_values(alloc: Global, values: &Values) -> Result<ValueSet, NoMemory>
        ensures { IfOk result (λ set. set ≡ sorted value_cmp values.now) }
    {
        let mut members = values.copy(alloc)?.into_vec();
        members.sort_by(|a, b| order(a, b))?;
        Ok(ValueSet {
            values: Values::from_vec(members),
        })
    }

    /// The literals, borrowed, in rising order.
    pub fn items(&self) -> &[Value]
        ensures items { result.now ≡ self.now }
        ensures rise { IsSorted value_cmp result.now }
    {
        self.values.items()
    }
}

fn order(a: &Value, b: &Value) -> Ordering
    ensures { result ≡ value_cmp a.now b.now }
{
    match (a, b) {
        (Value::Null, Value::Null) => Ordering::Equal,
        (Value::Null, _) => Ordering::Less,
        (_, Value::Null) => Ordering::Greater,
        (Value::Int(a), Value::Int(b)) => a.cmp(b),
        (Value::Int(_), Value::Str(_)) => Ordering::Less,
        (Value::Str(_), Value::Int(_)) => Ordering::Greater,
        (Value::Str(a), Value::Str(b)) => a.bytes().cmp(b.bytes()),
    }
}
