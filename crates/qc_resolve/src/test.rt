//! Conditions on rows, with each column found.

use crate::formula::Formula;
use crate::value_set::ValueSet;
use qc_sql::statements::Op;
use qc_types::{Boxed, OwnedList};

/// A condition of three truth values on a combination of rows.
#[derive(Drop)]
pub enum Test {
    Any(Tests),
    All(Tests),
    Not(Boxed<Test>),
    Compare(Formula, Op, Formula),
    IsNull(Formula),
    /// Whether the value equals one of the literals.
    In(Formula, ValueSet),
    /// Whether the first value is at least the second and at most the third.
    Between(Formula, Formula, Formula),
}

/// Conditions, in order.
pub type Tests = OwnedList<Test>;
