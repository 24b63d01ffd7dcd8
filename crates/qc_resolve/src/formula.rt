//! Values of rows, with each column found.

use qc_types::{Boxed, OwnedList, Value};

/// Where a column's value stands in a combination of rows.
#[derive(Clone, Copy, Debug, PartialEq, Eq)]
pub struct Place {
    /// Which row of the combination, from 0 in the order of FROM.
    pub slot: usize,
    /// Which value of that row, from 0.
    pub column: u8,
}

/// A value, as it follows from the rows of a combination, or from what was folded over a group of them.
#[derive(Drop)]
pub enum Formula {
    /// The value at a place.
    Column(Place),
    /// What the aggregate with this index gave, from 0.
    Folded(usize),
    Literal(Value),
    /// 1 where the value is there, and 0 where it is NULL: COUNT of one row.
    Present(Boxed<Formula>),
    /// How many bytes the text of the value has.
    Length(Boxed<Formula>),
    /// The texts of the values, joined.
    Concat(Formulas),
}

/// Formulas, in order.
pub type Formulas = OwnedList<Formula>;
