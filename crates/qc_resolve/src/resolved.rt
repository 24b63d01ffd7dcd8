//! What a SELECT is once it is validated.

use crate::formula::{Formula, Formulas, Place};
use crate::test::Test;
use qc_sql::replies::ColumnDefs;
use qc_table::TableVersion;
use qc_types::OwnedList;

/// An aggregate.
#[derive(Drop)]
pub enum Fold {
    /// How many combinations there are.
    CountAll,
    /// In how many of them a value is there.
    Count(Formula),
    Sum(Place),
    Least(Place),
    Greatest(Place),
    /// The value in the first combination, NULL where there is none.
    First(Place),
}

/// Aggregates, in order.
pub type Folds = OwnedList<Fold>;

/// A column by which rows are sorted.
#[derive(Clone, Copy, Debug, PartialEq, Eq)]
pub struct OrderKey {
    /// Whether the greatest value comes first.
    pub desc: bool,
    pub place: Place,
}

/// The columns by which rows are sorted, the first one first.
pub type OrderKeys = OwnedList<OrderKey>;

/// What the rows of the result are made of.
#[derive(Drop)]
pub enum Output {
    /// One row for each combination that is kept, in this order: the value of each item.
    Each { items: Formulas, order: OrderKeys },
    /// One row in all: the value of each item, by what these aggregates give over the combinations that are kept.
    Folded { folds: Folds, items: Formulas },
}

/// Tables, each as it stood when the SELECT was validated.
pub type Versions = OwnedList<TableVersion>;

/// A SELECT that isn't refused, on the database on which it was validated.
#[derive(Drop)]
pub struct Resolved {
    /// The columns of its result.
    pub columns: ColumnDefs,
    /// The tables of FROM, in their order.
    pub tables: Versions,
    /// Which combinations are kept; none: all of them.
    pub test: Option<Test>,
    pub output: Output,
    /// How many rows are skipped.
    pub offset: u64,
    /// How many rows are given then, at most.
    pub count: u64,
}
