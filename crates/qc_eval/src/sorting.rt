//! Columns by which combinations of rows are sorted.

use qc_table::ColumnView;

/// A column as it is read.
#[derive(Drop)]
pub struct Shown<'a> {
    pub view: ColumnView<'a>,
    pub count: u32,
    pub number: bool,
}

/// A column by which combinations are sorted.
#[derive(Drop)]
pub struct SortKey<'a> {
    pub desc: bool,
    pub slot: usize,
    /// None: no such column is there, so that it is NULL everywhere.
    pub column: Option<Shown<'a>>,
}

mod keys;

pub use keys::SortKeys;
