//! The database in memory: versions of tables, whose rows are read through views that count.
#![tactic(auto)]

mod cells;
mod database;
mod dels;
mod draft;
mod draft_table;
mod fitting;
mod in_place;
mod ints;
mod keys;
mod merge;
mod name_map;
mod nulls;
mod puts;
mod row_edits;
mod row_ends;
mod row_places;
mod table_rows;
mod table_version;
mod texts;
mod views;

pub use database::{Database, TableFull};
pub use keys::{copy_of_columns, key_of_row};
pub use name_map::NameMap;
pub use table_version::TableVersion;
pub use views::{ColumnView, RowView};
