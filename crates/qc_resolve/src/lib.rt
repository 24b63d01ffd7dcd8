//! A SELECT validated on a database: the first refusal, or its names found and its values as formulas over the rows of its tables.
#![tactic(auto)]

mod bind;
mod columns;
mod conditions;
mod definitions;
mod formula;
mod groups;
mod items;
mod matching;
mod order;
mod resolved;
mod scope;
mod select;
mod test;
mod value_set;
mod values;

pub use bind::check_database;
pub use formula::{Formula, Formulas, Place};
pub use matching::resolve_condition;
pub use resolved::{Fold, Folds, OrderKey, OrderKeys, Output, Resolved, Versions};
pub use select::resolve;
pub use test::{Test, Tests};
pub use value_set::ValueSet;
