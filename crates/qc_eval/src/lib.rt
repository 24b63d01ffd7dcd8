//! The rows of a SELECT.
#![tactic(auto)]

mod buffer;
mod comparison;
mod filters;
mod gathered;
mod gathering;
mod hope;
mod item;
mod joined;
mod lane_totals;
mod leading;
mod masked;
mod masks;
mod matching;
mod operand;
mod plan;
mod range;
mod row;
mod scan;
mod scene;
mod sizes;
mod sorting;
mod stage;
mod texts;
mod totals;
mod truth;
mod values;
mod window;

pub use matching::{RowNumbers, matching_rows};
pub use plan::Plan;
