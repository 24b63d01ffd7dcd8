//! Comparisons and sums of whole columns of numbers, 64 values at a time, through masks of a bit for each value.
#![tactic(auto)]

mod aggregates;
mod bits;
mod compare;
mod masks;

pub use aggregates::{max_masked, min_masked, sum_masked};
pub use bits::SetBits;
pub use compare::{Cmp, compare_mask};
pub use masks::{mask_and, mask_count};
