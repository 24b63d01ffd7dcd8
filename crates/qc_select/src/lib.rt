//! A SELECT is decided under the lock.
#![tactic(auto)]

mod plans;
mod reasons;
mod selected;
mod selects;

pub use selected::Selected;
pub use selects::run_select;
