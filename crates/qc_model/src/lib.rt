//! What a journal means: its types, and its definitions in specs/.
#![tactic(auto)]

pub mod events;
pub mod reports;
pub mod shared_ops;
