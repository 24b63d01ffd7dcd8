//! What a statement that changes rows, tables or databases does: its operations, or the first refusal.
#![tactic(auto)]

mod assigned_rows;
mod assignments;
mod change;
mod columns;
mod create;
mod databases;
mod delete;
mod deleted_rows;
mod insert;
mod outcome;
mod shape;
mod stored_rows;
mod tables;
mod target;
mod update;
mod values;

pub use change::effect;
pub use outcome::Effect;
