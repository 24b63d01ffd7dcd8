//! The state of one session: its current database, its flags, and its transaction with a snapshot and its own operations.
#![tactic(auto)]

mod conflict;
mod noting;
mod progress;
mod settings;
mod sites;
mod state;
mod writes;

pub use conflict::Conflict;
pub use settings::switch;
pub use state::SessionState;
