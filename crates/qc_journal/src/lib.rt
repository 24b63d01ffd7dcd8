//! The journal: the one list of events of the server, what it counts, and when it last changed a table.
#![tactic(auto)]

mod changes;
mod counts;
mod journal;
mod replicas;
mod touching;

pub use journal::Journal;
pub use qc_model::events::{Counters, Event, Events, GoneWhy, How, Reason, Who};
pub use qc_types::Totals;
pub use replicas::copy_of_reason;
pub use touching::any_touches;
