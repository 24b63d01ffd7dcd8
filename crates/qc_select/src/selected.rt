//! What becomes of a SELECT.

use qc_core::Hit;
use qc_eval::Plan;
use qc_model::events::Reason;
use qc_types::SqlError;

/// What was decided of a SELECT, with the number of its event.
#[derive(Drop)]
pub enum Selected {
    /// An entry answers it, which the seat streams.
    Hit(Hit),
    /// An entry was begun, which the seat fills.
    Start {
        /// The serial of the entry.
        serial: u64,
        /// The number of the event.
        place: u64,
        /// The plan that gives its rows.
        plan: Plan,
    },
    /// It runs outside of the cache.
    Plain {
        /// Why it does.
        reason: Reason,
        /// The number of the event.
        place: u64,
        /// The plan that gives its rows, or the error with which it is refused.
        plan: Result<Plan, SqlError>,
    },
}
