//! What statements do on a journal, its database and a session's state, whoever holds them; and their replies as packets.
#![tactic(auto)]

mod cache_keys;
mod current_database;
mod replies;
mod row_changes;
mod row_packets;
mod schema_changes;
mod settings;
mod transaction_end;

pub use cache_keys::{asks_cache, key};
pub use current_database::use_db;
pub use replies::{error_reply, fault_error, ok_reply};
pub use row_changes::{add, arrive, effect_on_view};
pub use row_packets::RowPackets;
pub use schema_changes::{SchemaChange, schema_change};
pub use settings::{is_autocommit, put, switches_on};
pub use transaction_end::check_conflicts;
