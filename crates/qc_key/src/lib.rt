//! The keys of the query cache's entries, as bytes, and the hash of bytes.
#![tactic(auto)]

mod hashing;
mod keys;
mod laws;

pub use hashing::{hash, table_hash};
pub use keys::{KeyParts, can_be_keyed, key_bytes, read_key};
pub use laws::one_spelling;
pub use qc_sql::session::Flags;
