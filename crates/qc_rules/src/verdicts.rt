//! Verdicts.

use qc_types::Why;

/// Whether the cache may keep a SELECT, by its text and the current database alone.
#[derive(Debug, Drop)]
pub enum Verdict {
    /// Nothing in its text keeps it out.
    Cacheable,
    /// It has no part in the cache, for this reason.
    Not(Why),
}
