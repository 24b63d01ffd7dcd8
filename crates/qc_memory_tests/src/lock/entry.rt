//! What a log lists.

/// An entry of a session.
#[derive(Clone, Copy, Debug, Drop)]
pub struct Entry {
    pub session: u32,
    pub number: u64,
}
