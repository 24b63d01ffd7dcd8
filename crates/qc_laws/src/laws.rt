//! The laws by subject.

pub mod fits;
pub mod history;
pub mod runs;
pub mod sizes;
