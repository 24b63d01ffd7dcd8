//! What every session works with.

use qc_core::Server;
use qc_turn::Turn;
use std::alloc::{AllocError, Global};

/// What every session works with: shared references alone.
pub(crate) struct Desk<'a, R> {
    pub(crate) rt: &'a R,
    pub(crate) alloc: Global,
    pub(crate) turn: &'a Turn<Server>,
}

impl<R> Clone for Desk<'_, R> {
    fn clone(&self) -> Result<Self, AllocError> {
        Ok(*self)
    }
}

impl<R> Copy for Desk<'_, R> {}
