//! Reads replies from their packets, from the left, up to the first fault.

mod columns;
mod encoded;
mod fields;
mod packets;
mod payload;
mod reply;
mod rows;
mod single;

pub use reply::read_reply;
