//! A log behind the lock, to which seats add, each in a thread of its own.

mod add;
mod entry;
mod log;
mod shares;
