//! What a session does with its seat outside the lock: hits go out piece by piece, and entries are filled packet by packet.
#![tactic(auto)]

mod endings;
mod fills;
mod growths;
mod laws;
mod packs;
mod streams;

pub use fills::{Ended, Fill, FillStep};
pub use laws::{fills_answer, fills_begin, hits_answer, packets_follow, streams_begin};
pub use streams::Stream;
