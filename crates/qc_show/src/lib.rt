//! Reports of the cache, shown to people.
#![tactic(auto)]

mod arguments;
mod client;
mod fault;
mod lives;
mod page;
mod plain;
mod script;
mod sessions;
mod summary;
mod tables;
mod views;
mod words;

pub use arguments::{Request, Told, View, read_words};
pub use fault::{Fault, Refusal};
pub use views::show;
