//! The words of the command line. `clap` reads those of `run`.

mod command;
mod laws;
mod numbers;
mod reading;

pub use laws::options_are_rounded;
pub use reading::{Asked, read_words};
