//! Plain types of the cache, which contracts see as plain data, and the ends that its bytes go through.
#![tactic(auto)]

mod boxed;
mod duplicate;
mod memory;
mod names;
mod options;
mod owned_list;
mod sql_error;
mod steps;
mod streams;
mod text;
mod totals;

pub use boxed::Boxed;
pub use duplicate::Duplicate;
pub use memory::{NoMemory, Or};
pub use names::{TableName, Tables, Texts, Value, Why, Wide};
pub use options::Options;
pub use owned_list::OwnedList;
pub use sql_error::SqlError;
pub use steps::Steps;
pub use streams::{BytesSink, BytesSource, PutStep, ReadStep, Sink, Source};
pub use text::Text;
pub use totals::Totals;
