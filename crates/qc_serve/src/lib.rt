//! Sessions over the shared server.
#![tactic(auto)]

mod answers;
mod changes;
mod connecting;
mod databases;
mod decision;
mod desk;
mod ending;
mod events;
mod execution;
mod hits_sent;
mod holding;
mod leaving;
mod log;
mod lookup;
mod notes;
mod pieces;
mod queries;
mod request;
mod rows;
mod rows_sent;
mod schema;
mod selects;
mod sends;
mod serving;
mod session;
mod settings;
mod sinks;
mod statements;
mod status;
mod status_reply;
mod transaction_end;
mod transactions;

pub use connecting::{NotConnected, Receipt, Receipts, connect};
pub use ending::End;
pub use execution::{Executed, execute, execute_keeping};
pub use log::{Log, Logged};
pub use serving::{reading_end, serve, serve_on};
pub use session::Session;
pub use sinks::{Gate, Moment, Piece, Pieces, Replies, ReplySink, Ungated};
