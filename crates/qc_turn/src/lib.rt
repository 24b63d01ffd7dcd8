//! A lock over a value and the words of a region that it describes. Who has the turn holds the value. Seats that stream or fill blocks of the region
//! do so without the turn.
#![tactic(auto)]

mod held;
mod kept;
mod lines;
mod outside;
mod rule;
mod seat;
mod steps;
mod task;
mod turn;
mod view;

pub use held::{Held, TurnGuard};
pub use kept::Kept;
pub use rule::{Rule, Start};
pub use seat::{Pass, Seat};
pub use task::{ListedTask, Task};
pub use turn::{Busy, Turn};
pub use view::{FoundWord, Holding, MetSeat, View};
