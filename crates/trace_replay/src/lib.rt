//! A replay of rules over the rows of a trace, by any reading that takes no memory in a row.
#![tactic(auto)]

mod follow;
mod fresh;
mod hours;
pub mod laws;
mod movement;
mod progress;
mod reads;
mod replay;
mod row;
mod settings;
mod switches;
mod targets;
mod timers;
mod times;

pub use fresh::fresh_memories;
pub use progress::Progress;
pub use reads::Reads;
pub use replay::Replay;
