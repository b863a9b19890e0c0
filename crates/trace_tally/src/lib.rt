//! The replay of rules over a trace that is held in memory: how often the settings of the
//! controlled links change, and what they are at its end.
#![tactic(auto)]

mod byte_lines;
mod complaints;
mod rows;
mod tally;

pub use byte_lines::{FirstLine, first_line};
pub use tally::{Replayed, replay_trace};
