//! The commands on the rules of an input file: `tables`, and `replay` over a trace.
#![tactic(auto)]

mod replay_command;
mod tables_command;

pub use replay_command::{printer_of, replay};
pub use tables_command::tables;
