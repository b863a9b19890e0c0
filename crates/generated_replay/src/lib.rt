//! The command `gen N`: it makes an input file and a trace in memory, and replays them.
#![tactic(auto)]

mod generate_command;
mod input;
mod text;

pub use generate_command::generate;
