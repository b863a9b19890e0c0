//! The tool: its commands over files and sinks.
#![tactic(auto)]

mod command;
mod run_command;

pub use command::{Command, command_of};
pub use run_command::run;

#[cfg(test)]
mod tests;
