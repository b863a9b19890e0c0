//! The commands on an input file alone or with a trace, `check`, `tables` and `replay`, by their
//! words.
#![tactic(auto)]

mod project_command;
mod run_command;

pub use project_command::{ProjectCommand, project_command_of};
pub use run_command::run_project;

#[cfg(test)]
mod tests;
