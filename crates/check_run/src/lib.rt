//! The command `check` by its words.
#![tactic(auto)]

mod run_command;

pub use run_command::run_check;
