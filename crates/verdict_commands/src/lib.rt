//! The commands on an input file and the ranges of its states: `prove` and `verify`.
#![tactic(auto)]

mod decided_report;
mod draft;
mod faults;
pub mod laws;
mod prepared;
mod prove_command;
mod report;
mod verify_command;

pub use prepared::{Prepared, read_ranges_file};
pub use prove_command::prove;
pub use report::read_report_file;
pub use verify_command::verify;
