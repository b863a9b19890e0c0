//! The input file, read to its end and judged, and the command `check`.
#![tactic(auto)]

mod check_command;
mod input;
mod laws;
mod refusal;

pub use check_command::check;
pub use input::read_input;
pub use laws::{cause_names, whole_files};
pub use refusal::refusal_line;
