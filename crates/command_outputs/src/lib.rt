//! What every command of the tool leaves: its status, its text, and the line on standard error.
//!
//! `read_whole` reads a file to its end, `write_text` writes a text, and `conclude` says why a
//! command did not write its whole text. The definitions say what a command leaves as one value,
//! an `Outcome`, of what its files hold; a command is a nest of stages, one for each file that it
//! reads to its end before it goes on.
#![tactic(auto)]

mod complaint;
mod completion;
mod conclusion;
mod file_kind;
mod laws;
mod messages;
mod place;
mod refusal_line;
mod role;
mod status;
mod whole_file;
mod whole_text;

pub use complaint::Complaint;
pub use completion::Completion;
pub use conclusion::conclude;
pub use file_kind::{FileKind, INPUT_FILE, RANGES_FILE, REPORT_FILE, TRACE_FILE};
pub use laws::{command_ends, stage_outcomes, stages};
pub use messages::{out_of_memory, read_failed, tell, too_long, write_failed};
pub use place::{BranchWord, Place, StopWord};
pub use refusal_line::RefusalLine;
pub use role::Role;
pub use status::Status;
pub use whole_file::read_whole;
pub use whole_text::write_text;

#[cfg(test)]
mod tests;
