//! The text of a replay: its lines, how it ends, and what is said of the end.
#![tactic(auto)]

pub mod examples;
pub mod laws;
mod lines;
mod stops;

pub use lines::{write_header_line, write_row_line, write_row_line_at};
pub use stops::write_stop;
