//! A file that is read to its end and kept as a list of lines.
#![tactic(auto)]

mod file_lines;

pub use file_lines::read_file;
