//! The input file, read to its end and kept by section.
#![tactic(auto)]

mod input_lines;

pub use input_lines::read_sections;
