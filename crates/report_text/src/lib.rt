//! Reports as they are written, in version 2: an entry for each question, with its verdict and the
//! certificate, the state or the cell of it. What is written is read back by the reader of reports.
#![tactic(auto)]

mod cell;
mod entry;
mod key_values;
pub mod laws;
mod line;
mod numbers;
mod ordered;
mod state;
mod tree;
mod verdict;

pub use entry::{write_end, write_entry, write_start};
