//! The lines of a report: its questions and their verdicts, each with its tree, its state or its
//! cell; or the first line that has not its form.
#![tactic(auto)]

mod body;
mod cell;
pub mod examples;
mod fact;
mod fault;
mod grid;
mod key_line;
mod key_set;
mod known;
mod line;
mod node;
mod parts;
mod piece;
mod question;
mod state;
mod tree;
mod value;
mod values;
mod verdict;
mod verdict_line;

pub use body::Body;
pub use fault::{ReportEnd, write_fault};
pub use grid::Grid;
pub use key_set::KeySet;
pub use known::Known;
pub use question::read_question;
pub use verdict::read_verdict;
pub use verdict_line::VerdictLine;
