//! The printer of a replay: it takes the lines of a trace one after another, and adds to a text
//! what is printed of each.
#![tactic(auto)]

mod ends;
mod printer;
mod rows;

pub use printer::ReplayPrinter;
