//! The slow reading of one state: all rules in their order, the listed pairs settled link by link.
#![tactic(auto)]

mod list;
mod reader;
mod readings;

pub use reader::read_rules;
pub use readings::Readings;
