//! Which of the listed pairs of rules and actions are settled: for each link the one whose rule has
//! the highest priority.
#![tactic(auto)]

mod pairs;
mod table;

pub use table::{settle, settle_into};
