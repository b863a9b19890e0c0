//! The lines of a ranges file: the ranges of keys, moments and the step, and the questions that are
//! asked of them; or the first fault of the file.
#![tactic(auto)]

mod entry;
pub mod examples;
mod fault;
mod given;
mod key_ranges;
mod known;
pub mod laws;
mod link_set;
mod needs;
mod place;
mod questions;
mod reading;
mod rule_ids;

pub use fault::{RangeCause, RangeEnd, write_fault};
pub use link_set::LinkSet;
pub use reading::read_ranges;
