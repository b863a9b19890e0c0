//! The first box of a question over ranges: the keys of the question's grid, and whether it has
//! moments.
#![tactic(auto)]

mod box_of_ranges;
mod order;
mod reads;
mod rule_reads;

pub use box_of_ranges::first_box;
pub use order::{grid_keys, has_moments};
