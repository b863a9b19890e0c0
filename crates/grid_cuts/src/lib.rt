//! The grid of a question over ranges: each range cut where a condition of the question's rules
//! changes, or the count of its cells where they are too many.
#![tactic(auto)]

mod asked;
mod conditions;
mod counting;
mod cut;
mod end;
mod grids;
mod key_cuts;
mod key_range;
mod moments;
mod rising_numbers;

pub use end::GridEnd;
pub use grids::grid_of;
