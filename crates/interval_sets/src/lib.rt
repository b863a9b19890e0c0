//! Sets of fractions as intervals in normal form, and lists of cuts that are read at a counted
//! number of steps.
#![tactic(auto)]

mod combination;
mod cut_list;
mod edge;
mod interval;
mod interval_set;
pub mod laws;
mod merge;
mod pieces;
mod steps;

pub use cut_list::CutList;
pub use interval::{Bound, Interval};
pub use interval_set::IntervalSet;
pub use steps::Steps;
