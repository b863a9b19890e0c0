//! The pieces into which the conditions on the clock cut a run of moments.
#![tactic(auto)]

pub mod examples;
mod lists;
mod piece_lists;
mod sides;
mod spans;
mod starts;
mod turns;

pub use piece_lists::{Cuts, moment_cuts};
