//! The samples of a question's grid: one state for each cell, which lies in every box that covers
//! the cell.
#![tactic(auto)]

mod keys;
pub mod laws;
mod links;
mod numbers;
mod samples;

pub use samples::sample;
