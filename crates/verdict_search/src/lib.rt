//! The answer to a question over ranges: the grid of the question is searched block by block, and
//! the decision is given as a verdict.
#![tactic(auto)]

mod deciding;
mod grid_cells;
mod grid_task;
pub mod laws;
mod whole_blocks;

pub use deciding::decide;
