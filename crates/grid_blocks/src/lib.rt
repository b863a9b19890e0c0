//! The grid of a question by its cuts: boxes of runs of pieces, and that the cells of a block are
//! those of the grid.
#![tactic(auto)]

mod boxes;
mod grid;
pub mod laws;

pub use grid::{Grid, KeyCuts, MomentPieces};
