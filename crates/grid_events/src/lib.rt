//! The samples of a grid's cells and the boxes of its blocks: a block that is shown has no cell
//! whose sample has the event.
#![tactic(auto)]

pub mod laws;
