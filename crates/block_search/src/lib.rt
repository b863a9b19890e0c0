//! The search of a grid: blocks of cells are cut until each is shown to have no event, has an
//! event, or is one cell that is not shown.
//!
//! What a block is, and what is asked of it, is told by a `Task`.
#![tactic(auto)]

mod block;
mod cut;
mod decision;
mod open_cell;
mod outcome;
mod search;
mod span;
mod task;
mod tree;

pub use decision::{Decision, decide};
pub use open_cell::first_open;
pub use outcome::Outcome;
pub use search::search_block;
pub use span::Span;
pub use task::Task;
pub use tree::Tree;
