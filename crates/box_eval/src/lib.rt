//! Which boxes of states are shown: what is known of the premises at all states of a box excludes
//! the event that a question asks for.
#![tactic(auto)]

mod actions;
mod agreement;
mod asked;
mod boxes;
mod candidates;
mod conflict;
mod dead;
mod hulls;
mod known;
mod limit;
mod links;
mod ranks;
mod truths;

pub use agreement::{BranchAt, disagree};
pub use asked::is_asked;
pub use boxes::{premise_truth, shown, shown_by};
pub use ranks::are_level;
