//! The facts of leaves: from all that a box tells of the premises of a question's rules, facts that
//! show the box alone and of which none can be left out.
#![tactic(auto)]

mod judge;
mod leaves;
mod told;

pub use leaves::facts_of;
