//! Facts of which none can be left out: from facts that are accepted, one pass takes out each that
//! is not needed.
#![tactic(auto)]

mod judge;
mod pass;

pub use judge::Judge;
pub use pass::lean;
