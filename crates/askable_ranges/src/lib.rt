//! The law of ranges that were read from a file: they are closed, they have the moments that
//! questions need, and the links of their limits are tracked.
#![tactic(auto)]

pub mod laws;
