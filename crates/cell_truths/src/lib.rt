//! What is known of premises at the cells of a plain question: each premise is decided, and is
//! as it is at the cell's sample.
#![tactic(auto)]

pub mod laws;
