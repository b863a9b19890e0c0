//! Where what is known of premises is decided at a state, and does not show that a question's event
//! is excluded, the state has the event. The functions here do nothing: their contracts state laws
//! for the proofs of the crates above.
#![tactic(auto)]

pub mod laws;
