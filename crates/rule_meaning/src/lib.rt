//! What control rules mean: the definitions are in specs/, and the functions here do nothing. Their
//! contracts state laws of the definitions and examples of them, which the check proves.
#![tactic(auto)]

pub mod clock_laws;
pub mod examples;
pub mod formula_examples;
pub mod further_laws;
pub mod laws;
pub mod pid_examples;
pub mod stop_examples;
