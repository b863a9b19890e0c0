//! What `prove` writes, `verify` accepts: laws of their outcomes, and tests of both on the same
//! files.
#![tactic(auto)]

pub mod laws;
#[cfg(test)]
mod tests;
