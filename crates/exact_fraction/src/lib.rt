//! Exact fractions, moments and the relations of conditions.
#![tactic(auto)]

mod decimal;
mod divisor;
pub mod error;
pub mod frac;
pub mod laws;
pub mod moment;
pub mod relation;
#[cfg(test)]
mod tests;
