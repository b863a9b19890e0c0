//! Tests of whole runs on devices that fail.
#![tactic(auto)]

#[cfg(test)]
mod tests;
