//! The tool over files in memory.
#![tactic(auto)]

mod in_memory;

pub use in_memory::{Written, replay_bytes};

#[cfg(test)]
mod tests;
