//! The slow reading of all rules, as a replay asks for it.
#![tactic(auto)]

mod plain_reads;

pub use plain_reads::PlainReads;
