//! Entries of a report.
use verdict_meaning::{Question, Verdict};

/// An entry that was read.
#[derive(Drop)]
pub struct EntryRead {
    pub question: Question,
    pub verdict: Verdict,
    /// Of a tree the places from 0 of the lines of its nodes, in their order; and nothing else.
    pub places: Vec<u64>,
    /// The place of the line behind the entry.
    pub next: usize,
}
