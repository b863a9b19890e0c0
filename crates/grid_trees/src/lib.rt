//! Decisions of a grid as verdicts on its question: what is judged of the grid's blocks and cells,
//! and the certificate of a tree of cuts.
#![tactic(auto)]

mod certificates;
pub mod laws;

pub use certificates::cert_of;
