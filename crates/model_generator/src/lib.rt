//! The model that the tool makes for itself: an input file and a trace of any size.
//!
//! It has a junction, a pump and three rules for each number up to a given one, and a trace of ten
//! rows for each pump, in which the depths rise and fall so that pumps switch all the time.
#![tactic(auto)]

pub mod examples;
mod files;
mod input;
mod trace;

pub use files::gen_files;
