//! Readings of rules by the tables of the links, as a replay asks for them: each link takes the
//! pair of the first row of its table that holds, and a table whose columns keep their pieces is
//! not looked at again.
#![tactic(auto)]

mod condition_truths;
mod firsts;
pub mod laws;
mod pid_rules;
mod pieces;
mod planned_tables;
mod sources;
mod table_readings;
mod table_reads;

pub use table_reads::TableReads;
