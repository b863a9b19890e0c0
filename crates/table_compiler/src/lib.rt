//! The rules of each link as one table: rows by rank, each with clauses over sets of numbers, of
//! which the first that holds orders.
#![tactic(auto)]

mod clauses;
mod compiler;
pub mod examples;
mod groups;
pub mod laws;
mod link_tables;
mod part;
mod part_lists;
mod ranks;
mod row_lists;
mod rule_rows;
mod table;
mod texts;

pub use compiler::compile;
pub use link_tables::LinkTables;
pub use part::{Column, Part};
pub use table::{Clause, LinkTable, TableRow};
