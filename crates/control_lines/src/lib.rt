//! The lines of [CONTROLS]: what the items of a line say, the order of its clauses, and which of
//! several faults on one line is reported.
#![tactic(auto)]

mod clause;
mod fault;
pub mod laws;
mod parts;
mod read;
mod statement;

pub use clause::{Clause, Stage};
pub use fault::{Fault, both, refused_where};
pub use read::read_statement;
pub use statement::{
    ActionText, ActionWord, ConditionText, ConditionWord, KeyText, ObjectAttribute, PidText,
    SideText, Statement, TableText, ValueText,
};
