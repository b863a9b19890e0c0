//! The lines of a trace: its header, which says which column gives which input of the rules, and
//! its rows.
#![tactic(auto)]

mod columns;
pub mod examples;
mod fault;
mod field;
mod fill;
mod header;
pub mod laws;
mod plain_number;
mod record;
mod row;
mod row_moment;
mod written_moment;

pub use fault::{TraceCause, TraceEnd, write_fault};
pub use header::Header;
pub use written_moment::WrittenMoment;
