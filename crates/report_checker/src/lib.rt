//! The checker of reports: each entry is read, and then its verdict is judged.
#![tactic(auto)]

mod checking;
mod counts;
mod entry;
mod fault;
pub mod laws;

pub use checking::check_report;
pub use counts::Counts;
pub use fault::{ReportFault, ReportStop};
