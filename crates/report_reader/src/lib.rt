//! The reader of a report, entry by entry.
#![tactic(auto)]

mod entry;
mod grid;
mod reader;
mod version;

pub use entry::EntryRead;
pub use grid::grid_of;
pub use reader::{Report, next_entry};
pub use version::read_version;
