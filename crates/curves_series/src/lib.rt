//! The curves and the time series of an input file: which of them its control lines use, their
//! points and their values, and what a name finds among them.
#![tactic(auto)]

pub mod axis;
mod curve;
mod entry;
pub mod examples;
mod fault;
mod groups;
pub mod laws;
mod names;
mod pair;
mod reading;
mod series;
mod tables;
mod used;
mod values;

pub use fault::TableFault;
pub use names::{TableNames, find_curve, find_series};
pub use tables::Tables;
pub use values::{hours_of, segment_value};
