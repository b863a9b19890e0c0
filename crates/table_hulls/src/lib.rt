//! The hulls of curves and time series: intervals that hold their values over an interval of x or
//! over moments.
#![tactic(auto)]

mod argument;
mod clamp;
pub mod examples;
mod hulls;
pub mod laws;
mod second;
mod segment;

pub use hulls::{curve_hull, series_hull};
