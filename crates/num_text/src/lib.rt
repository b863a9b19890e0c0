//! Numbers, times, dates and moments as they are read and written.
#![tactic(auto)]

pub mod civil_days;
pub mod clocks;
pub mod counts;
pub mod dates;
pub mod error;
pub mod examples;
mod fields;
pub mod laws;
pub mod moments;
mod narrow;
pub mod numbers;
mod plain;
mod pointed;
mod ratio;
pub mod short_text;
mod significand;
mod spelled;
pub mod steps;
pub mod times;
pub mod values;
