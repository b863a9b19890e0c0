//! The checker of certificates: a certificate that is accepted leaves no state of the ranges with
//! the question's event.
#![tactic(auto)]

mod leaves;
mod moments;
mod pieces;
mod places;
mod tree;

pub use tree::check;
