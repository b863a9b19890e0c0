//! What the values of keys, sides and formulas can be at the states of a box: the hulls of the
//! operations, and of the clock over the moments of the box.
#![tactic(auto)]

mod clock;
mod ends;
mod formula;
mod keys;
mod operations;
mod products;
mod sides;
mod signs;

pub use keys::{key_reach, piece_in};
pub use sides::{left_reach, right_reach};
