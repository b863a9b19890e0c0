//! What is known of conditions and of premises at all states of a box.
#![tactic(auto)]

mod conditions;
mod ends;
mod half_steps;
mod premises;
mod relations;
mod seconds;
mod sides;
mod times;

pub use conditions::condition_truth;
pub use premises::{premise_truth, rule_truth};
pub use sides::side_of;
pub use times::{Times, times_of};
