//! The clock: what its keys are worth at a moment, how times are compared within half a step, and at
//! which whole seconds a condition on hours holds.
#![tactic(auto)]

mod clock;
pub mod laws;
mod relations;
mod seconds;
mod steps;
mod window;

pub use clock::{clock_value, hours_of, whole};
pub use relations::{meets, time_relation};
pub use seconds::{all_hold, none_hold};
pub use steps::{StepEnds, hours_of_step, minutes_of, step_ends};
pub use window::{Window, window_of};
