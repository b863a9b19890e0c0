//! The values of names and of the sides of conditions at a state, and the premises of rules over
//! these values.
#![tactic(auto)]

mod column;
mod conditions;
mod find;
mod formula;
pub mod laws;
mod making;
mod marks;
mod names;
mod place;
mod plan;
mod premises;
mod step_hours;
mod values;

pub use column::{Column, Pair};
pub use find::link_at;
pub use making::{derive, derive_for};
pub use place::Place;
pub use premises::{condition, controller, left_column, premise, set_point, side_value};
pub use values::Values;
