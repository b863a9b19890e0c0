//! Whether a state lies in ranges and has the event that a question asks for.
#![tactic(auto)]

mod asked;
mod checking;
mod clock;
mod events;
mod fits;
pub mod laws;
mod limits;
mod links;
mod lists;
mod ranges;
mod settled;
mod values;
mod worth;

pub use checking::{check_state, is_witness};
pub use events::has_event;
