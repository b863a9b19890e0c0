//! The values of actions at a state: constants, curves, series and steps of PID actions; the pass
//! over the listed PID actions; and the orders that links get.
#![tactic(auto)]

mod link;
mod order;
mod pids;
mod places;
mod readings;
mod sides;
mod worth;

pub use link::LinkFacts;
pub use order::give_orders;
pub use places::controlled_places;
pub use readings::read_pairs;
