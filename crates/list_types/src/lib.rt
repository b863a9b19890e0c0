//! Lists and boxes for the fields of public types: contracts see a list as the list of its items
//! and a box as its value, so that a type made of them is plain data.
#![tactic(auto)]

mod boxed;
mod items;
mod room;

pub use boxed::Boxed;
pub use items::{Bytes, Items};
pub use room::push_within_capacity;
