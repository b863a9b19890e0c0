//! Names, found by the same bytes, and failing that with the case of ASCII letters ignored; and the
//! named objects of a network.
#![tactic(auto)]

mod found;
mod index;
pub mod laws;
mod name_table;
mod place;
mod space_names;
mod unresolved;

pub use found::Found;
pub use index::ObjectIndex;
pub use name_table::NameTable;
pub use unresolved::Unresolved;
