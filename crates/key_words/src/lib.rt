//! The words of control rules and of keys, both ways: object words, attributes, relations and
//! statuses. Reading ignores the case of ASCII letters and takes no memory; writing gives the word
//! in the letters of the SWMM 5.2 manual.
#![tactic(auto)]

mod attributes;
mod clock;
mod keys;
pub mod laws;
mod objects;
mod relations;
mod status;

pub use attributes::{read_attribute, read_attribute_of, write_attribute};
pub use clock::{clock_attribute_text, read_clock_attribute};
pub use keys::{name_text, write_key};
pub use objects::{is_simulation, object_word_text, read_object_word, simulation_text};
pub use relations::{read_relation, relation_text};
pub use status::{StatusWord, read_status_word, status_word_text};
