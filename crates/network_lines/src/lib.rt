//! The options of an input file and the network of its objects, with the first refusal among their
//! lines.
#![tactic(auto)]

pub mod laws;
mod limit;
mod merged;
mod network;
mod object_line;
mod options;
mod value;

pub use limit::room_for;
pub use network::{LinkData, Network, NetworkRead, read_network};
pub use options::{OptionSet, OptionsRead, read_options};
pub use value::{ValueKind, read_value};
