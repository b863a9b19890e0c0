//! Questions on control rules over ranges of states, and what their answers mean: the types of
//! ranges, boxes, certificates and verdicts stand here as plain data, and their meaning in specs/.
//! The functions here do nothing: their contracts state laws of the definitions and examples of
//! them, which the check proves.
#![tactic(auto)]

pub mod action_examples;
pub mod box_examples;
mod cell;
mod cert;
pub mod examples;
pub mod laws;
mod question;
mod ranges;
mod truth;
mod verdict;

pub use cell::Cell;
pub use cert::{Cert, CertCause, CertEnd, Facts, Reason};
pub use question::Question;
pub use ranges::Ranges;
pub use truth::{Reach, Truth};
pub use verdict::{Stuck, Verdict};
