//! Certificates.
use exact_fraction::frac::Frac;
use exact_fraction::moment::Moment;
use list_types::{Boxed, Items};
use rule_types::Key;

/// Facts on premises: rules by their places in the file from 0, and true where the premise holds.
pub type Facts = Items<(u32, bool)>;

/// Why a leaf's box has no state with the question's event.
#[derive(Debug, Drop, PartialEq, Eq)]
pub enum Reason {
    /// The box is shown.
    Whole,
    /// The box is shown by these facts alone.
    Facts(Facts),
}

/// A certificate that no state of a box has a question's event.
#[cycle(cert)]
#[derive(Debug, Drop, PartialEq, Eq)]
pub enum Cert {
    Leaf(Reason),
    /// The certificates of the parts of the box below, at and above a number on a key.
    Split(Key, Frac, Boxed<Cert>, Boxed<Cert>, Boxed<Cert>),
    /// The certificates of the parts of the box before a moment and from it.
    Before(Moment, Boxed<Cert>, Boxed<Cert>),
}

/// What is wrong with an entry of a report.
#[derive(Clone, Copy, Debug, PartialEq, Eq)]
pub enum CertCause {
    /// A node is not well formed.
    Shape,
    /// A leaf's box is not shown.
    NotShown,
    /// A state is outside the ranges or does not have the event.
    NoEvent,
}

/// A certificate is not accepted, or memory is wanting.
#[derive(Clone, Copy, Debug, PartialEq, Eq)]
pub enum CertEnd {
    /// The place of the first node at fault, in the order of the nodes' lines from 0, and what is
    /// wrong with it.
    Fault { place: u64, cause: CertCause },
    NoMemory,
}
