//! States of the network, at which rules are read.
use exact_fraction::frac::Frac;
use exact_fraction::moment::Moment;
use list_types::Items;

/// The state of a tracked link.
#[derive(Clone, Copy, Debug, PartialEq, Eq)]
pub struct LinkState {
    pub setting: Frac,
    /// Where the setting moves to.
    pub target: Frac,
    /// Hours since the link's last switch, and before the first one since the start.
    pub timer: Frac,
}

/// A state at which rules are read.
#[derive(Debug, Drop, PartialEq, Eq)]
pub struct State {
    pub moment: Moment,
    pub start: Moment,
    /// The time since the last row that was due, in seconds; at the first row ROUTING_STEP.
    pub step: Frac,
    /// The number of each input key, or None where it is missing.
    pub inputs: Items<Option<Frac>>,
    /// The state of each tracked link.
    pub links: Items<LinkState>,
}
