//! How far a replay has come.
use crate::hours::KnownHours;
use exact_fraction::frac::Frac;
use exact_fraction::moment::Moment;
use rule_types::{LinkState, PidMemory, Stop};
use std::alloc::Global;

/// What a replay keeps from row to row, with room that is made once, so that a row takes no memory.
#[derive(Drop)]
pub struct Progress {
    pub(crate) alloc: Global,
    /// Where each tracked link stands, with its timer at the last row.
    pub(crate) links: Vec<LinkState>,
    /// The moment of the last switch of each tracked link.
    pub(crate) switches: Vec<Option<Moment>>,
    pub(crate) memories: Vec<PidMemory>,
    /// Room for the inputs of a row.
    pub(crate) inputs: Vec<Option<Frac>>,
    /// The place of each controlled link among the tracked ones, and its setting.
    pub(crate) places: Vec<usize>,
    pub(crate) settings: Vec<Frac>,
    /// The hours of gaps and timers.
    pub(crate) known: KnownHours,
    pub(crate) start: Option<Moment>,
    pub(crate) last: Option<Moment>,
    pub(crate) due: Option<Moment>,
    pub(crate) stop: Option<Stop>,
}
