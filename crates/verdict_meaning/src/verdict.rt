//! Verdicts.
use crate::cell::Cell;
use crate::cert::Cert;
use rule_types::State;

/// Why a question stays undecided.
#[derive(Debug, Drop, PartialEq, Eq)]
pub enum Stuck {
    /// This cell of the grid is not shown, and its sample does not have the event.
    Cell(Cell),
    /// The grid has so many cells, or 2^64-1 where it has more.
    TooManyCells(u64),
}

/// The answer to a question.
#[derive(Debug, Drop, PartialEq, Eq)]
pub enum Verdict {
    /// No state of the ranges has the event.
    Holds(Cert),
    /// This state of the ranges has the event.
    Refuted(State),
    Undecided(Stuck),
}
