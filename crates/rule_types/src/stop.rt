//! Stops: readings that have no result.
use crate::action::ActionAt;

/// Why a reading stops.
#[derive(Clone, Copy, PartialEq, Eq)]
pub enum StopCause {
    /// A result does not fit.
    Overflow,
    /// A divisor is 0.
    ZeroDivisor,
}

/// Where a reading stops.
#[derive(Clone, Copy, PartialEq, Eq)]
pub enum StopPlace {
    /// At the used name of this place among the names.
    Name(u32),
    /// At a listed action.
    Action(ActionAt),
}

/// The first place at which a reading has no result, and why.
#[derive(Clone, Copy, PartialEq, Eq)]
pub struct Stop {
    pub place: StopPlace,
    pub cause: StopCause,
}

/// Why the reading of one state gives no orders.
#[derive(Clone, Copy, PartialEq, Eq)]
pub enum ReadingEnd {
    Stop(Stop),
    NoMemory,
}

/// Why a row of a replay gives no settings.
#[derive(Clone, Copy, PartialEq, Eq)]
pub enum RowStop {
    /// The reading of this row stops.
    Stop(Stop),
    /// An earlier row stopped.
    Stopped(Stop),
}
