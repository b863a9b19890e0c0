//! What is known in a box of states.
use interval_sets::Interval;

/// What the values of a key, a side or a formula can be at the states of a box.
#[derive(Clone, Copy, Debug, PartialEq, Eq)]
pub enum Reach {
    /// At no state there is a value.
    Missing,
    /// Each value lies in the interval. Where the mark is true, each state has one.
    Within(bool, Interval),
}

/// What is known of a condition or of a premise at all states of a box.
#[derive(Clone, Copy, Debug, PartialEq, Eq)]
pub enum Truth {
    /// It holds at each state.
    Yes,
    /// It holds at none.
    No,
    /// Neither is known.
    Open,
}
