//! The axis of a time series.

/// What the times of a series are counted from, as far as its entries show it (SWMM 5.2 manual,
/// [TIMESERIES]).
#[derive(Clone, Copy, PartialEq, Eq)]
pub enum Axis {
    /// There is no entry yet.
    Open,
    /// The first entry has no date: times are hours since the start.
    Hours,
    /// The first entry has a date; the day number of the date in force.
    Days(i32),
}
