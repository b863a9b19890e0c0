//! Why a name gives no table.

/// Why a name gives no table.
#[derive(Clone, Copy, PartialEq, Eq)]
pub enum TableFault {
    /// The name finds no table, or is ambiguous.
    Unknown,
    /// The series is kept in a file of its own (SWMM 5.2 manual, [TIMESERIES]).
    FileSeries,
    NoMemory,
}
