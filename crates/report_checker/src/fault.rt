//! Why a report is not accepted.
use verdict_meaning::CertCause;

/// The first line at fault, from 1, and what is wrong with it; where the report ends too early it is
/// the line behind its last.
#[derive(Clone, Copy, Debug, PartialEq, Eq)]
pub struct ReportFault {
    pub line: u64,
    pub cause: CertCause,
}

/// Why a report is not accepted.
#[derive(Clone, Copy, Debug, PartialEq, Eq)]
pub enum ReportStop {
    Fault(ReportFault),
    /// There was no memory.
    NoMemory,
}
