//! What a file of a command is.

/// What a file of a command is.
#[derive(Clone, Copy, Debug, PartialEq, Eq)]
pub enum Role {
    /// The input file with the rules, in slot 0.
    Input,
    /// The trace, in slot 1.
    Trace,
    /// The ranges, in slot 1.
    Ranges,
    /// The report, in slot 2.
    Report,
}
