//! Why a line reader gave no line.

/// Why `LineReader::next_line` gave no line.
#[derive(Clone, Copy, Debug, PartialEq, Eq)]
pub enum ReadEnd {
    /// The line has more bytes than the limit. It was taken, and reading goes on.
    LineTooLong,
    /// The line reaches past the budget of bytes. The reader is spent.
    TooLong,
    /// A read failed. The reader is spent.
    Fault,
}
