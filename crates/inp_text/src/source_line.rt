//! A line that is kept.
use list_types::Bytes;

/// A line of a section, with its number in the file.
#[derive(Debug, Drop)]
pub struct SourceLine {
    /// The number of the line in its file, from 1.
    pub number: u64,
    /// The bytes of the line, without its end.
    pub bytes: Bytes,
}
