//! Runs of pieces.

/// The pieces of an axis from `low` on, as far as `high`, which is not among them; none where
/// `high` is not above `low`.
#[derive(Clone, Copy, Debug, PartialEq, Eq)]
pub struct Span {
    pub low: u32,
    pub high: u32,
}
