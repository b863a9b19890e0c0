//! Why a line gives no tokens.

/// Why a line gives no tokens.
#[derive(Clone, Copy, Debug, PartialEq, Eq)]
pub enum TextFault {
    /// A control byte other than tab is before the comment, the first at this place, from 0.
    BadText(usize),
    /// There was no memory for the tokens.
    NoMemory,
}
