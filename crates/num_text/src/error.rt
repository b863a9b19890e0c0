//! Why a text gives no number.
use thiserror::Error;

/// Why a text gives no number.
#[derive(Clone, Copy, Debug, PartialEq, Eq, Error)]
pub enum NumberFault {
    /// The text is no number.
    #[error("the text is no number")]
    BadNumber,
    /// The text is a number past the bounds.
    #[error("the number is too large")]
    TooLarge,
}
