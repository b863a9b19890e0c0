//! Why an operation on numbers has no result.
use thiserror::Error;

/// The result of an operation does not fit: in lowest terms its numerator in size or its
/// denominator is over 2^63 - 1.
#[derive(Clone, Copy, Debug, PartialEq, Eq, Error)]
#[error("the number is too large")]
pub struct Overflow;

/// Why a quotient has no result.
#[derive(Clone, Copy, Debug, PartialEq, Eq, Error)]
pub enum DivFault {
    /// The quotient does not fit.
    #[error("the number is too large")]
    Overflow,
    /// The divisor is 0.
    #[error("the divisor is zero")]
    Zero,
}
