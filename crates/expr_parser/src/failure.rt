//! Why a rule of the grammar reads nothing.
use std::alloc::AllocError;

/// Why a rule of the grammar reads nothing.
#[derive(Clone, Copy, PartialEq, Eq)]
pub enum Failure {
    /// The tokens do not have its form.
    Grammar,
    NoMemory,
}

impl From<AllocError> for Failure {
    ghost use Rattle.std.specs.Prelude.{◌≡◌};
    ghost use Rattle.expr_parser.specs.declared.failure.Failure.TheVariants.{NoMemory as memory};

    ghost from_gives = { λ _ failure. failure ≡ memory };

    fn from(_: AllocError) -> Failure {
        Failure::NoMemory
    }
}
