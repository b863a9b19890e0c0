//! Why the lines of a slot were not all read.
ghost use Rattle.std.specs.Prelude.{◌≡◌};
ghost use Rattle.byte_edge.specs.declared.lines_end.LinesEnd.TheVariants.{NoMemory as out_of_memory};

use super::NoMemory;
use std::alloc::{AllocError, AllocFailed};

/// Why `read_lines` did not give all lines of its slot.
#[derive(Clone, Copy, Debug, PartialEq, Eq)]
pub enum LinesEnd {
    /// A read failed.
    Failed,
    /// The slot has more bytes than the budget.
    TooLong,
    /// There was not enough memory for a line.
    NoMemory,
}

impl From<NoMemory> for LinesEnd {
    ghost from_gives = { λ _ e. e ≡ out_of_memory };

    fn from(_error: NoMemory) -> LinesEnd {
        LinesEnd::NoMemory
    }
}

impl From<AllocError> for LinesEnd {
    ghost from_gives = { λ _ e. e ≡ out_of_memory };

    fn from(_error: AllocError) -> LinesEnd {
        LinesEnd::NoMemory
    }
}

impl<T: Drop> From<AllocFailed<T>> for LinesEnd {
    ghost from_gives = { λ _ e. e ≡ out_of_memory };

    fn from(_error: AllocFailed<T>) -> LinesEnd {
        LinesEnd::NoMemory
    }
}
