//! The parts of clauses.
ghost use Rattle.std.specs.Prelude.{◌≡◌};

use interval_sets::IntervalSet;
use rule_types::Side;
use std::alloc::AllocError;

/// A column of tables: a key, or the expression of a place among the names.
pub type Column = Side;

/// A part of a clause.
#[derive(Debug, Drop)]
pub enum Part {
    /// The value of the column is in the set; a missing value is in none.
    Column(Column, IntervalSet),
    /// The condition at this place, from 0, of the row's rule holds.
    Number(u32),
}

/// A copy takes memory, and equals its part.
impl Clone for Part {
    ghost is_clone = { λ part copy. copy ≡ part };

    fn clone(&self) -> Result<Part, AllocError> {
        match self {
            Part::Column(column, set) => Ok(Part::Column(*column, set.clone()?)),
            Part::Number(place) => Ok(Part::Number(*place)),
        }
    }
}
