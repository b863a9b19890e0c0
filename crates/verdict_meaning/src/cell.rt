//! Boxes of states.
ghost use Rattle.std.specs.Prelude.{◌≡◌};

use exact_fraction::moment::Moment;
use interval_sets::Interval;
use list_types::Items;
use rule_types::Key;
use std::alloc::AllocError;

/// A box of states: an interval for each of its keys, and where wanted a first and a last moment.
#[derive(Debug, Drop, PartialEq, Eq)]
pub struct Cell {
    pub keys: Items<(Key, Interval)>,
    pub moments: Option<(Moment, Moment)>,
}

/// A copy takes memory, and equals its box.
impl Clone for Cell {
    ghost is_clone = { λ cell copy. copy ≡ cell };

    fn clone(&self) -> Result<Cell, AllocError> {
        Ok(Cell {
            keys: self.keys.clone()?,
            moments: self.moments,
        })
    }
}
