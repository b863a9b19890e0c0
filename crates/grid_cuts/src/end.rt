//! Why there is no grid.
use byte_edge::NoMemory;

/// Why there is no grid.
#[derive(Clone, Copy, Debug, PartialEq, Eq)]
pub enum GridEnd {
    /// There are more than 1,048,576 cells: so many, or 2^64-1 where there are more than that.
    TooManyCells(u64),
    /// There was not enough memory.
    NoMemory,
}

impl From<NoMemory> for GridEnd {
    ghost use Rattle.std.specs.Prelude.{◌≡◌};
    ghost use Rattle.grid_cuts.specs.declared.end.GridEnd.TheVariants.{NoMemory as memory};

    ghost from_gives = { λ _ end. end ≡ memory };

    fn from(_: NoMemory) -> GridEnd {
        GridEnd::NoMemory
    }
}
