//! How two sets are put together.
ghost use Rattle.std.specs.Prelude.{◌≡◌};

/// How two sets are put together.
#[derive(Clone, Copy, Debug, PartialEq, Eq)]
pub(crate) enum Combination {
    /// The members of either.
    Union,
    /// The members of both.
    Meet,
    /// The members of the left that are not in the right.
    Difference,
}

impl Combination {
    ghost use Rattle.interval_sets.specs.internal.Edges.{in_combination};

    /// Whether a number is in the combination, from whether it is in each of the two sets.
    pub(crate) fn holds(self, left: bool, right: bool) -> bool
        ensures value { result ≡ in_combination self left right }
    {
        match self {
            Combination::Union => left || right,
            Combination::Meet => left && right,
            Combination::Difference => left && !right,
        }
    }
}
