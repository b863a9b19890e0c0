//! Edges of sets.
ghost use Rattle.std.specs.Prelude.{◌≡◌};

use crate::interval::Bound;
use exact_fraction::frac::Frac;
use exact_fraction::relation::Relation;

/// A place on the line of fractions at which membership in a set can change: an end of the line, or
/// just below or just above a number.
#[derive(Clone, Copy, Debug)]
pub(crate) enum Edge {
    /// Below all fractions.
    BelowAll,
    /// Just below the number, which is past the edge.
    Before(Frac),
    /// Just above the number, which is not past the edge.
    After(Frac),
    /// Above all fractions.
    AboveAll,
}

impl Edge {
    ghost use Rattle.interval_sets.specs.internal.Edges.{low_edge, high_edge, low_end, high_end};
    ghost use Rattle.interval_sets.specs.internal.Edges.{stands_before};

    /// The edge at which membership begins at a low end.
    pub(crate) fn of_low(low: &Bound) -> Edge
        ensures value { result ≡ low_edge low.now }
    {
        match low {
            Bound::NoBound => Edge::BelowAll,
            Bound::Bound(number, true) => Edge::After(*number),
            Bound::Bound(number, false) => Edge::Before(*number),
        }
    }

    /// The edge at which membership stops at a high end.
    pub(crate) fn of_high(high: &Bound) -> Edge
        ensures value { result ≡ high_edge high.now }
    {
        match high {
            Bound::NoBound => Edge::AboveAll,
            Bound::Bound(number, true) => Edge::Before(*number),
            Bound::Bound(number, false) => Edge::After(*number),
        }
    }

    /// The low end that stands for the edge.
    pub(crate) fn low_end(&self) -> Bound
        ensures value { result ≡ low_end self.now }
    {
        match self {
            Edge::BelowAll | Edge::AboveAll => Bound::NoBound,
            Edge::Before(number) => Bound::Bound(*number, false),
            Edge::After(number) => Bound::Bound(*number, true),
        }
    }

    /// The high end that stands for the edge.
    pub(crate) fn high_end(&self) -> Bound
        ensures value { result ≡ high_end self.now }
    {
        match self {
            Edge::BelowAll | Edge::AboveAll => Bound::NoBound,
            Edge::Before(number) => Bound::Bound(*number, true),
            Edge::After(number) => Bound::Bound(*number, false),
        }
    }

    /// Whether the edge stands before another.
    pub(crate) fn stands_before(&self, other: &Edge) -> bool
        ensures value { result ≡ stands_before self.now other.now }
    {
        match self {
            Edge::BelowAll => !matches!(other, Edge::BelowAll),
            Edge::Before(number) => match other {
                Edge::BelowAll => false,
                Edge::Before(next) => Relation::Lt.holds(number, next),
                Edge::After(next) => Relation::Le.holds(number, next),
                Edge::AboveAll => true,
            },
            Edge::After(number) => match other {
                Edge::BelowAll => false,
                Edge::Before(next) | Edge::After(next) => Relation::Lt.holds(number, next),
                Edge::AboveAll => true,
            },
            Edge::AboveAll => false,
        }
    }
}
