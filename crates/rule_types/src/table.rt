//! Points of curves and series.
ghost use Rattle.std.specs.Prelude.{◌≡◌, ◌↔◌, IsTrue};

use exact_fraction::frac::Frac;

/// A point of a curve or a series (SWMM 5.2 manual, [CURVES] and [TIMESERIES]).
#[derive(Clone, Copy, Debug, PartialEq, Eq)]
pub struct Point {
    pub x: Frac,
    pub y: Frac,
}

impl Point {
    /// Whether the two are the same point.
    #[tactic(auto, using(crate::proofs::Equal::sames))]
    pub fn is_same(&self, other: &Point) -> bool
        ensures value { IsTrue result ↔ (self.now ≡ other.now) }
    {
        self == other
    }
}
