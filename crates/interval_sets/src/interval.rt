//! Intervals of numbers.
ghost use Rattle.std.specs.Prelude.{◌≡◌, ◌↔◌, ◌&&◌, ◌||◌, not, true, false, IsTrue};
ghost use Rattle.exact_fraction.specs.Number.{Rational};
ghost use Rattle.exact_fraction.specs.Order.{same};
ghost use Rattle.interval_sets.specs.Intervals.{lies_in, is_above, is_below, has_member};
ghost use Rattle.interval_sets.specs.Intervals.{begins_earlier, ends_earlier};
ghost use Rattle.interval_sets.specs.Intervals.{earlier_low, later_low, earlier_high, later_high};
ghost use Rattle.interval_sets.specs.Intervals.{overlap_of, hull_of, point_of, whole_line};

use exact_fraction::frac::Frac;
use exact_fraction::relation::Relation;

/// An end of an interval.
#[derive(Clone, Copy, Debug, PartialEq, Eq)]
pub enum Bound {
    NoBound,
    /// The end, and whether it is left out.
    Bound(Frac, bool),
}

/// The numbers between two ends.
#[derive(Clone, Copy, Debug, PartialEq, Eq)]
pub struct Interval {
    pub low: Bound,
    pub high: Bound,
}

impl Interval {
    /// The interval of one number.
    pub fn point(x: Frac) -> Interval
        ensures value { result ≡ point_of x }
        ensures members { (q : Rational) → lies_in result q ≡ same q x }
    {
        Interval {
            low: Bound::Bound(x, false),
            high: Bound::Bound(x, false),
        }
    }

    /// The interval of all fractions.
    pub fn whole() -> Interval
        ensures value { result ≡ whole_line }
        ensures members { (q : Rational) → lies_in result q ≡ true }
    {
        Interval {
            low: Bound::NoBound,
            high: Bound::NoBound,
        }
    }

    /// The fractions that lie in both intervals: where there are none, its ends leave no room.
    pub fn meet(&self, other: &Interval) -> Interval
        ensures value { result ≡ overlap_of self.now other.now }
        ensures members { (q : Rational) →
            lies_in result q ≡ (lies_in self.now q && lies_in other.now q) }
    {
        Interval {
            low: self.low.later_low(&other.low),
            high: self.high.earlier_high(&other.high),
        }
    }

    /// The hull of both intervals, from the lower of the low ends to the higher of the high ends:
    /// it holds what lies in either and what lies between them.
    pub fn join(&self, other: &Interval) -> Interval
        ensures value { result ≡ hull_of self.now other.now }
        ensures holds_self { (q : Rational) →
            IsTrue (lies_in self.now q) → IsTrue (lies_in result q) }
        ensures holds_other { (q : Rational) →
            IsTrue (lies_in other.now q) → IsTrue (lies_in result q) }
    {
        Interval {
            low: self.low.earlier_low(&other.low),
            high: self.high.later_high(&other.high),
        }
    }

    /// Whether each fraction that lies in the interval lies in the other too.
    pub fn is_subset(&self, other: &Interval) -> bool
        ensures value { IsTrue result
            ↔ ((q : Rational) → IsTrue (lies_in self.now q) → IsTrue (lies_in other.now q)) }
    {
        self.lies_between(&other.low, &other.high)
    }

    /// Whether the interval is empty, or neither begins before the low end nor ends after the high
    /// end.
    fn lies_between(&self, low: &Bound, high: &Bound) -> bool
        ensures value { result ≡ (not (has_member self.now.low self.now.high)
            || (not (begins_earlier self.now.low low.now)
            && not (ends_earlier high.now self.now.high))) }
    {
        !self.has_member() || !self.low.begins_earlier(low) && !high.ends_earlier(&self.high)
    }

    /// Whether a number lies in the interval.
    pub fn holds(&self, x: &Frac) -> bool
        ensures value { result ≡ lies_in self.now x.now }
    {
        self.low.is_above(x) && self.high.is_below(x)
    }

    /// Whether no fraction lies in the interval.
    pub fn is_empty(&self) -> bool
        ensures value { result ≡ not (has_member self.now.low self.now.high) }
        ensures none { IsTrue result ↔ ((q : Rational) → lies_in self.now q ≡ false) }
    {
        !self.has_member()
    }

    /// Whether some fraction lies in the interval: its ends rise, or are one number that neither
    /// leaves out.
    fn has_member(&self) -> bool
        ensures value { result ≡ has_member self.now.low self.now.high }
    {
        match (&self.low, &self.high) {
            (Bound::Bound(low, false), Bound::Bound(high, false)) => Relation::Le.holds(low, high),
            (Bound::Bound(low, _), Bound::Bound(high, _)) => Relation::Lt.holds(low, high),
            _ => true,
        }
    }

    /// Whether the two are the same interval.
    #[tactic(auto, using(crate::proofs::EndEquality::sames))]
    pub fn is_same(&self, other: &Interval) -> bool
        ensures value { IsTrue result ↔ (self.now ≡ other.now) }
    {
        self == other
    }
}

impl Bound {
    /// Whether a number is on the inner side of this end as the low one.
    fn is_above(&self, x: &Frac) -> bool
        ensures value { result ≡ is_above self.now x.now }
    {
        match self {
            Bound::NoBound => true,
            Bound::Bound(number, true) => Relation::Lt.holds(number, x),
            Bound::Bound(number, false) => Relation::Le.holds(number, x),
        }
    }

    /// Whether a number is on the inner side of this end as the high one.
    fn is_below(&self, x: &Frac) -> bool
        ensures value { result ≡ is_below self.now x.now }
    {
        match self {
            Bound::NoBound => true,
            Bound::Bound(number, true) => Relation::Lt.holds(x, number),
            Bound::Bound(number, false) => Relation::Le.holds(x, number),
        }
    }
    /// Whether an interval that begins at this low end begins before one that begins at the other.
    fn begins_earlier(&self, other: &Bound) -> bool
        ensures value { result ≡ begins_earlier self.now other.now }
    {
        match (self, other) {
            (_, Bound::NoBound) => false,
            (Bound::NoBound, _) => true,
            (Bound::Bound(number, false), Bound::Bound(next, true)) => {
                Relation::Le.holds(number, next)
            }
            (Bound::Bound(number, _), Bound::Bound(next, _)) => Relation::Lt.holds(number, next),
        }
    }

    /// Whether an interval that ends at this high end ends before one that ends at the other.
    fn ends_earlier(&self, other: &Bound) -> bool
        ensures value { result ≡ ends_earlier self.now other.now }
    {
        match (self, other) {
            (Bound::NoBound, _) => false,
            (_, Bound::NoBound) => true,
            (Bound::Bound(number, true), Bound::Bound(next, false)) => {
                Relation::Le.holds(number, next)
            }
            (Bound::Bound(number, _), Bound::Bound(next, _)) => Relation::Lt.holds(number, next),
        }
    }

    /// The one of two low ends at which an interval begins earlier.
    fn earlier_low(&self, other: &Bound) -> Bound
        ensures value { result ≡ earlier_low self.now other.now }
    {
        if other.begins_earlier(self) {
            *other
        } else {
            *self
        }
    }

    /// The one of two low ends at which an interval begins later.
    fn later_low(&self, other: &Bound) -> Bound
        ensures value { result ≡ later_low self.now other.now }
    {
        if self.begins_earlier(other) {
            *other
        } else {
            *self
        }
    }

    /// The one of two high ends at which an interval ends earlier.
    fn earlier_high(&self, other: &Bound) -> Bound
        ensures value { result ≡ earlier_high self.now other.now }
    {
        if other.ends_earlier(self) {
            *other
        } else {
            *self
        }
    }

    /// The one of two high ends at which an interval ends later.
    fn later_high(&self, other: &Bound) -> Bound
        ensures value { result ≡ later_high self.now other.now }
    {
        if self.ends_earlier(other) {
            *other
        } else {
            *self
        }
    }
}
