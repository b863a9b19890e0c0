//! What a hull is asked over: an interval of x, or moments.
ghost use Rattle.std.specs.Prelude.{◌≡◌, ◌≤ℤ◌, ◌-ℤ◌, pos, neg_ℤ};
ghost use Rattle.rule_meaning.specs.Clock.{hours_of};
ghost use Rattle.table_hulls.specs.Hulls.{interval_part, first_second_at, last_second_at};
ghost use Rattle.table_hulls.specs.Hulls.{hours_between, seconds_part};
ghost use Rattle.table_hulls.specs.internal.Arguments.{part_of, HasMoments, IsArgument};

use crate::second::{earlier_second, later_second, second_from, second_up_to};
use curves_series::hours_of;
use exact_fraction::frac::Frac;
use interval_sets::{Bound, Interval};

/// The seconds from one to another, and the second from which x are counted.
#[derive(Clone, Copy)]
pub(crate) struct SecondRange {
    pub(crate) base: i64,
    pub(crate) first: i64,
    pub(crate) last: i64,
}

/// What a hull is asked over.
#[derive(Clone, Copy)]
pub(crate) enum Argument {
    /// An interval of x.
    Values(Interval),
    /// Moments.
    Seconds(SecondRange),
}

impl Argument {
    /// The part of the argument from a low end to a high end, if it has a member.
    pub(crate) fn part(&self, low: &Bound, high: &Bound) -> Option<Interval>
        requires argument { IsArgument self.now }
        ensures value { result ≡ part_of self.now low.now high.now }
    {
        match self {
            Argument::Values(over) => interval_part(over, low, high),
            Argument::Seconds(range) => range.part(low, high),
        }
    }
}

/// The part of an interval between two ends.
#[tactic(auto, unfolding(crate::specs::Hulls::interval_part))]
fn interval_part(over: &Interval, low: &Bound, high: &Bound) -> Option<Interval>
    ensures value { result ≡ interval_part over.now low.now high.now }
{
    let met = over.meet(&Interval {
        low: *low,
        high: *high,
    });
    if met.is_empty() { None } else { Some(met) }
}

impl SecondRange {
    /// The part of the seconds between two ends, which are no ends left out.
    #[tactic(auto, unfolding(crate::specs::Hulls::seconds_part))]
    fn part(&self, low: &Bound, high: &Bound) -> Option<Interval>
        requires moments { HasMoments self.now }
        ensures value { result
            ≡ seconds_part self.now.base self.now.first self.now.last low.now high.now }
    {
        let first = self.first_at(low);
        let last = self.last_at(high);
        self.hours_between(&first, &last)
    }

    /// The hours from one second of the range to another, both counted, if there is one.
    #[tactic(auto, unfolding(crate::specs::Hulls::hours_between))]
    fn hours_between(&self, first: &i128, last: &i128) -> Option<Interval>
        requires moments { HasMoments self.now }
        requires least { self.now.first ≤ℤ first.now }
        requires most { last.now ≤ℤ self.now.last }
        ensures value { result ≡ hours_between self.now.base first.now last.now }
    {
        if *first <= *last {
            Some(Interval {
                low: Bound::Bound(self.hours_at(first), false),
                high: Bound::Bound(self.hours_at(last), false),
            })
        } else {
            None
        }
    }

    /// The hours of a second of the range.
    fn hours_at(&self, second: &i128) -> Frac
        requires moments { HasMoments self.now }
        requires least { self.now.first ≤ℤ second.now }
        requires most { second.now ≤ℤ self.now.last }
        ensures value { result ≡ hours_of (second.now -ℤ self.now.base) }
    {
        hours_of(self.since(second))
    }

    /// The seconds of a second of the range, as x are counted.
    fn since(&self, second: &i128) -> i64
        requires moments { HasMoments self.now }
        requires least { self.now.first ≤ℤ second.now }
        requires most { second.now ≤ℤ self.now.last }
        ensures value { result ≡ second.now -ℤ self.now.base }
        ensures low { neg_ℤ (pos 400_000_000_000) ≤ℤ result }
        ensures high { result ≤ℤ pos 400_000_000_000 }
    {
        (*second - self.base as i128) as i64
    }

    /// The first second of the range at or after a low end.
    fn first_at(&self, low: &Bound) -> i128
        ensures value { result ≡ first_second_at self.now.base self.now.first low.now }
        ensures least { self.now.first ≤ℤ result }
    {
        let first = self.first as i128;
        match low {
            Bound::NoBound => first,
            Bound::Bound(x, _) => later_second(&first, &second_from(&self.base, x)),
        }
    }

    /// The last second of the range at or before a high end.
    fn last_at(&self, high: &Bound) -> i128
        ensures value { result ≡ last_second_at self.now.base self.now.last high.now }
        ensures most { result ≤ℤ self.now.last }
    {
        let last = self.last as i128;
        match high {
            Bound::NoBound => last,
            Bound::Bound(x, _) => earlier_second(&last, &second_up_to(&self.base, x)),
        }
    }
}
