//! Hulls of sums, differences and negations, by their ends.
ghost use Rattle.std.specs.Prelude.{◌≡◌};
ghost use Rattle.verdict_meaning.specs.Hulls.{between_ends, difference_end, difference_hull};
ghost use Rattle.verdict_meaning.specs.Hulls.{negation_hull, or_line, sum_end, sum_hull, turned};

use exact_fraction::error::Overflow;
use interval_sets::{Bound, Interval};

/// The hull of the sums of two numbers in these intervals.
#[tactic(auto, unfolding(verdict_meaning::specs::Hulls::sum_hull))]
pub(crate) fn sum_hull(a: &Interval, b: &Interval) -> Interval
    ensures value { result ≡ sum_hull a.now b.now }
{
    between_ends(&sum_end(&a.low, &b.low), &sum_end(&a.high, &b.high))
}

/// The hull of the differences of two numbers in these intervals.
#[tactic(auto, unfolding(verdict_meaning::specs::Hulls::difference_hull))]
pub(crate) fn difference_hull(a: &Interval, b: &Interval) -> Interval
    ensures value { result ≡ difference_hull a.now b.now }
{
    between_ends(
        &difference_end(&a.low, &b.high),
        &difference_end(&a.high, &b.low),
    )
}

/// The hull of the negations of the numbers in an interval.
#[tactic(auto, unfolding(verdict_meaning::specs::Hulls::negation_hull))]
pub(crate) fn negation_hull(a: &Interval) -> Interval
    ensures value { result ≡ negation_hull a.now }
{
    Interval {
        low: turned(&a.high),
        high: turned(&a.low),
    }
}

/// The sum of two ends, which is none where one of them is.
#[tactic(auto, unfolding(verdict_meaning::specs::Hulls::sum_end))]
fn sum_end(a: &Bound, b: &Bound) -> Result<Bound, Overflow>
    ensures value { result ≡ sum_end a.now b.now }
{
    match (a, b) {
        (Bound::Bound(p, m), Bound::Bound(q, n)) => {
            let sum = p.add(*q)?;
            Ok(Bound::Bound(sum, *m | *n))
        }
        _ => Ok(Bound::NoBound),
    }
}

/// The difference of two ends, which is none where one of them is.
#[tactic(auto, unfolding(verdict_meaning::specs::Hulls::difference_end))]
fn difference_end(a: &Bound, b: &Bound) -> Result<Bound, Overflow>
    ensures value { result ≡ difference_end a.now b.now }
{
    match (a, b) {
        (Bound::Bound(p, m), Bound::Bound(q, n)) => {
            let difference = p.sub(*q)?;
            Ok(Bound::Bound(difference, *m | *n))
        }
        _ => Ok(Bound::NoBound),
    }
}

/// The interval between two ends, or all numbers where one of them does not fit.
fn between_ends(low: &Result<Bound, Overflow>, high: &Result<Bound, Overflow>) -> Interval
    ensures value { result ≡ or_line (between_ends low.now high.now) }
{
    match (low, high) {
        (Ok(low), Ok(high)) => Interval {
            low: *low,
            high: *high,
        },
        _ => Interval::whole(),
    }
}

/// An end on the other side of 0.
pub(crate) fn turned(at: &Bound) -> Bound
    ensures value { result ≡ turned at.now }
{
    match at {
        Bound::NoBound => Bound::NoBound,
        Bound::Bound(p, left_out) => Bound::Bound(p.neg(), *left_out),
    }
}
