//! The values of the straight line over a part between two points.
ghost use Rattle.std.specs.Prelude.{◌≡◌};
ghost use Rattle.exact_fraction.specs.Order.{◌<ℚ◌};
ghost use Rattle.table_hulls.specs.Hulls.{is_left_out, value_at_end, values_between, values_over};
ghost use Rattle.table_hulls.specs.Hulls.{value_of_point, hull_of_both};

use curves_series::segment_value;
use exact_fraction::error::Overflow;
use exact_fraction::frac::Frac;
use interval_sets::{Bound, Interval};
use rule_types::Point;

/// The value of the straight line from one point to the next at an end of a part between them.
fn value_at_end(p: &Point, q: &Point, at: &Bound) -> Result<Frac, Overflow>
    requires rises { p.now.x <ℚ q.now.x }
    ensures value { result ≡ value_at_end p.now q.now at.now }
{
    match at {
        Bound::NoBound => Ok(p.y),
        Bound::Bound(x, _) => segment_value(p, q, x),
    }
}

/// Whether an end is left out.
fn is_left_out(at: &Bound) -> bool
    ensures value { result ≡ is_left_out at.now }
{
    match at {
        Bound::NoBound => false,
        Bound::Bound(_, left_out) => *left_out,
    }
}

/// The values of the straight line over a part between its two points.
#[tactic(auto, unfolding(crate::specs::Hulls::values_between))]
fn values_between(p: &Point, q: &Point, over: &Interval, low: &Frac, high: &Frac) -> Interval
    ensures value { result ≡ values_between p.now q.now over.now low.now high.now }
{
    if p.y.is_less(&q.y) {
        return Interval {
            low: Bound::Bound(*low, is_left_out(&over.low)),
            high: Bound::Bound(*high, is_left_out(&over.high)),
        };
    }
    if q.y.is_less(&p.y) {
        return Interval {
            low: Bound::Bound(*high, is_left_out(&over.high)),
            high: Bound::Bound(*low, is_left_out(&over.low)),
        };
    }
    Interval::point(p.y)
}

/// The values over a part between two points, if it has a member.
pub(crate) fn values_over(
    p: &Point,
    q: &Point,
    part: &Option<Interval>,
) -> Result<Option<Interval>, Overflow>
    requires rises { p.now.x <ℚ q.now.x }
    ensures value { result ≡ values_over p.now q.now part.now }
{
    match part {
        None => Ok(None),
        Some(over) => {
            let low = value_at_end(p, q, &over.low)?;
            let high = value_at_end(p, q, &over.high)?;
            Ok(Some(values_between(p, q, over, &low, &high)))
        }
    }
}

/// The value of the first or the last point, where the part beyond it has a member.
pub(crate) fn value_of_point(p: &Point, part: &Option<Interval>) -> Option<Interval>
    ensures value { result ≡ value_of_point p.now part.now }
{
    match part {
        None => None,
        Some(_) => Some(Interval::point(p.y)),
    }
}

/// The hull of what there is of two.
pub(crate) fn hull_of_both(a: &Option<Interval>, b: &Option<Interval>) -> Option<Interval>
    ensures value { result ≡ hull_of_both a.now b.now }
{
    match (a, b) {
        (None, other) => *other,
        (Some(one), None) => Some(*one),
        (Some(one), Some(other)) => Some(one.join(other)),
    }
}
