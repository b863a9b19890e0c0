//! Hulls of the clock over the moments of a box.
ghost use Rattle.std.specs.Prelude.{◌≡◌, if◌then◌else◌};
ghost use Rattle.verdict_meaning.specs.ClockHulls.{all_values, clock_hull, in_one_day, span_hull};
ghost use Rattle.verdict_meaning.specs.ClockHulls.{value_span};

use crate::signs::closed;
use clock_values::clock_value;
use exact_fraction::frac::Frac;
use exact_fraction::moment::Moment;
use interval_sets::{Bound, Interval};
use rule_types::ClockAttr;

/// The seconds of a day.
const DAY: i64 = 86_400;

/// The hull of an attribute of the clock over the moments of a box, in a simulation that begins at
/// `start` (SWMM 5.2 manual, [CONTROLS], SIMULATION).
#[tactic(auto, unfolding(verdict_meaning::specs::ClockHulls::clock_hull))]
pub(crate) fn clock_hull(
    attribute: &ClockAttr,
    start: &Moment,
    moments: &Option<(Moment, Moment)>,
) -> Interval
    ensures value { result ≡ clock_hull attribute.now start.now moments.now }
{
    match moments {
        Some((first, last)) => span_hull(attribute, start, first, last),
        None => Interval::whole(),
    }
}

/// The hull from a first to a last moment.
#[tactic(auto, unfolding(verdict_meaning::specs::ClockHulls::span_hull))]
fn span_hull(attribute: &ClockAttr, start: &Moment, first: &Moment, last: &Moment) -> Interval
    ensures value { result ≡ span_hull attribute.now start.now first.now last.now }
{
    match attribute {
        ClockAttr::Time | ClockAttr::Date => value_span(attribute, start, first, last),
        _ => day_hull(attribute, start, first, last),
    }
}

/// The hull of an attribute that does not fall within a day.
fn day_hull(attribute: &ClockAttr, start: &Moment, first: &Moment, last: &Moment) -> Interval
    ensures value { result ≡ if in_one_day first.now last.now
        then value_span attribute.now start.now first.now last.now
        else all_values attribute.now }
{
    if in_one_day(first, last) {
        value_span(attribute, start, first, last)
    } else {
        all_values(attribute)
    }
}

/// Whether two moments lie in one civil day.
#[tactic(auto, unfolding(verdict_meaning::specs::ClockHulls::in_one_day, rule_meaning::specs::Clock::day_of))]
fn in_one_day(first: &Moment, last: &Moment) -> bool
    ensures value { result ≡ in_one_day first.now last.now }
{
    first.seconds().div_euclid(DAY) == last.seconds().div_euclid(DAY)
}

/// From the value at the first moment to that at the last.
#[tactic(auto, unfolding(verdict_meaning::specs::ClockHulls::value_span))]
fn value_span(attribute: &ClockAttr, start: &Moment, first: &Moment, last: &Moment) -> Interval
    ensures value { result ≡ value_span attribute.now start.now first.now last.now }
{
    let low = clock_value(*attribute, *start, *first);
    let high = clock_value(*attribute, *start, *last);
    closed(&low, &high)
}

/// The values that an attribute can have over several days.
#[tactic(auto, unfolding(verdict_meaning::specs::ClockHulls::all_values))]
fn all_values(attribute: &ClockAttr) -> Interval
    ensures value { result ≡ all_values attribute.now }
{
    match attribute {
        ClockAttr::Time => Interval::whole(),
        ClockAttr::Date => Interval::whole(),
        ClockAttr::Month => closed(&Frac::one(), &Frac::natural(12)),
        ClockAttr::Day => closed(&Frac::one(), &Frac::natural(7)),
        ClockAttr::ClockTime => Interval {
            low: Bound::Bound(Frac::zero(), false),
            high: Bound::Bound(Frac::natural(24), true),
        },
        ClockAttr::DayOfYear => closed(&Frac::one(), &Frac::natural(366)),
    }
}
