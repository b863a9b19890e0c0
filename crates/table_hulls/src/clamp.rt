//! Values that count as 0 where they are below 0.
ghost use Rattle.std.specs.Prelude.{◌≡◌};
ghost use Rattle.table_hulls.specs.Hulls.{clamped_low, clamped_high, clamped, from_zero};

use exact_fraction::frac::Frac;
use interval_sets::{Bound, Interval};

/// The interval of values that count as 0 where they are below 0.
pub(crate) fn clamped(values: &Interval) -> Interval
    ensures value { result ≡ clamped values.now }
{
    Interval {
        low: clamped_low(&values.low),
        high: clamped_high(&values.high),
    }
}

/// Its low end.
fn clamped_low(at: &Bound) -> Bound
    ensures value { result ≡ clamped_low at.now }
{
    match at {
        Bound::NoBound => Bound::Bound(Frac::zero(), false),
        Bound::Bound(x, left_out) => {
            if x.is_less(&Frac::zero()) {
                Bound::Bound(Frac::zero(), false)
            } else {
                Bound::Bound(*x, *left_out)
            }
        }
    }
}

/// Its high end.
fn clamped_high(at: &Bound) -> Bound
    ensures value { result ≡ clamped_high at.now }
{
    match at {
        Bound::NoBound => Bound::NoBound,
        Bound::Bound(x, left_out) => {
            if Frac::zero().is_less(x) {
                Bound::Bound(*x, *left_out)
            } else {
                Bound::Bound(Frac::zero(), false)
            }
        }
    }
}

/// All numbers from 0 on.
pub(crate) fn from_zero() -> Interval
    ensures value { result ≡ from_zero }
{
    Interval {
        low: Bound::Bound(Frac::zero(), false),
        high: Bound::NoBound,
    }
}
