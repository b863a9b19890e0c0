//! The least intervals of sizes, signs and steps.
ghost use Rattle.std.specs.Prelude.{◌≡◌};
ghost use Rattle.interval_sets.specs.Intervals.{later_high};
ghost use Rattle.verdict_meaning.specs.Hulls.{begins_below_zero, closed, ends_above_zero};
ghost use Rattle.verdict_meaning.specs.Hulls.{greatest_sign, greatest_step, least_sign, least_step};
ghost use Rattle.verdict_meaning.specs.Hulls.{sign_hull, size_hull, step_hull, turned};

use crate::ends::{negation_hull, turned};
use exact_fraction::frac::Frac;
use interval_sets::{Bound, Interval};

/// The hull of the sizes of the numbers in an interval.
#[tactic(auto, unfolding(verdict_meaning::specs::Hulls::size_hull))]
pub(crate) fn size_hull(a: &Interval) -> Interval
    ensures value { result ≡ size_hull a.now }
{
    if !begins_below_zero(&a.low) {
        return *a;
    }
    if !ends_above_zero(&a.high) {
        return negation_hull(a);
    }
    Interval {
        low: Bound::Bound(Frac::zero(), false),
        high: farther_end(a),
    }
}

/// The end that is farther from 0, on the high side.
fn farther_end(a: &Interval) -> Bound
    ensures value { result ≡ later_high (turned a.now.low) a.now.high }
{
    let below = Interval {
        low: Bound::NoBound,
        high: turned(&a.low),
    };
    let above = Interval {
        low: Bound::NoBound,
        high: a.high,
    };
    below.join(&above).high
}

/// The hull of the signs of the numbers in an interval.
#[tactic(auto, unfolding(verdict_meaning::specs::Hulls::sign_hull))]
pub(crate) fn sign_hull(a: &Interval) -> Interval
    ensures value { result ≡ sign_hull a.now }
{
    closed(&least_sign(a), &greatest_sign(a))
}

/// The hull of the steps of the numbers in an interval.
#[tactic(auto, unfolding(verdict_meaning::specs::Hulls::step_hull))]
pub(crate) fn step_hull(a: &Interval) -> Interval
    ensures value { result ≡ step_hull a.now }
{
    closed(&least_step(a), &greatest_step(a))
}

/// The numbers from one to another, with both.
pub(crate) fn closed(p: &Frac, q: &Frac) -> Interval
    ensures value { result ≡ closed p.now q.now }
{
    Interval {
        low: Bound::Bound(*p, false),
        high: Bound::Bound(*q, false),
    }
}

/// Whether an interval with this low end begins below 0.
#[tactic(auto, unfolding(verdict_meaning::specs::Hulls::begins_below_zero))]
fn begins_below_zero(low: &Bound) -> bool
    ensures value { result ≡ begins_below_zero low.now }
{
    match low {
        Bound::NoBound => true,
        Bound::Bound(p, _) => p.is_less(&Frac::zero()),
    }
}

/// Whether an interval with this high end ends above 0.
#[tactic(auto, unfolding(verdict_meaning::specs::Hulls::ends_above_zero))]
fn ends_above_zero(high: &Bound) -> bool
    ensures value { result ≡ ends_above_zero high.now }
{
    match high {
        Bound::NoBound => true,
        Bound::Bound(p, _) => Frac::zero().is_less(p),
    }
}

/// The least sign of a number in an interval.
#[tactic(auto, unfolding(verdict_meaning::specs::Hulls::least_sign))]
fn least_sign(a: &Interval) -> Frac
    ensures value { result ≡ least_sign a.now }
{
    if begins_below_zero(&a.low) {
        return Frac::one().neg();
    }
    if a.holds(&Frac::zero()) {
        return Frac::zero();
    }
    Frac::one()
}

/// The greatest sign of a number in an interval.
#[tactic(auto, unfolding(verdict_meaning::specs::Hulls::greatest_sign))]
fn greatest_sign(a: &Interval) -> Frac
    ensures value { result ≡ greatest_sign a.now }
{
    if ends_above_zero(&a.high) {
        return Frac::one();
    }
    if a.holds(&Frac::zero()) {
        return Frac::zero();
    }
    Frac::one().neg()
}

/// The least step of a number in an interval.
#[tactic(auto, unfolding(verdict_meaning::specs::Hulls::least_step))]
fn least_step(a: &Interval) -> Frac
    ensures value { result ≡ least_step a.now }
{
    if begins_below_zero(&a.low) | a.holds(&Frac::zero()) {
        return Frac::zero();
    }
    Frac::one()
}

/// The greatest step of a number in an interval.
#[tactic(auto, unfolding(verdict_meaning::specs::Hulls::greatest_step))]
fn greatest_step(a: &Interval) -> Frac
    ensures value { result ≡ greatest_step a.now }
{
    if ends_above_zero(&a.high) {
        return Frac::one();
    }
    Frac::zero()
}
