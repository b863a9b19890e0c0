//! Hulls of products, quotients and powers, by the four results on their ends.
ghost use Rattle.std.specs.Prelude.{◌≡◌, false, IsTrue};
ghost use Rattle.exact_fraction.specs.Checked.{is_zero};
ghost use Rattle.exact_fraction.specs.Operations.{product_of, quotient_of};
ghost use Rattle.verdict_meaning.specs.Hulls.{by_corners, on_one_side, power_hull, product_corners};
ghost use Rattle.verdict_meaning.specs.Hulls.{product_hull, quotient_corners, quotient_hull};
ghost use Rattle.verdict_meaning.specs.Hulls.{spanned};

use crate::signs::closed;
use exact_fraction::error::Overflow;
use exact_fraction::frac::Frac;
use interval_sets::{Bound, Interval};

/// The hull of the products of two numbers in these intervals.
#[tactic(auto, unfolding(verdict_meaning::specs::Hulls::product_hull))]
pub(crate) fn product_hull(a: &Interval, b: &Interval) -> Interval
    ensures value { result ≡ product_hull a.now b.now }
{
    let (Bound::Bound(p, _), Bound::Bound(q, _)) = (&a.low, &a.high) else {
        return Interval::whole();
    };
    let (Bound::Bound(r, _), Bound::Bound(s, _)) = (&b.low, &b.high) else {
        return Interval::whole();
    };
    product_corners(p, q, r, s)
}

/// The hull of the quotients of two numbers in these intervals.
#[tactic(auto, unfolding(verdict_meaning::specs::Hulls::quotient_hull))]
pub(crate) fn quotient_hull(a: &Interval, b: &Interval) -> Interval
    ensures value { result ≡ quotient_hull a.now b.now }
{
    let (Bound::Bound(p, _), Bound::Bound(q, _)) = (&a.low, &a.high) else {
        return Interval::whole();
    };
    let (Bound::Bound(r, _), Bound::Bound(s, _)) = (&b.low, &b.high) else {
        return Interval::whole();
    };
    quotient_corners(p, q, r, s)
}

/// The hull of the powers of a number in an interval.
#[tactic(auto, unfolding(verdict_meaning::specs::Hulls::power_hull))]
pub(crate) fn power_hull(a: &Interval, n: u8) -> Interval
    ensures value { result ≡ power_hull a.now n }
{
    let mut hull = Interval::point(Frac::one());
    for _k in 0..n {
        hull = product_hull(&hull, a);
    }
    hull
}

/// The closed interval from the least to the greatest of four numbers.
#[tactic(auto, unfolding(verdict_meaning::specs::Hulls::spanned))]
fn spanned(a: &Frac, b: &Frac, c: &Frac, d: &Frac) -> Interval
    ensures value { result ≡ spanned a.now b.now c.now d.now }
{
    let least = a.min(*b).min(c.min(*d));
    let greatest = a.max(*b).max(c.max(*d));
    closed(&least, &greatest)
}

/// The hull of the products of four ends, or all numbers where one of them does not fit.
#[tactic(auto, unfolding(verdict_meaning::specs::Hulls::product_corners))]
fn product_corners(p: &Frac, q: &Frac, r: &Frac, s: &Frac) -> Interval
    ensures value { result ≡ product_corners p.now q.now r.now s.now }
{
    match product_span(p, q, r, s) {
        Ok(span) => span,
        Err(_) => Interval::whole(),
    }
}

/// The span of the four products, where they fit.
fn product_span(p: &Frac, q: &Frac, r: &Frac, s: &Frac) -> Result<Interval, Overflow>
    ensures value { result ≡ by_corners product_of p.now q.now r.now s.now }
{
    let a = p.mul(*r)?;
    let b = q.mul(*r)?;
    let c = p.mul(*s)?;
    let d = q.mul(*s)?;
    Ok(spanned(&a, &b, &c, &d))
}

/// The hull of the quotients of four ends, or all numbers where one of them does not fit or the
/// divisor can be 0.
#[tactic(auto, unfolding(verdict_meaning::specs::Hulls::quotient_corners))]
fn quotient_corners(p: &Frac, q: &Frac, r: &Frac, s: &Frac) -> Interval
    ensures value { result ≡ quotient_corners p.now q.now r.now s.now }
{
    if !are_on_one_side(r, s) {
        return Interval::whole();
    }
    match quotient_span(p, q, r, s) {
        Ok(span) => span,
        Err(_) => Interval::whole(),
    }
}

/// The span of the four quotients, where they fit.
fn quotient_span(p: &Frac, q: &Frac, r: &Frac, s: &Frac) -> Result<Interval, Overflow>
    requires first { is_zero r.now ≡ false }
    requires last { is_zero s.now ≡ false }
    ensures value { result ≡ by_corners quotient_of p.now q.now r.now s.now }
{
    let a = p.quotient(*r)?;
    let b = q.quotient(*r)?;
    let c = p.quotient(*s)?;
    let d = q.quotient(*s)?;
    Ok(spanned(&a, &b, &c, &d))
}

/// Whether two ends are on one side of 0, where neither is 0.
#[tactic(auto, using(crate::proofs::Divisors::first_divides, crate::proofs::Divisors::last_divides), unfolding(verdict_meaning::specs::Hulls::on_one_side))]
fn are_on_one_side(r: &Frac, s: &Frac) -> bool
    ensures value { result ≡ on_one_side r.now s.now }
    ensures first { IsTrue result → is_zero r.now ≡ false }
    ensures last { IsTrue result → is_zero s.now ≡ false }
{
    let zero = Frac::zero();
    (zero.is_less(r) & zero.is_less(s)) | (r.is_less(&zero) & s.is_less(&zero))
}
