//! Tests of a high end against a low end.
ghost use Rattle.std.specs.Prelude.{◌≡◌, not, if◌then◌else◌};
ghost use Rattle.exact_fraction.specs.Order.{less};
ghost use Rattle.verdict_meaning.specs.Truths.{ends_at_most, ends_below};

use exact_fraction::frac::Frac;
use interval_sets::Bound;

/// Whether each number below a high end is below each number above a low end.
#[tactic(auto, unfolding(verdict_meaning::specs::Truths::ends_below))]
pub(crate) fn ends_below(high: &Bound, low: &Bound) -> bool
    ensures value { result ≡ ends_below high.now low.now }
{
    match (high, low) {
        (Bound::Bound(p, m), Bound::Bound(q, n)) => is_before(p, q, *m | *n),
        _ => false,
    }
}

/// Whether a number is below another, or at most it where one of them is left out.
fn is_before(p: &Frac, q: &Frac, left_out: bool) -> bool
    ensures value { result ≡ (if left_out then not (less q.now p.now) else less p.now q.now) }
{
    if left_out {
        return !q.is_less(p);
    }
    p.is_less(q)
}

/// Whether each number below a high end is at most each number above a low end.
#[tactic(auto, unfolding(verdict_meaning::specs::Truths::ends_at_most))]
pub(crate) fn ends_at_most(high: &Bound, low: &Bound) -> bool
    ensures value { result ≡ ends_at_most high.now low.now }
{
    match (high, low) {
        (Bound::Bound(p, _), Bound::Bound(q, _)) => !q.is_less(p),
        _ => false,
    }
}
