//! The values of tables: straight lines between their points.
ghost use Rattle.std.specs.Prelude.{◌≡◌, ℕ, true, false, ◌<◌, ◌≤◌, ◌≤ℤ◌, pos, neg_ℤ};
ghost use Rattle.std.specs.Prelude.{[], ◌∷◌, length, get_or};
ghost use Rattle.exact_fraction.specs.Order.{◌<ℚ◌, less};
ghost use Rattle.rule_types.specs.declared.table.Point.{Point as AnyPoint};
ghost use Rattle.rule_types.specs.Tables.{IsPointList};
ghost use Rattle.rule_meaning.specs.Clock.{hours_of};
ghost use Rattle.rule_meaning.specs.StraightLines.{between, line_from, line_value};
ghost use Rattle.curves_series.specs.internal.Places.{next_value, value_from};

use exact_fraction::error::Overflow;
use exact_fraction::frac::Frac;
use rule_types::Point;

/// The value at `x` of the straight line between two points.
#[tactic(auto, using(crate::proofs::PlaceValues::run_divides), unfolding(rule_meaning::specs::StraightLines::between),)]
fn between(p: &Point, q: &Point, x: &Frac) -> Result<Frac, Overflow>
    requires rises { p.now.x <ℚ q.now.x }
    ensures value { result ≡ between p.now q.now x.now }
{
    let rise = q.y.sub(p.y)?;
    let way = x.sub(p.x)?;
    let run = q.x.sub(p.x)?;
    let product = rise.mul(way)?;
    let quotient = product.quotient(run)?;
    p.y.add(quotient)
}

/// The value at `x`, which is past the first point and at most at the second.
fn next_value(p: &Point, q: &Point, x: &Frac) -> Result<Frac, Overflow>
    requires rises { p.now.x <ℚ q.now.x }
    ensures value { result ≡ next_value p.now q.now x.now }
{
    if x.is_less(&q.x) {
        between(p, q, x)
    } else {
        Ok(q.y)
    }
}

/// The value at `x` of the line through two points, which may be below 0: up to the first the y of
/// the first, and from the second on the y of the second. Overflow exactly where `x` is between
/// them and a step of the straight line does not fit (SWMM 5.2 manual, [CURVES]).
#[tactic(auto, unfolding(rule_meaning::specs::StraightLines::line_from))]
pub fn segment_value(p: &Point, q: &Point, x: &Frac) -> Result<Frac, Overflow>
    requires rises { p.now.x <ℚ q.now.x }
    ensures value { result ≡ line_from p.now (q.now ∷ []) x.now }
{
    if p.x.is_less(x) {
        next_value(p, q, x)
    } else {
        Ok(p.y)
    }
}

/// How many points have an x below `x`. It takes time in proportion to the logarithm of the number
/// of points.
fn count_below(points: &[Point], x: &Frac) -> usize
    requires points { IsPointList points.now }
    ensures within { result ≤ length points.now }
    ensures below { (k : ℕ) (d : AnyPoint) → k < result
        → less (get_or points.now k d).x x.now ≡ true }
    ensures above { (k : ℕ) (d : AnyPoint) → result ≤ k → k < length points.now
        → less (get_or points.now k d).x x.now ≡ false }
{
    let mut low = 0;
    let mut high = points.len();
    'halving: while low < high {
        let middle = low + (high - low) / 2;
        if points[middle].x.is_less(x) {
            low = middle + 1;
        } else {
            high = middle;
        }
    }
    low
}

/// The value at `x` of the line through points, which may be below 0.
#[tactic(auto, using(crate::proofs::PlaceValues::placed))]
fn value_from(points: &[Point], x: &Frac) -> Result<Frac, Overflow>
    requires points { IsPointList points.now }
    ensures value { result ≡ value_from points.now x.now }
{
    let place = count_below(points, x);
    if place == 0 {
        return Ok(points[0].y);
    }
    if place == points.len() {
        return Ok(points[place - 1].y);
    }
    next_value(&points[place - 1], &points[place], x)
}

/// The value at `x` of points that rise: Overflow exactly where a step of the straight line does
/// not fit. It takes time in proportion to the logarithm of the number of points.
#[tactic(auto, using(crate::proofs::PlaceValues::clamped_value))]
pub(crate) fn line_value(points: &[Point], x: &Frac) -> Result<Frac, Overflow>
    requires points { IsPointList points.now }
    ensures value { result ≡ line_value points.now x.now }
{
    match value_from(points, x) {
        Ok(value) => Ok(Frac::zero().max(value)),
        Err(_) => Err(Overflow),
    }
}

/// So many seconds in hours.
#[tactic(auto, using(crate::proofs::PlaceValues::hours_made))]
pub fn hours_of(seconds: i64) -> Frac
    requires low { neg_ℤ (pos 400_000_000_000) ≤ℤ seconds }
    requires high { seconds ≤ℤ pos 400_000_000_000 }
    ensures value { result ≡ hours_of seconds }
{
    match Frac::make(i128::from(seconds), 3_600) {
        Some(hours) => hours,
        None => Frac::zero(),
    }
}
