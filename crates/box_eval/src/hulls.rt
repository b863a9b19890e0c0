//! The hulls of what actions order (SWMM 5.2 manual, modulated controls).
ghost use Rattle.std.specs.Prelude.{◌≡◌, false, not, if◌then◌else◌, IsSome};
ghost use Rattle.exact_fraction.specs.Number.{one, zero};
ghost use Rattle.interval_sets.specs.Intervals.{begins_earlier, ends_earlier};
ghost use Rattle.interval_sets.specs.declared.interval.Bound.TheVariants as end;
ghost use Rattle.rule_types.specs.Tables.{HoldsTableOf, curve_at, series_at};
ghost use Rattle.rule_types.specs.WellFormed.{WellFormed};
ghost use Rattle.rule_meaning.specs.Worth.{last_of};
ghost use Rattle.table_hulls.specs.Hulls.{from_zero};
ghost use Rattle.verdict_meaning.specs.Hulls.{closed};
ghost use Rattle.verdict_meaning.specs.ActionHulls.{capped_high, capped_hull, capped_low};
ghost use Rattle.verdict_meaning.specs.ActionHulls.{controller_reach, curve_over, is_part_of};
ghost use Rattle.verdict_meaning.specs.ActionHulls.{series_over, set_point_reach, what_hull};
ghost use Rattle.verdict_meaning.specs.ActionHulls.{worth_hull};
ghost use Rattle.verdict_meaning.specs.Premises.{start_of};
ghost use Rattle.box_truths.specs.Times.{AreTimesOf};

use crate::agreement::last_of;
use crate::links::{is_pump, rate_of};
use box_hulls::{left_reach, right_reach};
use box_truths::Times;
use curves_series::Tables;
use exact_fraction::frac::Frac;
use exact_fraction::moment::Moment;
use interval_sets::{Bound, Interval};
use rule_types::{Condition, CurveNo, Rules, SeriesNo, What};
use table_hulls::{curve_hull, series_hull};
use verdict_meaning::{Cell, Reach};

/// The numbers from p to q, with both.
pub(crate) fn closed(p: &Frac, q: &Frac) -> Interval
    ensures value { result ≡ closed p.now q.now }
{
    Interval {
        low: Bound::Bound(*p, false),
        high: Bound::Bound(*q, false),
    }
}

/// All numbers from 0 on.
fn from_zero() -> Interval
    ensures value { result ≡ from_zero }
{
    Interval {
        low: Bound::Bound(Frac::zero(), false),
        high: Bound::NoBound,
    }
}

/// What the controller of a rule with these conditions can be worth in a box.
#[tactic(auto, unfolding(verdict_meaning::specs::ActionHulls::controller_reach))]
pub(crate) fn controller_reach(
    rules: &Rules,
    times: &Times,
    cell: &Cell,
    conditions: &[Condition],
) -> Reach
    requires times { AreTimesOf rules.now times.now }
    ensures value { result ≡ controller_reach rules.now cell.now conditions.now }
{
    match last_of(conditions) {
        Some(last) => left_reach(&rules.names, &times.start, cell, &last.left),
        None => Reach::Missing,
    }
}

/// What its set point can be worth.
#[tactic(auto, unfolding(verdict_meaning::specs::ActionHulls::set_point_reach))]
pub(crate) fn set_point_reach(
    rules: &Rules,
    times: &Times,
    cell: &Cell,
    conditions: &[Condition],
) -> Reach
    requires times { AreTimesOf rules.now times.now }
    ensures value { result ≡ set_point_reach rules.now cell.now conditions.now }
{
    match last_of(conditions) {
        Some(last) => right_reach(&times.start, cell, &last.right),
        None => Reach::Missing,
    }
}

/// The hull of a curve over what its controller can be.
fn curve_over(tables: &Tables, curve: CurveNo, controller: &Reach) -> Interval
    requires exists { IsSome (curve_at tables.now curve.index) }
    ensures value { result ≡ curve_over (curve_at tables.now curve.index) controller.now }
{
    match controller {
        Reach::Missing => from_zero(),
        Reach::Within(_, over) => curve_hull(tables, curve, *over),
    }
}

/// The hull of a series over the moments of a box.
fn series_over(
    tables: &Tables,
    series: SeriesNo,
    start: &Moment,
    moments: &Option<(Moment, Moment)>,
) -> Interval
    requires exists { IsSome (series_at tables.now series.index) }
    ensures value { result
        ≡ series_over (series_at tables.now series.index) start.now moments.now }
{
    match moments {
        None => from_zero(),
        Some((first, last)) => series_hull(tables, series, *start, *first, *last),
    }
}

/// The hull of an action of a rule with these conditions on a link, before the link's rate is
/// asked.
#[tactic(auto, unfolding(verdict_meaning::specs::ActionHulls::what_hull))]
fn what_hull(
    rules: &Rules,
    times: &Times,
    tables: &Tables,
    cell: &Cell,
    conditions: &[Condition],
    link: u32,
    what: &What,
) -> Interval
    requires formed { WellFormed rules.now }
    requires times { AreTimesOf rules.now times.now }
    requires held { HoldsTableOf tables.now what.now }
    ensures value { result
        ≡ what_hull rules.now tables.now cell.now conditions.now link what.now }
{
    match what {
        What::Constant(q) => Interval::point(*q),
        What::Curve(curve) => {
            let controller = controller_reach(rules, times, cell, conditions);
            curve_over(tables, *curve, &controller)
        }
        What::Series(series) => series_over(tables, *series, &times.start, &cell.moments),
        What::Pid(_, _) => pid_hull(is_pump(rules, link)),
    }
}

/// The hull of a PID action.
fn pid_hull(pump: bool) -> Interval
    ensures value { result ≡ (if pump then from_zero else closed zero one) }
{
    if pump {
        return from_zero();
    }
    closed(&Frac::zero(), &Frac::one())
}

/// The hull of an action of a rule with these conditions on a link.
#[tactic(auto, unfolding(verdict_meaning::specs::ActionHulls::worth_hull))]
pub(crate) fn worth_hull(
    rules: &Rules,
    times: &Times,
    tables: &Tables,
    cell: &Cell,
    conditions: &[Condition],
    link: u32,
    what: &What,
) -> Interval
    requires formed { WellFormed rules.now }
    requires times { AreTimesOf rules.now times.now }
    requires held { HoldsTableOf tables.now what.now }
    ensures value { result
        ≡ worth_hull rules.now tables.now cell.now conditions.now link what.now }
{
    let rate = rate_of(rules, link);
    let hull = what_hull(rules, times, tables, cell, conditions, link, what);
    capped_hull(&rate, &hull)
}

/// The hull of the members of an interval, which count as 1 where they are above 1 on a link with a
/// rate.
#[tactic(auto, unfolding(verdict_meaning::specs::ActionHulls::capped_hull))]
fn capped_hull(rate: &Frac, piece: &Interval) -> Interval
    ensures value { result ≡ capped_hull rate.now piece.now }
{
    if Frac::zero().is_less(rate) {
        return Interval {
            low: capped_low(&piece.low),
            high: capped_high(&piece.high),
        };
    }
    *piece
}

/// The low end of such members.
#[tactic(auto, unfolding(verdict_meaning::specs::ActionHulls::capped_low))]
fn capped_low(at: &Bound) -> Bound
    ensures value { result ≡ capped_low at.now }
{
    match at {
        Bound::NoBound => Bound::NoBound,
        Bound::Bound(p, left_out) => {
            if p.is_less(&Frac::one()) {
                return Bound::Bound(*p, *left_out);
            }
            Bound::Bound(Frac::one(), false)
        }
    }
}

/// The high end of such members.
#[tactic(auto, unfolding(verdict_meaning::specs::ActionHulls::capped_high))]
fn capped_high(at: &Bound) -> Bound
    ensures value { result ≡ capped_high at.now }
{
    match at {
        Bound::NoBound => Bound::Bound(Frac::one(), false),
        Bound::Bound(p, left_out) => {
            if Frac::one().is_less(p) {
                return Bound::Bound(Frac::one(), false);
            }
            Bound::Bound(*p, *left_out)
        }
    }
}

/// Whether an interval with members lies from lo to hi.
#[tactic(auto, unfolding(verdict_meaning::specs::ActionHulls::is_part_of))]
pub(crate) fn is_part_of(piece: &Interval, lo: &Frac, hi: &Frac) -> bool
    ensures value { result ≡ is_part_of piece.now lo.now hi.now }
{
    begins_from(&piece.low, lo) & ends_by(&piece.high, hi)
}

/// Whether an interval with this low end begins at a number or later.
fn begins_from(at: &Bound, lo: &Frac) -> bool
    ensures value { result ≡ not (begins_earlier at.now (end.Bound lo.now false)) }
{
    match at {
        Bound::NoBound => false,
        Bound::Bound(p, true) => !p.is_less(lo),
        Bound::Bound(p, false) => !p.is_less(lo),
    }
}

/// Whether an interval with this high end ends at a number or earlier.
fn ends_by(at: &Bound, hi: &Frac) -> bool
    ensures value { result ≡ not (ends_earlier (end.Bound hi.now false) at.now) }
{
    match at {
        Bound::NoBound => false,
        Bound::Bound(p, true) => !hi.is_less(p),
        Bound::Bound(p, false) => !hi.is_less(p),
    }
}
