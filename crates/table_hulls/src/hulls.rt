//! The hulls of the values of tables.
ghost use Rattle.std.specs.Prelude.{◌≡◌, ◌≤ℤ◌, false, pos, neg_ℤ, IfSome, IsSome};
ghost use Rattle.interval_sets.specs.declared.interval.Bound.TheVariants as end;
ghost use Rattle.rule_types.specs.Tables.{IsPointList, curve_at, series_at};
ghost use Rattle.table_hulls.specs.Hulls.{all_values, table_hull, curve_hull, base_of, series_hull};
ghost use Rattle.table_hulls.specs.internal.Arguments.{part_of, IsArgument, values_of};

use crate::argument::{Argument, SecondRange};
use crate::clamp::{clamped, from_zero};
use crate::segment::{hull_of_both, value_of_point, values_over};
use curves_series::Tables;
use exact_fraction::error::Overflow;
use exact_fraction::moment::Moment;
use interval_sets::{Bound, Interval};
use rule_types::{CurveNo, Point, SeriesNo};

/// An interval that holds every value of a curve over an interval of x: the least one, or all
/// numbers from 0 on where a step of the straight line at an end of `over` does not fit. It takes
/// no memory, and time in proportion to the number of points (SWMM 5.2 manual, [CURVES]).
#[tactic(auto, unfolding(crate::specs::Hulls::curve_hull))]
pub fn curve_hull(tables: &Tables, curve: CurveNo, over: Interval) -> Interval
    requires exists { IsSome (curve_at tables.now curve.index) }
    ensures value { IfSome (curve_at tables.now curve.index)
        (λ table. result ≡ curve_hull table.points over) }
{
    table_hull(&Argument::Values(over), tables.curve_points(curve))
}

/// An interval that holds every value of a series at a moment from `first` to `last`: the least
/// one, or all numbers from 0 on where a step of the straight line does not fit at the first or the
/// last moment, or at the nearest moments round a point. It takes no memory, and time in proportion
/// to the number of points (SWMM 5.2 manual, [TIMESERIES]).
#[tactic(auto, unfolding(crate::specs::Hulls::series_hull))]
pub fn series_hull(
    tables: &Tables,
    series: SeriesNo,
    start: Moment,
    first: Moment,
    last: Moment,
) -> Interval
    requires exists { IsSome (series_at tables.now series.index) }
    ensures value { IfSome (series_at tables.now series.index)
        (λ table. result ≡ series_hull table start first last) }
{
    let range = SecondRange {
        base: base_of(tables, series, start),
        first: first.seconds(),
        last: last.seconds(),
    };
    table_hull(&Argument::Seconds(range), tables.series_points(series))
}

/// The second from which the x of a series are counted.
fn base_of(tables: &Tables, series: SeriesNo, start: Moment) -> i64
    requires exists { IsSome (series_at tables.now series.index) }
    ensures value { IfSome (series_at tables.now series.index)
        (λ table. result ≡ base_of table start) }
    ensures low { neg_ℤ (pos 70_000_000_000) ≤ℤ result }
    ensures high { result ≤ℤ pos 300_000_000_000 }
{
    if tables.is_dated(series) {
        return 0;
    }
    start.seconds()
}

/// The hull of a table over an argument.
#[tactic(auto, unfolding(crate::specs::Hulls::table_hull))]
fn table_hull(argument: &Argument, points: &[Point]) -> Interval
    requires argument { IsArgument argument.now }
    requires points { IsPointList points.now }
    ensures value { result ≡ table_hull (part_of argument.now) points.now }
{
    match all_values(argument, points) {
        Ok(Some(values)) => clamped(&values),
        _ => from_zero(),
    }
}

/// All values of a table over an argument, before they are clamped.
#[tactic(auto, unfolding(crate::specs::Hulls::all_values))]
fn all_values(argument: &Argument, points: &[Point]) -> Result<Option<Interval>, Overflow>
    requires argument { IsArgument argument.now }
    requires points { IsPointList points.now }
    ensures value { result ≡ all_values (part_of argument.now) points.now }
{
    let first = argument.part(&Bound::NoBound, &closed(&points[0]));
    match values_of(argument, points) {
        Ok(later) => Ok(hull_of_both(&value_of_point(&points[0], &first), &later)),
        Err(_) => Err(Overflow),
    }
}

/// The values from the first point on. It goes from the last point back.
fn values_of(argument: &Argument, points: &[Point]) -> Result<Option<Interval>, Overflow>
    requires argument { IsArgument argument.now }
    requires points { IsPointList points.now }
    ensures value { result ≡ values_of (part_of argument.now) points.now }
{
    let mut at = points.len() - 1;
    let last = argument.part(&closed(&points[at]), &Bound::NoBound);
    let mut values = value_of_point(&points[at], &last);
    'back: while at > 0 {
        at -= 1;
        let part = argument.part(&closed(&points[at]), &closed(&points[at + 1]));
        match values_over(&points[at], &points[at + 1], &part) {
            Ok(first) => values = hull_of_both(&first, &values),
            Err(_) => return Err(Overflow),
        }
    }
    Ok(values)
}

/// The end at the x of a point, which is not left out.
fn closed(p: &Point) -> Bound
    ensures value { result ≡ end.Bound p.now.x false }
{
    Bound::Bound(p.x, false)
}
