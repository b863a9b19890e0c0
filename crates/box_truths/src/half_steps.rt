//! Conditions on times, which are read within half a step (SWMM 5.2 manual, [CONTROLS], times).
ghost use Rattle.std.specs.Prelude.{◌≡◌, ◌&&◌, ◌||◌, false, IsTrue};
ghost use Rattle.interval_sets.specs.Intervals.{point_of};
ghost use Rattle.interval_sets.specs.declared.interval.Bound.TheVariants as end;
ghost use Rattle.rule_types.specs.WellFormed.{IsTimeValue};
ghost use Rattle.rule_meaning.specs.Condition.{half_of};
ghost use Rattle.clock_values.specs.Steps.{IsStepInHours};
ghost use Rattle.verdict_meaning.specs.Truths.{all_meet, all_times_relate, all_within, contrary};
ghost use Rattle.verdict_meaning.specs.Truths.{ends_at_most, ends_below, none_meet, none_within};

use crate::ends::{ends_at_most, ends_below};
use crate::relations::{all_relate, contrary};
use clock_values::{StepEnds, step_ends};
use exact_fraction::frac::Frac;
use exact_fraction::relation::Relation;
use interval_sets::{Bound, Interval};

/// Whether each number of an interval meets a relation to a number at a step in hours: within half
/// a step where it is read so.
#[tactic(auto, unfolding(verdict_meaning::specs::Truths::all_meet))]
pub(crate) fn all_meet(
    half_step: bool,
    relation: &Relation,
    step: &Frac,
    a: &Interval,
    number: &Frac,
) -> bool
    requires value { IsTrue half_step → IsTimeValue number.now }
    requires step { IsStepInHours step.now }
    ensures value { result
        ≡ all_meet half_step relation.now step.now a.now (point_of number.now) }
{
    if half_step {
        all_times_relate(relation, a, number, step)
    } else {
        all_relate(relation, a, &Interval::point(*number))
    }
}

/// Whether no number of an interval does.
#[tactic(auto, unfolding(verdict_meaning::specs::Truths::none_meet))]
pub(crate) fn none_meet(
    half_step: bool,
    relation: &Relation,
    step: &Frac,
    a: &Interval,
    number: &Frac,
) -> bool
    requires value { IsTrue half_step → IsTimeValue number.now }
    requires step { IsStepInHours step.now }
    ensures value { result
        ≡ none_meet half_step relation.now step.now a.now (point_of number.now) }
{
    all_meet(half_step, &contrary(relation), step, a, number)
}

/// Whether each time of an interval stands in a relation to a time, read within half a step.
#[tactic(auto, unfolding(verdict_meaning::specs::Truths::all_times_relate, verdict_meaning::specs::Truths::all_within, verdict_meaning::specs::Truths::none_within))]
fn all_times_relate(relation: &Relation, a: &Interval, time: &Frac, step: &Frac) -> bool
    requires value { IsTimeValue time.now }
    requires step { IsStepInHours step.now }
    ensures value { result ≡ all_times_relate relation.now a.now (point_of time.now) step.now }
{
    match relation {
        Relation::Eq => all_between(a, &step_ends(time, step)),
        Relation::Ne => none_between(a, &step_ends(time, step)),
        other => all_relate(other, a, &Interval::point(*time)),
    }
}

/// Whether each time of an interval is at least a low end and below a high end.
fn all_between(a: &Interval, ends: &StepEnds) -> bool
    ensures value { result ≡ (ends_at_most (end.Bound ends.now.low false) a.now.low
        && ends_below a.now.high (end.Bound ends.now.high false)) }
{
    ends_at_most(&Bound::Bound(ends.low, false), &a.low)
        & ends_below(&a.high, &Bound::Bound(ends.high, false))
}

/// Whether no time of an interval is.
fn none_between(a: &Interval, ends: &StepEnds) -> bool
    ensures value { result ≡ (ends_below a.now.high (end.Bound ends.now.low false)
        || ends_at_most (end.Bound ends.now.high false) a.now.low) }
{
    ends_below(&a.high, &Bound::Bound(ends.low, false))
        | ends_at_most(&Bound::Bound(ends.high, false), &a.low)
}
