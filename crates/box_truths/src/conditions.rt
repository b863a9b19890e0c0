//! What is known of a condition in a box.
ghost use Rattle.std.specs.Prelude.{◌≡◌, true, false, IsTrue};
ghost use Rattle.exact_fraction.specs.Number.{Rational};
ghost use Rattle.interval_sets.specs.Intervals.{point_of};
ghost use Rattle.rule_types.specs.WellFormed.{ConditionFits, IsTimeValue};
ghost use Rattle.rule_meaning.specs.Condition.{second_truth};
ghost use Rattle.clock_values.specs.Steps.{IsStepInHours};
ghost use Rattle.verdict_meaning.specs.declared.truth.Reach.TheVariants.{Within};
ghost use Rattle.verdict_meaning.specs.Truths.{by_moments, condition_truth, reach_truth};
ghost use Rattle.verdict_meaning.specs.Truths.{sides_truth};
ghost use Rattle.box_truths.specs.Times.{AreStepTimes};

use crate::half_steps::{all_meet, none_meet};
use crate::relations::{all_relate, contrary};
use crate::seconds::{by_tests, in_one_day, seconds_truth};
use crate::sides::side_of;
use crate::times::Times;
use box_hulls::{left_reach, right_reach};
use exact_fraction::frac::Frac;
use list_types::Items;
use rule_types::{ClockAttr, Condition, Key, NameDef, Right, Side};
use verdict_meaning::{Cell, Reach, Truth};

/// What is known of a condition over these names at all states of a box: Yes where it holds at
/// each, No where it holds at none, else Open, or also where the hulls of its sides do not tell. A
/// condition of the clock against a number, in a box within one civil day, is decided by its
/// seconds. It takes no memory (SWMM 5.2 manual, [CONTROLS]).
#[tactic(auto, unfolding(verdict_meaning::specs::Truths::condition_truth))]
pub fn condition_truth(
    names: &Items<NameDef>,
    times: &Times,
    cell: &Cell,
    condition: &Condition,
) -> Truth
    requires fits { ConditionFits names.now condition.now }
    requires times { AreStepTimes times.now }
    ensures value { result
        ≡ condition_truth names.now times.now.start times.now.step cell.now condition.now }
{
    match (side_of(names, &condition.left), &condition.right) {
        (Side::Key(Key::Clock(attribute)), Right::Value(number)) => {
            clock_truth(names, times, cell, condition, &attribute, number)
        }
        _ => sides_truth(names, times, cell, condition),
    }
}

/// The same of a condition of an attribute of the clock against a number.
fn clock_truth(
    names: &Items<NameDef>,
    times: &Times,
    cell: &Cell,
    condition: &Condition,
    attribute: &ClockAttr,
    number: &Frac,
) -> Truth
    requires fits { ConditionFits names.now condition.now }
    requires value { IsTrue condition.now.half_step → IsTimeValue number.now }
    requires times { AreStepTimes times.now }
    ensures value { result ≡ by_moments cell.now.moments
        (second_truth condition.now times.now.step attribute.now number.now times.now.start)
        (sides_truth names.now times.now.start times.now.step cell.now condition.now) }
{
    let Some((first, last)) = &cell.moments else {
        return sides_truth(names, times, cell, condition);
    };
    if in_one_day(first, last) {
        return seconds_truth(times, condition, attribute, number, first, last);
    }
    sides_truth(names, times, cell, condition)
}

/// What is known of a condition by its sides.
#[tactic(auto, unfolding(verdict_meaning::specs::Truths::sides_truth, verdict_meaning::specs::Reaches::right_reach))]
fn sides_truth(names: &Items<NameDef>, times: &Times, cell: &Cell, condition: &Condition) -> Truth
    requires fits { ConditionFits names.now condition.now }
    requires times { AreStepTimes times.now }
    ensures value { result
        ≡ sides_truth names.now times.now.start times.now.step cell.now condition.now }
{
    let left = left_reach(names, &times.start, cell, &condition.left);
    match &condition.right {
        Right::Value(number) => number_truth(condition, &times.hours, &left, number),
        Right::Key(_) => {
            let right = right_reach(&times.start, cell, &condition.right);
            exact_truth(condition, &left, &right)
        }
    }
}

/// What is known of a condition against a number.
fn number_truth(condition: &Condition, step: &Frac, left: &Reach, number: &Frac) -> Truth
    requires value { IsTrue condition.now.half_step → IsTimeValue number.now }
    requires step { IsStepInHours step.now }
    ensures value { result
        ≡ reach_truth condition.now step.now left.now (Within true (point_of number.now)) }
{
    match left {
        Reach::Missing => Truth::No,
        Reach::Within(sure, piece) => {
            let none = none_meet(condition.half_step, &condition.rel, step, piece, number);
            let all = all_meet(condition.half_step, &condition.rel, step, piece, number);
            by_tests(none, all, *sure)
        }
    }
}

/// What is known of a condition that is not read within half a step.
#[tactic(auto, unfolding(verdict_meaning::specs::Truths::none_meet, verdict_meaning::specs::Truths::all_meet))]
fn exact_truth(condition: &Condition, left: &Reach, right: &Reach) -> Truth
    requires exact { condition.now.half_step ≡ false }
    ensures value { (step : Rational) → result ≡ reach_truth condition.now step left.now right.now }
{
    match (left, right) {
        (Reach::Within(sure, piece), Reach::Within(certain, other)) => {
            let none = all_relate(&contrary(&condition.rel), piece, other);
            let all = all_relate(&condition.rel, piece, other);
            by_tests(none, all, *sure & *certain)
        }
        _ => Truth::No,
    }
}
