//! Conditions on the clock, by the seconds of a box within one civil day (SWMM 5.2 manual,
//! [CONTROLS], SIMULATION).
ghost use Rattle.std.specs.Prelude.{◌≡◌, IsTrue};
ghost use Rattle.rule_types.specs.WellFormed.{IsTimeValue};
ghost use Rattle.rule_meaning.specs.Clock.{day_of};
ghost use Rattle.rule_meaning.specs.Condition.{second_truth};
ghost use Rattle.verdict_meaning.specs.ClockHulls.{in_one_day};
ghost use Rattle.verdict_meaning.specs.Truths.{by_tests, seconds_truth};
ghost use Rattle.box_truths.specs.Times.{AreStepTimes};

use crate::times::Times;
use clock_values::{all_hold, none_hold};
use exact_fraction::frac::Frac;
use exact_fraction::moment::Moment;
use rule_types::{ClockAttr, Condition};
use verdict_meaning::Truth;

/// The seconds of a day.
const DAY: i64 = 86_400;

/// What is known where no pair meets a condition, where each does, and whether each state has one.
pub(crate) fn by_tests(none: bool, all: bool, sure: bool) -> Truth
    ensures value { result ≡ by_tests none all sure }
{
    if none {
        return Truth::No;
    }
    if all & sure {
        return Truth::Yes;
    }
    Truth::Open
}

/// Whether two moments lie in one civil day.
#[tactic(auto, unfolding(verdict_meaning::specs::ClockHulls::in_one_day, rule_meaning::specs::Clock::day_of))]
pub(crate) fn in_one_day(first: &Moment, last: &Moment) -> bool
    ensures value { result ≡ in_one_day first.now last.now }
    ensures day { IsTrue result → day_of first.now ≡ day_of last.now }
{
    first.seconds().div_euclid(DAY) == last.seconds().div_euclid(DAY)
}

/// What is known of a condition of an attribute of the clock against a number, by the seconds from
/// a first to a last moment of one civil day.
#[tactic(auto, unfolding(verdict_meaning::specs::Truths::seconds_truth, rule_meaning::specs::Condition::second_truth))]
pub(crate) fn seconds_truth(
    times: &Times,
    condition: &Condition,
    attribute: &ClockAttr,
    number: &Frac,
    first: &Moment,
    last: &Moment,
) -> Truth
    requires times { AreStepTimes times.now }
    requires value { IsTrue condition.now.half_step → IsTimeValue number.now }
    requires one_day { day_of first.now ≡ day_of last.now }
    ensures value { result
        ≡ seconds_truth (second_truth condition.now times.now.step attribute.now number.now times.now.start)
        first.now last.now }
{
    if last.seconds() < first.seconds() {
        return Truth::No;
    }
    let none = none_hold(
        condition,
        &times.hours,
        *attribute,
        number,
        times.start,
        *first,
        *last,
    );
    let all = all_hold(
        condition,
        &times.hours,
        *attribute,
        number,
        times.start,
        *first,
        *last,
    );
    by_tests(none, all, true)
}
