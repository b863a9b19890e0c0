//! Conditions of the clock over the seconds of a day.
ghost use Rattle.std.specs.Prelude.{◌≡◌, ◌≤ℤ◌, ◌-ℤ◌, pos, unsigned_abs, IsTrue};
ghost use Rattle.std.specs.Int.{int_rem_euclid};
ghost use Rattle.rule_types.specs.WellFormed.{IsTimeValue};
ghost use Rattle.rule_meaning.specs.Clock.{day_of, clock_value};
ghost use Rattle.rule_meaning.specs.Condition.{meets};
ghost use Rattle.clock_values.specs.Seconds.{passes_throughout, passes_nowhere};
ghost use Rattle.clock_values.specs.Steps.{IsStepInHours};

use crate::clock::clock_value;
use crate::relations::meets;
use crate::window::{Run, window_of};
use exact_fraction::frac::Frac;
use exact_fraction::moment::Moment;
use rule_types::{ClockAttr, Condition};

/// Whether a condition of an attribute of the clock against a number holds at every second from
/// `from` to `to`, which are on one day, in a simulation that begins at `start` and at a step in
/// hours. It takes the same time however many seconds there are, and no memory.
pub fn all_hold(
    condition: &Condition,
    step: &Frac,
    attribute: ClockAttr,
    other: &Frac,
    start: Moment,
    from: Moment,
    to: Moment,
) -> bool
    requires value { IsTrue condition.now.half_step → IsTimeValue other.now }
    requires step { IsStepInHours step.now }
    requires one_day { day_of from ≡ day_of to }
    requires order { from ≤ℤ to }
    ensures value { result ≡ passes_throughout
        (λ second. meets condition.now step.now (clock_value attribute start second) other.now)
        from (unsigned_abs (to -ℤ from)) }
{
    match attribute {
        ClockAttr::Time => {
            window_of(condition, step, other).holds_throughout(&run_since(start, from, to))
        }
        ClockAttr::ClockTime => {
            window_of(condition, step, other).holds_throughout(&run_of_day(from, to))
        }
        ClockAttr::Date | ClockAttr::Month | ClockAttr::Day | ClockAttr::DayOfYear => {
            meets(condition, step, &clock_value(attribute, start, from), other)
        }
    }
}

/// Whether a condition of an attribute of the clock against a number holds at no second from `from`
/// to `to`, which are on one day, in a simulation that begins at `start` and at a step in hours. It
/// takes the same time however many seconds there are, and no memory.
pub fn none_hold(
    condition: &Condition,
    step: &Frac,
    attribute: ClockAttr,
    other: &Frac,
    start: Moment,
    from: Moment,
    to: Moment,
) -> bool
    requires value { IsTrue condition.now.half_step → IsTimeValue other.now }
    requires step { IsStepInHours step.now }
    requires one_day { day_of from ≡ day_of to }
    requires order { from ≤ℤ to }
    ensures value { result ≡ passes_nowhere
        (λ second. meets condition.now step.now (clock_value attribute start second) other.now)
        from (unsigned_abs (to -ℤ from)) }
{
    match attribute {
        ClockAttr::Time => {
            window_of(condition, step, other).holds_nowhere(&run_since(start, from, to))
        }
        ClockAttr::ClockTime => {
            window_of(condition, step, other).holds_nowhere(&run_of_day(from, to))
        }
        ClockAttr::Date | ClockAttr::Month | ClockAttr::Day | ClockAttr::DayOfYear => {
            !meets(condition, step, &clock_value(attribute, start, from), other)
        }
    }
}

/// The seconds of a run since the start.
fn run_since(start: Moment, from: Moment, to: Moment) -> Run
    ensures from { result.from ≡ from -ℤ start }
    ensures to { result.to ≡ to -ℤ start }
{
    let begin = start.seconds();
    Run {
        from: from.seconds() - begin,
        to: to.seconds() - begin,
    }
}

/// The seconds of a run since midnight.
fn run_of_day(from: Moment, to: Moment) -> Run
    ensures from { result.from ≡ int_rem_euclid from (pos 86400) }
    ensures to { result.to ≡ int_rem_euclid to (pos 86400) }
{
    Run {
        from: from.seconds().rem_euclid(86_400),
        to: to.seconds().rem_euclid(86_400),
    }
}
