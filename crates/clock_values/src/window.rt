//! Windows of seconds: a condition on hours holds within a window of whole seconds, or outside it.
ghost use Rattle.std.specs.Prelude.{◌≡◌, ◌<◌, ◌≤◌, ◌^◌, ◌*ℤ◌, ◌+ℤ◌, ◌<ℤ◌, pos, neg_ℤ};
ghost use Rattle.std.specs.Prelude.{unsigned_abs};
ghost use Rattle.std.specs.Prelude.{IsTrue, Some, None, int_lt};
ghost use Rattle.std.specs.Int.{int_div_euclid};
ghost use Rattle.exact_fraction.specs.Number.{den};
ghost use Rattle.rule_types.specs.WellFormed.{IsTimeValue};
ghost use Rattle.rule_meaning.specs.Condition.{half_of};
ghost use Rattle.clock_values.specs.Steps.{IsStepInHours};
ghost use Rattle.clock_values.specs.Windows.{first_second_at, first_second_past, within_half};
ghost use Rattle.clock_values.specs.Windows.{exact_window, half_window, window_of};
ghost use Rattle.clock_values.specs.internal.Runs.{all_lie_in, none_lies_in, all_in_window};
ghost use Rattle.clock_values.specs.internal.Runs.{none_in_window};

use crate::steps::step_ends;
use exact_fraction::frac::Frac;
use exact_fraction::relation::Relation;
use rule_types::Condition;

/// The seconds at which a condition on hours holds: those from `low` on that are before `high`, if
/// there is an end, or all others.
#[derive(Clone, Copy, Debug)]
pub struct Window {
    /// The first second of the window.
    pub low: i128,
    /// The first second after the window; None where it has no end.
    pub high: Option<i128>,
    /// Whether the condition holds in the window; else it holds outside it.
    pub inside: bool,
}

/// Seconds from one to another, which is not before it.
#[derive(Clone, Copy)]
pub(crate) struct Run {
    pub(crate) from: i64,
    pub(crate) to: i64,
}

/// The window of a condition against so many hours, at a step in hours: the whole seconds at which so
/// many seconds in hours meet the condition. It takes no memory.
#[tactic(auto, unfolding(crate::specs::Windows::window_of))]
pub fn window_of(condition: &Condition, step: &Frac, other: &Frac) -> Window
    requires value { IsTrue condition.now.half_step → IsTimeValue other.now }
    requires step { IsStepInHours step.now }
    ensures value { result ≡ window_of condition.now step.now other.now }
{
    if condition.half_step {
        half_window(&condition.rel, other, step)
    } else {
        exact_window(&condition.rel, other)
    }
}

/// The window of a relation to so many hours within half a step.
#[tactic(auto, unfolding(crate::specs::Windows::half_window))]
fn half_window(relation: &Relation, other: &Frac, step: &Frac) -> Window
    requires value { IsTimeValue other.now }
    requires step { IsStepInHours step.now }
    ensures value { result ≡ half_window relation.now other.now (half_of step.now) }
{
    match relation {
        Relation::Eq => within_half(other, step, true),
        Relation::Ne => within_half(other, step, false),
        Relation::Lt | Relation::Le | Relation::Gt | Relation::Ge => exact_window(relation, other),
    }
}

/// The window of half a step before and after so many hours.
fn within_half(other: &Frac, step: &Frac, inside: bool) -> Window
    requires value { IsTimeValue other.now }
    requires step { IsStepInHours step.now }
    ensures value { result ≡ within_half other.now (half_of step.now) inside }
{
    let ends = step_ends(other, step);
    Window {
        low: first_second_at(&ends.low),
        high: Some(first_second_at(&ends.high)),
        inside,
    }
}

/// The window of a relation to so many hours.
#[tactic(auto, unfolding(crate::specs::Windows::exact_window))]
fn exact_window(relation: &Relation, other: &Frac) -> Window
    ensures value { result ≡ exact_window relation.now other.now }
{
    match relation {
        Relation::Eq => point_window(other, true),
        Relation::Ne => point_window(other, false),
        Relation::Lt => window_from(first_second_at(other), false),
        Relation::Le => window_from(first_second_past(other), false),
        Relation::Gt => window_from(first_second_past(other), true),
        Relation::Ge => window_from(first_second_at(other), true),
    }
}

/// The window of the second, if any, that is so many hours.
fn point_window(other: &Frac, inside: bool) -> Window
    ensures low { result.low ≡ first_second_at other.now }
    ensures high { result.high ≡ Some (first_second_past other.now) }
    ensures inside { result.inside ≡ inside }
{
    Window {
        low: first_second_at(other),
        high: Some(first_second_past(other)),
        inside,
    }
}

/// The window from a second on.
fn window_from(low: i128, inside: bool) -> Window
    ensures low { result.low ≡ low }
    ensures high { result.high ≡ None }
    ensures inside { result.inside ≡ inside }
{
    Window {
        low,
        high: None,
        inside,
    }
}

/// So many hours as a quotient of seconds by a positive number.
#[derive(Clone, Copy)]
struct Quotient {
    num: i128,
    den: i128,
}

/// So many hours in seconds.
fn seconds_of(hours: &Frac) -> Quotient
    ensures num { result.num ≡ hours.now.num *ℤ pos 3600 }
    ensures den { result.den ≡ pos (den hours.now) }
    ensures positive { pos 0 <ℤ result.den }
    ensures size { unsigned_abs result.num < 2 ^ 75 }
{
    Quotient {
        num: hours.num() as i128 * 3_600,
        den: hours.den() as i128,
    }
}

/// The floor of a quotient.
fn floor(num: &i128, den: &i128) -> i128
    requires positive { pos 0 <ℤ den.now }
    requires size { unsigned_abs num.now ≤ 2 ^ 75 }
    ensures value { result ≡ int_div_euclid num.now den.now }
    ensures size { unsigned_abs result ≤ 2 ^ 75 }
{
    num.div_euclid(*den)
}

/// The number with its sign turned.
fn negated(number: &i128) -> i128
    requires size { unsigned_abs number.now ≤ 2 ^ 75 }
    ensures value { result ≡ neg_ℤ number.now }
    ensures size { unsigned_abs result ≤ 2 ^ 75 }
{
    -*number
}

/// The next whole number.
fn next(number: &i128) -> i128
    requires size { unsigned_abs number.now ≤ 2 ^ 75 }
    ensures value { result ≡ number.now +ℤ pos 1 }
{
    *number + 1
}

/// The first second that is at least so many hours.
#[tactic(auto, unfolding(crate::specs::Windows::first_second_at))]
fn first_second_at(hours: &Frac) -> i128
    ensures value { result ≡ first_second_at hours.now }
{
    let seconds = seconds_of(hours);
    let turned = negated(&seconds.num);
    let below = floor(&turned, &seconds.den);
    negated(&below)
}

/// The first second that is more than so many hours.
#[tactic(auto, unfolding(crate::specs::Windows::first_second_past))]
fn first_second_past(hours: &Frac) -> i128
    ensures value { result ≡ first_second_past hours.now }
{
    let seconds = seconds_of(hours);
    let below = floor(&seconds.num, &seconds.den);
    next(&below)
}

impl Window {
    /// Whether the condition holds at all seconds of a run.
    #[tactic(auto, unfolding(crate::specs::internal::Runs::all_in_window))]
    pub(crate) fn holds_throughout(&self, run: &Run) -> bool
        ensures value { result ≡ all_in_window self.now run.now.from run.now.to }
    {
        if self.inside {
            self.all_lie_in(run)
        } else {
            self.none_lies_in(run)
        }
    }

    /// Whether the condition holds at no second of a run.
    #[tactic(auto, unfolding(crate::specs::internal::Runs::none_in_window))]
    pub(crate) fn holds_nowhere(&self, run: &Run) -> bool
        ensures value { result ≡ none_in_window self.now run.now.from run.now.to }
    {
        if self.inside {
            self.none_lies_in(run)
        } else {
            self.all_lie_in(run)
        }
    }

    /// Whether all seconds of a run lie in the window.
    fn all_lie_in(&self, run: &Run) -> bool
        ensures value { result ≡ all_lie_in self.now.low self.now.high run.now.from run.now.to }
    {
        if is_below(&run.from, &self.low) {
            return false;
        }
        match &self.high {
            None => true,
            Some(high) => is_below(&run.to, high),
        }
    }

    /// Whether no second of a run lies in the window.
    fn none_lies_in(&self, run: &Run) -> bool
        ensures value { result ≡ none_lies_in self.now.low self.now.high run.now.from run.now.to }
    {
        if is_below(&run.to, &self.low) {
            return true;
        }
        match &self.high {
            None => false,
            Some(high) => !is_below(&run.from, high) || *high <= self.low,
        }
    }
}

/// Whether a second is below the end of a window.
fn is_below(second: &i64, end: &i128) -> bool
    ensures value { result ≡ int_lt second.now end.now }
{
    (*second as i128) < *end
}
