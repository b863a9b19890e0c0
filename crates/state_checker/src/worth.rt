//! What a pair of a rule and an action orders at a state.
ghost use Rattle.std.specs.Prelude.{◌≡◌, Ok, IsTrue, IsSomeAnd};
ghost use Rattle.exact_fraction.specs.Number.{Rational};
ghost use Rattle.rule_types.specs.Fitting.{IsStep};
ghost use Rattle.rule_types.specs.Tables.{HoldsTableOf, HoldsTables, IsPointList, curve_at};
ghost use Rattle.rule_types.specs.Tables.{series_at};
ghost use Rattle.rule_types.specs.WellFormed.{has_rate};
ghost use Rattle.rule_meaning.specs.Pid.{fresh};
ghost use Rattle.rule_meaning.specs.Reading.{action_worth, conditions_at};
ghost use Rattle.rule_meaning.specs.Settled.{action_at};
ghost use Rattle.rule_meaning.specs.Worth.{capped, controller_of, curve_worth, pid_worth};
ghost use Rattle.rule_meaning.specs.Worth.{series_worth, set_point_of, value_stepped, what_worth};
ghost use Rattle.rule_meaning.specs.Worth.{worth};
ghost use Rattle.verdict_meaning.specs.Grids.{sample_memory};
ghost use Rattle.verdict_meaning.specs.Questions.{is_asked};
ghost use Rattle.state_checker.specs.internal.Readings.{IsReading};

use crate::links::{is_pump, old_target, rate_of};
use box_eval::is_asked;
use clock_values::minutes_of;
use curves_series::Tables;
use exact_fraction::error::Overflow;
use exact_fraction::frac::Frac;
use pid_action::pid_step;
use premise_eval::{Values, controller, set_point};
use rule_types::{Action, ActionAt, CurveNo, PidMemory, PidSet, Rules, SeriesNo, State, What};
use verdict_meaning::Question;

/// The value of the action at a place, whose rule is the question's.
pub(crate) fn pair_worth(
    rules: &Rules,
    tables: &Tables,
    question: &Question,
    state: &State,
    values: &Values,
    at: &ActionAt,
) -> Result<Frac, Overflow>
    requires reading { IsReading rules.now question.now state.now values.now }
    requires tables { HoldsTables tables.now rules.now.rules }
    requires asked { IsTrue (is_asked rules.now question.now at.now.rule) }
    ensures value { result ≡ action_worth rules.now tables.now state.now sample_memory
        (conditions_at rules.now.rules at.now) (action_at rules.now.rules at.now) }
{
    match rules.action_at(at) {
        Some(action) => worth(rules, tables, question, state, values, at, action),
        None => Ok(Frac::zero()),
    }
}

/// The value of an action: on a link with a rate a value above 1 counts as 1.
#[tactic(auto, unfolding(rule_meaning::specs::Worth::worth))]
fn worth(
    rules: &Rules,
    tables: &Tables,
    question: &Question,
    state: &State,
    values: &Values,
    at: &ActionAt,
    action: &Action,
) -> Result<Frac, Overflow>
    requires reading { IsReading rules.now question.now state.now values.now }
    requires table { HoldsTableOf tables.now action.now.what }
    requires asked { IsTrue (is_asked rules.now question.now at.now.rule) }
    ensures value { result ≡ worth rules.now tables.now state.now sample_memory
        (conditions_at rules.now.rules at.now) action.now }
{
    let value = what_worth(rules, tables, question, state, values, at, action)?;
    Ok(capped(&rate_of(rules, action.link), value))
}

/// A value on a link of this rate.
fn capped(rate: &Frac, value: Frac) -> Frac
    ensures value { Ok result ≡ capped rate.now (Ok value) }
{
    if Frac::zero().is_less(rate) {
        return Frac::one().min(value);
    }
    value
}

/// The value of an action before the rate of its link is asked.
#[tactic(auto, unfolding(rule_meaning::specs::Worth::what_worth, rule_meaning::specs::Worth::rule_pid),)]
fn what_worth(
    rules: &Rules,
    tables: &Tables,
    question: &Question,
    state: &State,
    values: &Values,
    at: &ActionAt,
    action: &Action,
) -> Result<Frac, Overflow>
    requires reading { IsReading rules.now question.now state.now values.now }
    requires table { HoldsTableOf tables.now action.now.what }
    requires asked { IsTrue (is_asked rules.now question.now at.now.rule) }
    ensures value { result ≡ what_worth rules.now tables.now state.now sample_memory
        (conditions_at rules.now.rules at.now) action.now.link action.now.what }
{
    match &action.what {
        What::Constant(q) => Ok(*q),
        What::Curve(curve) => {
            let controller = controller_at(rules, question, state, values, at);
            let old = old_target(rules, state, action.link);
            curve_worth(tables, curve, &controller, &old)
        }
        What::Series(series) => series_worth(tables, series, state),
        What::Pid(set, _) => {
            let controller = controller_at(rules, question, state, values, at);
            let set_point = set_point_at(rules, question, state, values, at);
            let old = old_target(rules, state, action.link);
            let pump = is_pump(rules, action.link);
            pid_worth(set, &controller, &set_point, &old, &state.step, pump)
        }
    }
}

/// The value of a curve at its controller, and where that is missing the old target.
fn curve_worth(
    tables: &Tables,
    curve: &CurveNo,
    controller: &Option<Frac>,
    old: &Frac,
) -> Result<Frac, Overflow>
    requires held { IsSomeAnd (curve_at tables.now curve.now.index)
        (λ table. IsPointList table.points) }
    ensures value { result ≡ curve_worth (curve_at tables.now curve.now.index) controller.now
        old.now }
{
    match controller {
        Some(x) => tables.curve_value(*curve, *x),
        None => Ok(*old),
    }
}

/// The value of a series at the moment.
fn series_worth(tables: &Tables, series: &SeriesNo, state: &State) -> Result<Frac, Overflow>
    requires held { IsSomeAnd (series_at tables.now series.now.index)
        (λ table. IsPointList table.points) }
    ensures value { (old : Rational)
        → result ≡ series_worth (series_at tables.now series.now.index) state.now old }
{
    tables.series_value(*series, state.start, state.moment)
}

/// A step of a PID action from the memory 0; where its controller or its set point is missing, the
/// old target.

fn pid_worth(
    set: &PidSet,
    controller: &Option<Frac>,
    set_point: &Option<Frac>,
    old: &Frac,
    step: &Frac,
    pump: bool,
) -> Result<Frac, Overflow>
    requires step { IsStep step.now }
    ensures value { result ≡ value_stepped
        (pid_worth set.now controller.now set_point.now old.now step.now pump fresh) }
{
    let Some(x) = controller else {
        return Ok(*old);
    };
    let Some(point) = set_point else {
        return Ok(*old);
    };
    let mut memory = PidMemory {
        e1: Frac::zero(),
        e2: Frac::zero(),
    };
    let minutes = minutes_of(step);
    pid_step(*set, *point, *x, *old, minutes, pump, &mut memory)
}

/// The controller of the action at a place.
fn controller_at(
    rules: &Rules,
    question: &Question,
    state: &State,
    values: &Values,
    at: &ActionAt,
) -> Option<Frac>
    requires reading { IsReading rules.now question.now state.now values.now }
    requires asked { IsTrue (is_asked rules.now question.now at.now.rule) }
    ensures value { result
        ≡ controller_of rules.now state.now (conditions_at rules.now.rules at.now) }
{
    let _asked = is_asked(rules, question, at.rule as usize);
    let _moment = state.moment;
    if (at.rule as usize) < rules.rules.len() {
        return controller(rules, values, at.rule);
    }
    None
}

/// The set point of the action at a place.
fn set_point_at(
    rules: &Rules,
    question: &Question,
    state: &State,
    values: &Values,
    at: &ActionAt,
) -> Option<Frac>
    requires reading { IsReading rules.now question.now state.now values.now }
    requires asked { IsTrue (is_asked rules.now question.now at.now.rule) }
    ensures value { result
        ≡ set_point_of rules.now state.now (conditions_at rules.now.rules at.now) }
{
    let _asked = is_asked(rules, question, at.rule as usize);
    let _moment = state.moment;
    if (at.rule as usize) < rules.rules.len() {
        return set_point(rules, values, at.rule);
    }
    None
}
