//! Steps in hours and in minutes, and the times half a step before and after a time.
ghost use Rattle.std.specs.Prelude.{◌≡◌, ◌<◌, ◌≤◌, pos, IsTrue};
ghost use Rattle.exact_fraction.specs.Number.{whole, zero, fits};
ghost use Rattle.exact_fraction.specs.Operations.{sum_of, difference_of, quotient_of};
ghost use Rattle.exact_fraction.specs.Order.{◌<ℚ◌};
ghost use Rattle.rule_types.specs.Fitting.{IsStep};
ghost use Rattle.rule_types.specs.WellFormed.{IsTimeValue};
ghost use Rattle.rule_meaning.specs.Condition.{hours_of_step, half_of};
ghost use Rattle.rule_meaning.specs.Worth.{minutes_of};
ghost use Rattle.clock_values.specs.Steps.{IsStepInHours, EndsFit};

use exact_fraction::frac::Frac;

/// The seconds of a step in hours.
#[tactic(auto, unfolding(rule_meaning::specs::Condition::hours_of_step))]
pub fn hours_of_step(seconds: &Frac) -> Frac
    requires step { IsStep seconds.now }
    ensures value { result ≡ hours_of_step seconds.now }
    ensures step { IsStepInHours result }
{
    divided(seconds, 3_600)
}

/// The seconds of a step in minutes, which are above 0.
#[tactic(auto, unfolding(rule_meaning::specs::Worth::minutes_of))]
pub fn minutes_of(seconds: &Frac) -> Frac
    requires step { IsStep seconds.now }
    ensures value { result ≡ minutes_of seconds.now }
    ensures positive { zero <ℚ result }
{
    divided(seconds, 60)
}

/// The seconds of a step, divided by a small number.
fn divided(seconds: &Frac, divisor: u32) -> Frac
    requires step { IsStep seconds.now }
    requires positive { 0 < divisor }
    requires small { divisor ≤ 3600 }
    ensures value { result ≡ quotient_of seconds.now (whole (pos divisor)) }
{
    match seconds.quotient(Frac::natural(divisor)) {
        Ok(quotient) => quotient,
        Err(_) => Frac::zero(),
    }
}

/// The times half a step before and after a time.
#[derive(Clone, Copy)]
pub struct StepEnds {
    /// Half a step before the time.
    pub low: Frac,
    /// Half a step after the time.
    pub high: Frac,
}

/// The times half a step before and after a time, of a step in hours. Both always fit.
#[tactic(auto, using(crate::proofs::EndsFit::ends_fit))]
pub fn step_ends(time: &Frac, step: &Frac) -> StepEnds
    requires time { IsTimeValue time.now }
    requires step { IsStepInHours step.now }
    ensures low { result.low ≡ difference_of time.now (half_of step.now) }
    ensures high { result.high ≡ sum_of time.now (half_of step.now) }
{
    fitting_ends(time, step)
}

/// The times half a step before and after a time, where they fit.
fn fitting_ends(time: &Frac, step: &Frac) -> StepEnds
    requires fits { EndsFit time.now step.now }
    ensures low { result.low ≡ difference_of time.now (half_of step.now) }
    ensures high { result.high ≡ sum_of time.now (half_of step.now) }
{
    let half = half_of(step);
    StepEnds {
        low: difference_of(time, &half),
        high: sum_of(time, &half),
    }
}

/// Half of a step, where it fits.
#[tactic(auto, unfolding(rule_meaning::specs::Condition::half_of))]
fn half_of(step: &Frac) -> Frac
    requires fits { IsTrue (fits (half_of step.now)) }
    ensures value { result ≡ half_of step.now }
{
    match step.quotient(Frac::natural(2)) {
        Ok(half) => half,
        Err(_) => Frac::zero(),
    }
}

/// The difference, where it fits.
#[tactic(auto, unfolding(exact_fraction::specs::Checked::checked))]
fn difference_of(time: &Frac, half: &Frac) -> Frac
    requires fits { IsTrue (fits (difference_of time.now half.now)) }
    ensures value { result ≡ difference_of time.now half.now }
{
    match time.sub(*half) {
        Ok(low) => low,
        Err(_) => Frac::zero(),
    }
}

/// The sum, where it fits.
#[tactic(auto, unfolding(exact_fraction::specs::Checked::checked))]
fn sum_of(time: &Frac, half: &Frac) -> Frac
    requires fits { IsTrue (fits (sum_of time.now half.now)) }
    ensures value { result ≡ sum_of time.now half.now }
{
    match time.add(*half) {
        Ok(high) => high,
        Err(_) => Frac::zero(),
    }
}
