//! The start and the step of a project.
ghost use Rattle.std.specs.Prelude.{◌≡◌, pos};
ghost use Rattle.rule_types.specs.WellFormed.{WellFormed};
ghost use Rattle.rule_meaning.specs.Condition.{hours_of_step};
ghost use Rattle.clock_values.specs.Steps.{IsStepInHours};
ghost use Rattle.verdict_meaning.specs.Premises.{start_of};
ghost use Rattle.box_truths.specs.Times.{AreTimesOf};

use clock_values::hours_of_step;
use exact_fraction::frac::Frac;
use exact_fraction::moment::Moment;
use rule_types::Rules;

/// When a simulation begins, and its routing step.
#[derive(Clone, Copy, Debug)]
pub struct Times {
    pub start: Moment,
    /// The step in seconds.
    pub step: Frac,
    /// The step in hours.
    pub hours: Frac,
}

/// The start and the routing step of rules; the start is 1970-01-01 where they have none. It takes
/// no memory.
#[tactic(auto, using(crate::proofs::StepLaws::step_laws))]
pub fn times_of(rules: &Rules) -> Times
    requires formed { WellFormed rules.now }
    ensures are { AreTimesOf rules.now result }
{
    Times {
        start: start_of(rules),
        step: rules.routing_step,
        hours: hours_of_step(&rules.routing_step),
    }
}

/// The start of rules.
fn start_of(rules: &Rules) -> Moment
    ensures value { result ≡ start_of rules.now }
{
    match rules.start {
        Some(start) => start,
        None => first_of_1970(),
    }
}

/// The moment from which seconds are counted.
#[tactic(auto, unfolding(exact_fraction::specs::Moments::moment_at))]
fn first_of_1970() -> Moment
    ensures value { result ≡ pos 0 }
{
    let Some(moment) = Moment::make(0) else {
        unreachable!();
    };
    moment
}
