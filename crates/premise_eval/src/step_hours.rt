//! Steps in hours.
ghost use Rattle.std.specs.Prelude.{◌≡◌, IsTrue};
ghost use Rattle.rule_types.specs.Fitting.{IsStep};
ghost use Rattle.rule_meaning.specs.Condition.{hours_of_step as in_hours};
ghost use Rattle.clock_values.specs.Steps.{IsStepInHours};

use clock_values::hours_of_step;
use exact_fraction::frac::Frac;

/// The seconds of a step in hours, kept for the next states, of which most have the same step.
#[derive(Debug, Drop)]
pub(crate) struct StepHours {
    seconds: Frac,
    hours: Frac,
    ghost is_hours: { hours ≡ in_hours seconds },
}

impl StepHours {
    /// The hours of a step.
    pub(crate) fn of_step(seconds: &Frac) -> StepHours
        requires step { IsStep seconds.now }
        ensures seconds { result.seconds ≡ seconds.now }
    {
        StepHours {
            seconds: *seconds,
            hours: hours_of_step(seconds),
        }
    }

    /// The seconds of a step in hours, with no division where the step before was the same.
    #[tactic(auto, using(crate::proofs::StepFacts::step_facts))]
    pub(crate) fn hours_of(&mut self, seconds: &Frac) -> Frac
        requires step { IsStep seconds.now }
        ensures value { result ≡ in_hours seconds.now }
        ensures step { IsStepInHours result }
    {
        if !is_same(seconds, &self.seconds) {
            *self = StepHours::of_step(seconds);
        }
        self.hours
    }
}

/// Whether two are the same number.
#[tactic(auto, using(crate::proofs::StepFacts::step_facts))]
fn is_same(one: &Frac, other: &Frac) -> bool
    ensures same { IsTrue result → one.now ≡ other.now }
{
    one == other
}
