//! Relations of times.
ghost use Rattle.std.specs.Prelude.{◌≡◌, IsTrue};
ghost use Rattle.rule_types.specs.WellFormed.{IsTimeValue};
ghost use Rattle.rule_meaning.specs.Condition.{half_of, is_within, time_relates, meets};
ghost use Rattle.clock_values.specs.Steps.{IsStepInHours};

use crate::steps::step_ends;
use exact_fraction::frac::Frac;
use exact_fraction::relation::Relation;
use rule_types::Condition;

/// Whether a time stands in a relation to a time value, at a step in hours: `=` from half a step
/// before the value to just before half a step after it, `<>` elsewhere, and the other relations
/// exactly (SWMM 5.2 manual, [CONTROLS], times). It takes no memory.
#[tactic(auto, unfolding(rule_meaning::specs::Condition::time_relates))]
pub fn time_relation(relation: &Relation, time: &Frac, other: &Frac, step: &Frac) -> bool
    requires value { IsTimeValue other.now }
    requires step { IsStepInHours step.now }
    ensures value { result ≡ time_relates relation.now time.now other.now step.now }
{
    match relation {
        Relation::Eq => is_within(time, other, step),
        Relation::Ne => !is_within(time, other, step),
        Relation::Lt | Relation::Le | Relation::Gt | Relation::Ge => relation.holds(time, other),
    }
}

/// Whether a time lies within half a step of another.
#[tactic(auto, unfolding(rule_meaning::specs::Condition::is_within))]
fn is_within(time: &Frac, other: &Frac, step: &Frac) -> bool
    requires value { IsTimeValue other.now }
    requires step { IsStepInHours step.now }
    ensures value { result ≡ is_within time.now other.now (half_of step.now) }
{
    let ends = step_ends(other, step);
    !time.is_less(&ends.low) && time.is_less(&ends.high)
}

/// Whether two numbers meet a condition at a step in hours: within half a step where the condition
/// is one of a time value and an equality, and else exactly. It takes no memory.
#[tactic(auto, unfolding(rule_meaning::specs::Condition::meets))]
pub fn meets(condition: &Condition, step: &Frac, left: &Frac, right: &Frac) -> bool
    requires value { IsTrue condition.now.half_step → IsTimeValue right.now }
    requires step { IsStepInHours step.now }
    ensures value { result ≡ meets condition.now step.now left.now right.now }
{
    if condition.half_step {
        time_relation(&condition.rel, left, right, step)
    } else {
        condition.rel.holds(left, right)
    }
}
