//! The controller and the set point of an action.
ghost use Rattle.std.specs.Prelude.{◌≡◌};
ghost use Rattle.rule_meaning.specs.Reading.{conditions_at};
ghost use Rattle.rule_meaning.specs.Worth.{controller_of, set_point_of};
ghost use Rattle.action_values.specs.Links.{IsSound};

use exact_fraction::frac::Frac;
use premise_eval::{Values, controller, set_point};
use rule_types::{ActionAt, Rules, State};

/// The controller of the action at a place.
pub(crate) fn controller_at(
    rules: &Rules,
    state: &State,
    values: &Values,
    at: &ActionAt,
) -> Option<Frac>
    requires sound { IsSound rules.now state.now values.now }
    ensures value { result
        ≡ controller_of rules.now state.now (conditions_at rules.now.rules at.now) }
{
    let _moment = state.moment;
    if (at.rule as usize) < rules.rules.len() {
        return controller(rules, values, at.rule);
    }
    None
}

/// The set point of the action at a place.
pub(crate) fn set_point_at(
    rules: &Rules,
    state: &State,
    values: &Values,
    at: &ActionAt,
) -> Option<Frac>
    requires sound { IsSound rules.now state.now values.now }
    ensures value { result
        ≡ set_point_of rules.now state.now (conditions_at rules.now.rules at.now) }
{
    let _moment = state.moment;
    if (at.rule as usize) < rules.rules.len() {
        return set_point(rules, values, at.rule);
    }
    None
}
