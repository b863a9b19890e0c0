//! The states, the rates and the kinds of links.
ghost use Rattle.std.specs.Prelude.{◌≡◌};
ghost use Rattle.rule_types.specs.Fitting.{FitsRules};
ghost use Rattle.rule_types.specs.WellFormed.{WellFormed};
ghost use Rattle.rule_meaning.specs.State.{link_state};
ghost use Rattle.rule_meaning.specs.Worth.{is_pump, old_target, rate_of};

use exact_fraction::frac::Frac;
use premise_eval::link_at;
use rule_types::{LinkState, Rules, State};

/// The state of a tracked link.
pub(crate) fn link_state(rules: &Rules, state: &State, link: u32) -> Option<LinkState>
    requires formed { WellFormed rules.now }
    requires fits { FitsRules rules.now state.now }
    ensures value { result ≡ link_state rules.now state.now link }
{
    match link_at(rules.tracked.as_slice(), link) {
        Some(at) => Some(state.links.as_slice()[at]),
        None => None,
    }
}

/// The old target of a link.
#[tactic(auto, unfolding(rule_meaning::specs::Worth::old_target))]
pub(crate) fn old_target(rules: &Rules, state: &State, link: u32) -> Frac
    requires formed { WellFormed rules.now }
    requires fits { FitsRules rules.now state.now }
    ensures value { result ≡ old_target rules.now state.now link }
{
    match link_state(rules, state, link) {
        Some(found) => found.target,
        None => Frac::zero(),
    }
}

/// The hours that a link takes to open or close fully (SWMM 5.2 manual, [ORIFICES]).
pub(crate) fn rate_of(rules: &Rules, link: u32) -> Frac
    requires formed { WellFormed rules.now }
    ensures value { result ≡ rate_of rules.now link }
{
    match link_at(rules.tracked.as_slice(), link) {
        Some(at) => rules.rates.as_slice()[at],
        None => Frac::zero(),
    }
}

/// Whether a link is a pump.
pub(crate) fn is_pump(rules: &Rules, link: u32) -> bool
    requires formed { WellFormed rules.now }
    ensures value { result ≡ is_pump rules.now link }
{
    match link_at(rules.controlled.as_slice(), link) {
        Some(at) => rules.pumps.as_slice()[at],
        None => false,
    }
}
