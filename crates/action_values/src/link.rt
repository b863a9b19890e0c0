//! What an action is told of its link.
ghost use Rattle.std.specs.Prelude.{◌≡◌, ℕ, ◌<◌, Some, length, slice_get};
ghost use Rattle.rule_types.specs.Fitting.{FitsRules};
ghost use Rattle.rule_types.specs.WellFormed.{WellFormed};
ghost use Rattle.rule_meaning.specs.Worth.{old_target, rate_of, is_pump};
ghost use Rattle.action_values.specs.Links.{IsLink};

use exact_fraction::frac::Frac;
use premise_eval::link_at;
use rule_types::{Rules, State};

/// What an action is told of its link: the old target, the rate, and whether it is a pump.
#[derive(Clone, Copy, Debug)]
pub struct LinkFacts {
    pub target: Frac,
    pub rate: Frac,
    pub pump: bool,
}

/// The facts of a link, found by its number.
pub(crate) fn facts_of(rules: &Rules, state: &State, link: u32) -> LinkFacts
    requires formed { WellFormed rules.now }
    requires fits { FitsRules rules.now state.now }
    ensures is { IsLink rules.now state.now link result }
{
    LinkFacts {
        target: old_target(rules, state, link),
        rate: rate_of(rules, link),
        pump: is_pump(rules, link),
    }
}

/// The facts of a controlled link at its places among the controlled and the tracked links.
pub(crate) fn facts_at(rules: &Rules, state: &State, at: usize, place: usize) -> LinkFacts
    requires formed { WellFormed rules.now }
    requires fits { FitsRules rules.now state.now }
    requires within { at < length rules.now.controlled }
    requires placed { slice_get rules.now.tracked place ≡ slice_get rules.now.controlled at }
    ensures is { (link : ℕ) → slice_get rules.now.controlled at ≡ Some link
        → IsLink rules.now state.now link result }
{
    LinkFacts {
        target: state.links.as_slice()[place].target,
        rate: rules.rates.as_slice()[place],
        pump: rules.pumps.as_slice()[at],
    }
}

/// The old target of a link.
fn old_target(rules: &Rules, state: &State, link: u32) -> Frac
    requires formed { WellFormed rules.now }
    requires fits { FitsRules rules.now state.now }
    ensures value { result ≡ old_target rules.now state.now link }
{
    match link_at(rules.tracked.as_slice(), link) {
        Some(at) => state.links.as_slice()[at].target,
        None => Frac::zero(),
    }
}

/// The rate of a link.
fn rate_of(rules: &Rules, link: u32) -> Frac
    requires formed { WellFormed rules.now }
    ensures value { result ≡ rate_of rules.now link }
{
    match link_at(rules.tracked.as_slice(), link) {
        Some(at) => rules.rates.as_slice()[at],
        None => Frac::zero(),
    }
}

/// Whether a link is a pump.
fn is_pump(rules: &Rules, link: u32) -> bool
    requires formed { WellFormed rules.now }
    ensures value { result ≡ is_pump rules.now link }
{
    match link_at(rules.controlled.as_slice(), link) {
        Some(at) => rules.pumps.as_slice()[at],
        None => false,
    }
}
