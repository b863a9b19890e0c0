//! Places of values in a state.
ghost use Rattle.std.specs.Prelude.{◌≡◌, slice_get, option_and_then};
ghost use Rattle.rule_meaning.specs.State.{link_value, status_of};
ghost use Rattle.premise_eval.specs.Places.{place_value};

use clock_values::clock_value;
use exact_fraction::frac::Frac;
use exact_fraction::relation::Relation;
use rule_types::{Attr, ClockAttr, LinkState, State};

/// Where the value of a key stands in a state.
#[derive(Clone, Copy, Debug)]
pub enum Place {
    /// The input of this place among the input keys.
    Input(usize),
    /// An attribute of the link of this place among the tracked links.
    Link(usize, Attr),
    Clock(ClockAttr),
    /// Nowhere: it is always missing.
    Nowhere,
}

/// The value at a place of a state, or None where it is missing.
#[tactic(auto, unfolding(crate::specs::Places::place_value))]
pub(crate) fn value_at(state: &State, place: &Place) -> Option<Frac>
    ensures value { result ≡ place_value state.now place.now }
{
    match place {
        Place::Input(at) => input_at(state, *at),
        Place::Link(at, attribute) => link_at(state, *at, attribute),
        Place::Clock(attribute) => Some(clock_value(*attribute, state.start, state.moment)),
        Place::Nowhere => None,
    }
}

/// The input of a place.
fn input_at(state: &State, at: usize) -> Option<Frac>
    ensures value { result ≡ option_and_then (λ given. given) (slice_get state.now.inputs at) }
{
    let given = state.inputs.get(at)?;
    *given
}

/// An attribute of the tracked link of a place.
fn link_at(state: &State, at: usize, attribute: &Attr) -> Option<Frac>
    ensures value { result
        ≡ option_and_then (link_value attribute.now) (slice_get state.now.links at) }
{
    let link = state.links.get(at)?;
    link_value(attribute, link)
}

/// An attribute of a link that is read off its setting and its timer.
#[tactic(auto, unfolding(rule_meaning::specs::State::link_value))]
fn link_value(attribute: &Attr, link: &LinkState) -> Option<Frac>
    ensures value { result ≡ link_value attribute.now link.now }
{
    match attribute {
        Attr::Setting => Some(link.setting),
        Attr::Status => Some(status_of(&link.setting)),
        Attr::TimeOpen => open_timer(link),
        Attr::TimeClosed => closed_timer(link),
        _ => None,
    }
}

/// The timer of a link whose setting is above 0.
#[tactic(auto, unfolding(rule_meaning::specs::State::link_value))]
fn open_timer(link: &LinkState) -> Option<Frac>
    ensures value { result ≡ link_value Attr.TimeOpen link.now }
{
    if Frac::zero().is_less(&link.setting) {
        return Some(link.timer);
    }
    None
}

/// The timer of a link whose setting is 0.
#[tactic(auto, unfolding(rule_meaning::specs::State::link_value))]
fn closed_timer(link: &LinkState) -> Option<Frac>
    ensures value { result ≡ link_value Attr.TimeClosed link.now }
{
    if Relation::Eq.holds(&link.setting, &Frac::zero()) {
        return Some(link.timer);
    }
    None
}

/// 1 where a setting is above 0, else 0.
#[tactic(auto, unfolding(rule_meaning::specs::State::status_of))]
fn status_of(setting: &Frac) -> Frac
    ensures value { result ≡ status_of setting.now }
{
    if Frac::zero().is_less(setting) {
        return Frac::one();
    }
    Frac::zero()
}
