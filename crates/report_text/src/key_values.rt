//! The values of keys at a state.
ghost use Rattle.std.specs.Prelude.{◌≡◌, ◌==◌, true, Some, IfSome, option_and_then, slice_get};
ghost use Rattle.std.specs.Str.{bytes_eq};
ghost use Rattle.rule_meaning.specs.State.{beside, input_value, link_state as state_of_link};
ghost use Rattle.rule_meaning.specs.State.{link_value as value_of_link, value};
ghost use Rattle.rule_meaning.specs.State.{status_of as status_at};
ghost use Rattle.rule_types.specs.KeyOrder.{key_place};
ghost use Rattle.rule_types.specs.declared.key.Attr.TheVariants.{TimeClosed, TimeOpen};
ghost use Rattle.report_text.specs.internal.Halving.{IsOrdered};

use clock_values::clock_value;
use exact_fraction::frac::Frac;
use exact_fraction::relation::Relation;
use rule_types::{Attr, Key, LinkState, Rules, State};

/// The value of a key at a state, or None where it is missing. It takes time by the logarithm of
/// the number of input keys or of tracked links where they are known to be ordered and the key is
/// one of them, and else by that number.
#[tactic(auto, unfolding(rule_meaning::specs::State::value))]
pub(crate) fn key_value(rules: &Rules, state: &State, ordered: bool, key: &Key) -> Option<Frac>
    requires ordered { ordered ≡ true → IsOrdered rules.now state.now }
    ensures { result ≡ value rules.now state.now key.now }
{
    match key {
        Key::Object(object, Attr::Setting) => {
            link_attribute(rules, state, ordered, object.index, &Attr::Setting)
        }
        Key::Object(object, Attr::Status) => {
            link_attribute(rules, state, ordered, object.index, &Attr::Status)
        }
        Key::Object(object, Attr::TimeOpen) => {
            link_attribute(rules, state, ordered, object.index, &Attr::TimeOpen)
        }
        Key::Object(object, Attr::TimeClosed) => {
            link_attribute(rules, state, ordered, object.index, &Attr::TimeClosed)
        }
        Key::Object(_, _) => input_value(rules, state, ordered, key),
        Key::Clock(attribute) => Some(clock_value(*attribute, state.start, state.moment)),
    }
}

/// The number of an input key, or None where it is missing.
fn input_value(rules: &Rules, state: &State, ordered: bool, key: &Key) -> Option<Frac>
    requires ordered { ordered ≡ true → IsOrdered rules.now state.now }
    ensures { result ≡ input_value rules.now state.now key.now }
{
    if ordered {
        if let Some(at) = key_at(rules.input_keys.as_slice(), key) {
            return input_at(state, at);
        }
    }
    first_input(rules, state, key)
}

/// The place of a key among keys, found by halving.
fn key_at(keys: &[Key], key: &Key) -> Option<usize>
    ensures { IfSome result (λ at. slice_get keys.now at ≡ Some key.now) }
{
    let Ok(at) = keys.binary_search(key) else {
        return None;
    };
    if keys[at].is_same(key) {
        return Some(at);
    }
    None
}

/// The number of the input at a place, or None where it is missing.
fn input_at(state: &State, at: usize) -> Option<Frac>
    ensures { result ≡ option_and_then (λ given. given) (slice_get state.now.inputs at) }
{
    match state.inputs.as_slice().get(at) {
        Some(number) => *number,
        None => None,
    }
}

/// The number of an input key, found one by one.
#[tactic(auto, unfolding(rule_meaning::specs::State::input_value))]
fn first_input(rules: &Rules, state: &State, key: &Key) -> Option<Frac>
    ensures { result ≡ input_value rules.now state.now key.now }
{
    match input_beside(rules.input_keys.as_slice(), state.inputs.as_slice(), key) {
        Some(number) => number,
        None => None,
    }
}

/// The number that stands beside a key.
#[tactic(auto, unfolding(rule_meaning::specs::State::beside))]
fn input_beside(keys: &[Key], numbers: &[Option<Frac>], key: &Key) -> Option<Option<Frac>>
    ensures { result ≡ beside (λ other. bytes_eq (key_place key.now) (key_place other)) keys.now
        numbers.now }
{
    let mut keys_left = keys;
    let mut numbers_left = numbers;
    'keys: while let Some((first, more)) = keys_left.split_first() {
        let Some((number, rest)) = numbers_left.split_first() else {
            return None;
        };
        if *key == *first {
            return Some(*number);
        }
        keys_left = more;
        numbers_left = rest;
    }
    None
}

/// An attribute of a tracked link that is read off its setting and its timer.
fn link_attribute(
    rules: &Rules,
    state: &State,
    ordered: bool,
    link: u32,
    attribute: &Attr,
) -> Option<Frac>
    requires ordered { ordered ≡ true → IsOrdered rules.now state.now }
    ensures { result ≡ option_and_then (value_of_link attribute.now)
        (state_of_link rules.now state.now link) }
{
    let found = link_state(rules, state, ordered, link)?;
    link_value(attribute, &found)
}

/// The state of a tracked link.
fn link_state(rules: &Rules, state: &State, ordered: bool, link: u32) -> Option<LinkState>
    requires ordered { ordered ≡ true → IsOrdered rules.now state.now }
    ensures { result ≡ state_of_link rules.now state.now link }
{
    if ordered {
        if let Some(at) = link_at(rules.tracked.as_slice(), link) {
            return state_at(state, at);
        }
    }
    first_state(rules, state, link)
}

/// The place of a link among links, found by halving.
fn link_at(links: &[u32], link: u32) -> Option<usize>
    ensures { IfSome result (λ at. slice_get links.now at ≡ Some link) }
{
    let Ok(at) = links.binary_search(&link) else {
        return None;
    };
    if links[at] == link {
        return Some(at);
    }
    None
}

/// The state of the tracked link at a place.
fn state_at(state: &State, at: usize) -> Option<LinkState>
    ensures { result ≡ slice_get state.now.links at }
{
    match state.links.as_slice().get(at) {
        Some(link) => Some(*link),
        None => None,
    }
}

/// The state of a tracked link, found one by one.
#[tactic(auto, unfolding(rule_meaning::specs::State::link_state))]
fn first_state(rules: &Rules, state: &State, link: u32) -> Option<LinkState>
    ensures { result ≡ state_of_link rules.now state.now link }
{
    link_beside(rules.tracked.as_slice(), state.links.as_slice(), link)
}

/// The state that stands beside a link.
#[tactic(auto, unfolding(rule_meaning::specs::State::beside))]
fn link_beside(links: &[u32], states: &[LinkState], link: u32) -> Option<LinkState>
    ensures { result ≡ beside (λ other. link == other) links.now states.now }
{
    let mut links_left = links;
    let mut states_left = states;
    'links: while let Some((first, more)) = links_left.split_first() {
        let Some((state, rest)) = states_left.split_first() else {
            return None;
        };
        if link == *first {
            return Some(*state);
        }
        links_left = more;
        states_left = rest;
    }
    None
}

/// An attribute of a link that is read off its setting and its timer.
#[tactic(auto, unfolding(rule_meaning::specs::State::link_value))]
fn link_value(attribute: &Attr, link: &LinkState) -> Option<Frac>
    ensures { result ≡ value_of_link attribute.now link.now }
{
    match attribute {
        Attr::Setting => Some(link.setting),
        Attr::Status => Some(status_of(&link.setting)),
        Attr::TimeOpen => open_timer(link),
        Attr::TimeClosed => closed_timer(link),
        _ => None,
    }
}

/// The timer of a link whose setting is above 0.
#[tactic(auto, unfolding(rule_meaning::specs::State::link_value))]
fn open_timer(link: &LinkState) -> Option<Frac>
    ensures { result ≡ value_of_link TimeOpen link.now }
{
    if Frac::zero().is_less(&link.setting) {
        return Some(link.timer);
    }
    None
}

/// The timer of a link whose setting is 0.
#[tactic(auto, unfolding(rule_meaning::specs::State::link_value))]
fn closed_timer(link: &LinkState) -> Option<Frac>
    ensures { result ≡ value_of_link TimeClosed link.now }
{
    if Relation::Eq.holds(&link.setting, &Frac::zero()) {
        return Some(link.timer);
    }
    None
}

/// 1 where a setting is above 0, else 0.
#[tactic(auto, unfolding(rule_meaning::specs::State::status_of))]
fn status_of(setting: &Frac) -> Frac
    ensures { result ≡ status_at setting.now }
{
    if Frac::zero().is_less(setting) {
        return Frac::one();
    }
    Frac::zero()
}
