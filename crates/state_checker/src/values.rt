//! The values of keys at a state.
ghost use Rattle.std.specs.Prelude.{◌≡◌, Some, None, IfSome, slice_get, position};
ghost use Rattle.std.specs.Prelude.{IsTrue, option_and_then};
ghost use Rattle.std.specs.Str.{bytes_eq};
ghost use Rattle.rule_types.specs.Fitting.{FitsRules};
ghost use Rattle.rule_types.specs.KeyOrder.{key_place};
ghost use Rattle.rule_types.specs.Keys.{is_input, is_link_state as reads_link};
ghost use Rattle.rule_types.specs.WellFormed.{WellFormed};
ghost use Rattle.rule_types.specs.declared.key.Attr.TheVariants.{TimeClosed, TimeOpen};
ghost use Rattle.rule_types.specs.declared.key.Key.TheVariants.{Object};
ghost use Rattle.rule_meaning.specs.State.{input_value, link_state, link_value, status_of};
ghost use Rattle.rule_meaning.specs.State.{value};

use crate::links::link_state;
use clock_values::clock_value;
use exact_fraction::frac::Frac;
use exact_fraction::relation::Relation;
use rule_types::{Attr, Key, LinkState, ObjectNo, Rules, State};

/// The value of a key at a state, or None where it is missing.
#[tactic(auto, unfolding(rule_meaning::specs::State::value))]
pub(crate) fn key_value(rules: &Rules, state: &State, key: &Key) -> Option<Frac>
    requires formed { WellFormed rules.now }
    requires fits { FitsRules rules.now state.now }
    ensures value { result ≡ value rules.now state.now key.now }
{
    match key {
        Key::Object(object, attribute) => object_value(rules, state, key, object, attribute),
        Key::Clock(attribute) => Some(clock_value(*attribute, state.start, state.moment)),
    }
}

/// The value of the key of an object.
fn object_value(
    rules: &Rules,
    state: &State,
    key: &Key,
    object: &ObjectNo,
    attribute: &Attr,
) -> Option<Frac>
    requires formed { WellFormed rules.now }
    requires fits { FitsRules rules.now state.now }
    requires is { key.now ≡ Object object.now attribute.now }
    ensures value { result ≡ value rules.now state.now (Object object.now attribute.now) }
{
    if is_link_state(attribute) {
        return link_key_value(rules, state, object, attribute);
    }
    input_key_value(rules, state, key)
}

/// The value of the key of a link that is read off its setting and its timer.
fn link_key_value(rules: &Rules, state: &State, object: &ObjectNo, attribute: &Attr) -> Option<Frac>
    requires formed { WellFormed rules.now }
    requires fits { FitsRules rules.now state.now }
    requires reads { IsTrue (reads_link attribute.now) }
    ensures value { result ≡ value rules.now state.now (Object object.now attribute.now) }
{
    link_attribute(rules, state, object, attribute)
}

/// The value of a key of the trace.
fn input_key_value(rules: &Rules, state: &State, key: &Key) -> Option<Frac>
    requires formed { WellFormed rules.now }
    requires fits { FitsRules rules.now state.now }
    requires input { IsTrue (is_input key.now) }
    ensures value { result ≡ value rules.now state.now key.now }
{
    input_value(rules, state, key)
}

/// Whether an attribute is read off a link's setting and timer.
fn is_link_state(attribute: &Attr) -> bool
    ensures value { result ≡ reads_link attribute.now }
{
    match attribute {
        Attr::Setting | Attr::Status | Attr::TimeOpen | Attr::TimeClosed => true,
        _ => false,
    }
}

/// An attribute of the link of an object that is read off its setting and its timer.
fn link_attribute(rules: &Rules, state: &State, object: &ObjectNo, attribute: &Attr) -> Option<Frac>
    requires formed { WellFormed rules.now }
    requires fits { FitsRules rules.now state.now }
    ensures value { result ≡ option_and_then (link_value attribute.now)
        (link_state rules.now state.now object.now.index) }
{
    let link = link_state(rules, state, object.index)?;
    link_value(attribute, &link)
}

/// The number of an input key, or None where it is missing.
fn input_value(rules: &Rules, state: &State, key: &Key) -> Option<Frac>
    requires formed { WellFormed rules.now }
    requires fits { FitsRules rules.now state.now }
    ensures value { result ≡ input_value rules.now state.now key.now }
{
    match key_at(rules.input_keys.as_slice(), key) {
        Some(at) => state.inputs.as_slice()[at],
        None => None,
    }
}

/// The place of a key among keys. It takes time by the logarithm of their number where they stand in
/// key order and the key is there.
fn key_at(keys: &[Key], key: &Key) -> Option<usize>
    ensures found { IfSome result (λ at. slice_get keys.now at ≡ Some key.now) }
    ensures absent { result ≡ None
        → position (λ other. bytes_eq (key_place key.now) (key_place other)) keys.now ≡ None }
{
    if let Ok(at) = keys.binary_search(key) {
        if keys[at].is_same(key) {
            return Some(at);
        }
    }
    first_key(keys, key)
}

/// The first place of a key among keys, found one by one.
fn first_key(keys: &[Key], key: &Key) -> Option<usize>
    ensures value { result
        ≡ position (λ other. bytes_eq (key_place key.now) (key_place other)) keys.now }
{
    keys.iter().position(|other| *key == *other)
}

/// An attribute of a link that is read off its setting and its timer.
#[tactic(auto, unfolding(rule_meaning::specs::State::link_value))]
fn link_value(attribute: &Attr, link: &LinkState) -> Option<Frac>
    ensures value { result ≡ link_value attribute.now link.now }
{
    match attribute {
        Attr::Setting => Some(link.setting),
        Attr::Status => Some(status_of(&link.setting)),
        Attr::TimeOpen => open_timer(link),
        Attr::TimeClosed => closed_timer(link),
        _ => None,
    }
}

/// The timer of a link whose setting is above 0.
#[tactic(auto, unfolding(rule_meaning::specs::State::link_value))]
fn open_timer(link: &LinkState) -> Option<Frac>
    ensures value { result ≡ link_value TimeOpen link.now }
{
    if Frac::zero().is_less(&link.setting) {
        return Some(link.timer);
    }
    None
}

/// The timer of a link whose setting is 0.
#[tactic(auto, unfolding(rule_meaning::specs::State::link_value))]
fn closed_timer(link: &LinkState) -> Option<Frac>
    ensures value { result ≡ link_value TimeClosed link.now }
{
    if Relation::Eq.holds(&link.setting, &Frac::zero()) {
        return Some(link.timer);
    }
    None
}

/// 1 where a setting is above 0, else 0.
#[tactic(auto, unfolding(rule_meaning::specs::State::status_of))]
fn status_of(setting: &Frac) -> Frac
    ensures value { result ≡ status_of setting.now }
{
    if Frac::zero().is_less(setting) {
        return Frac::one();
    }
    Frac::zero()
}
