//! The places of keys.
ghost use Rattle.std.specs.Prelude.{◌≡◌, ◌==◌, IsTrue, Some, None, IfSome, slice_get, position};
ghost use Rattle.std.specs.Str.{bytes_eq};
ghost use Rattle.rule_types.specs.KeyOrder.{key_place};
ghost use Rattle.rule_types.specs.Keys.{is_input, is_link_state as reads_link};
ghost use Rattle.rule_types.specs.WellFormed.{InOrder};
ghost use Rattle.rule_types.specs.declared.key.Key.TheVariants.{Object};
ghost use Rattle.rule_types.specs.declared.object.ObjectNo.{ObjectNo as AnyObject};
ghost use Rattle.premise_eval.specs.Places.{IsPlaceOf};

use crate::place::Place;
use rule_types::{Attr, Key, ObjectNo, Rules};

/// The place of a key's value in the states of some rules. It takes time by the logarithm of the
/// number of input keys or tracked links, and by that number where the key is not there.
pub(crate) fn place_of(rules: &Rules, key: &Key) -> Place
    requires in_order { InOrder rules.now }
    ensures place { IsPlaceOf rules.now key.now result }
{
    match key {
        Key::Object(object, attribute) => object_place(rules, key, object, attribute),
        Key::Clock(attribute) => Place::Clock(*attribute),
    }
}

/// The place of the key of an object.
fn object_place(rules: &Rules, key: &Key, object: &ObjectNo, attribute: &Attr) -> Place
    requires in_order { InOrder rules.now }
    requires is { key.now ≡ Object object.now attribute.now }
    ensures place { IsPlaceOf rules.now key.now result }
{
    if is_link_state(attribute) {
        link_place(rules, object, attribute)
    } else {
        input_place(rules, key)
    }
}

/// Whether an attribute is read off a link's setting and timer.
fn is_link_state(attribute: &Attr) -> bool
    ensures value { result ≡ reads_link attribute.now }
{
    match attribute {
        Attr::Setting | Attr::Status | Attr::TimeOpen | Attr::TimeClosed => true,
        _ => false,
    }
}

/// The place of a link's setting, status or timer.
fn link_place(rules: &Rules, object: &ObjectNo, attribute: &Attr) -> Place
    requires in_order { InOrder rules.now }
    requires link_state { IsTrue (reads_link attribute.now) }
    ensures place { IsPlaceOf rules.now (Object object.now attribute.now) result }
{
    match link_at(rules.tracked.as_slice(), object.index) {
        Some(at) => Place::Link(at, *attribute),
        None => Place::Nowhere,
    }
}

/// The place of an input.
fn input_place(rules: &Rules, key: &Key) -> Place
    requires in_order { InOrder rules.now }
    requires input { IsTrue (is_input key.now) }
    ensures place { IsPlaceOf rules.now key.now result }
{
    match key_at(rules.input_keys.as_slice(), key) {
        Some(at) => Place::Input(at),
        None => Place::Nowhere,
    }
}

/// The place of a link among links, or None where it is not there. It takes time by the logarithm
/// of their number where they rise and the link is there, and else by that number.
pub fn link_at(links: &[u32], link: u32) -> Option<usize>
    ensures found { IfSome result (λ at. slice_get links.now at ≡ Some link) }
    ensures absent { result ≡ None → position (λ other. link == other) links.now ≡ None }
{
    if let Ok(at) = links.binary_search(&link) {
        if links[at] == link {
            return Some(at);
        }
    }
    first_link(links, link)
}

/// The first place of a link among links, found one by one.
fn first_link(links: &[u32], link: u32) -> Option<usize>
    ensures value { result ≡ position (λ other. link == other) links.now }
{
    links.iter().position(|other| link == *other)
}

/// The place of a key among keys.
fn key_at(keys: &[Key], key: &Key) -> Option<usize>
    ensures found { IfSome result (λ at. slice_get keys.now at ≡ Some key.now) }
    ensures absent { result ≡ None
        → position (λ other. bytes_eq (key_place key.now) (key_place other)) keys.now ≡ None }
{
    if let Ok(at) = keys.binary_search(key) {
        if keys[at].is_same(key) {
            return Some(at);
        }
    }
    first_key(keys, key)
}

/// The first place of a key among keys, found one by one.
fn first_key(keys: &[Key], key: &Key) -> Option<usize>
    ensures value { result
        ≡ position (λ other. bytes_eq (key_place key.now) (key_place other)) keys.now }
{
    keys.iter().position(|other| *key == *other)
}
