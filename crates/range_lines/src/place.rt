//! Ordered maps of texts to the places of rules.
ghost use Rattle.std.specs.Prelude.{◌≡◌, List, ℕ, OnOk, if◌then◌else◌};
ghost use Rattle.std.specs.Str.{bytes_eq};
ghost use Rattle.range_lines.specs.internal.Ids.{place_is, entry_found, found_in, with_one};

use byte_edge::NoMemory;
use std::collections::BTreeMap;

/// The places of the rules that have a text as their id.
#[derive(Clone, Copy)]
pub(crate) enum Place {
    /// One rule, of this number.
    One(u32),
    /// Several rules.
    Several,
}

/// What a text finds in a map.
pub(crate) fn place_of(map: &BTreeMap<Vec<u8>, Place>, text: &[u8]) -> Option<Place>
    ensures { entry_found result ≡ found_in map.now text.now }
{
    match map.get(text) {
        None => None,
        Some(place) => Some(*place),
    }
}

/// Adds the number of one more rule that has a text as its id.
pub(crate) fn add_place(
    map: &mut BTreeMap<Vec<u8>, Place>,
    text: Vec<u8>,
    number: u32,
) -> Result<(), NoMemory>
    ensures { OnOk result ((other : List ℕ) → found_in map.new other
        ≡ (if bytes_eq other text.items then with_one number (found_in map.old text.items)
        else found_in map.old other)) }
{
    let place = place_after(map, text.as_slice(), number);
    let Ok(_) = map.insert(text, place) else {
        return Err(NoMemory);
    };
    Ok(())
}

/// The place of a text once the rule of this number has it too.
fn place_after(map: &BTreeMap<Vec<u8>, Place>, text: &[u8], number: u32) -> Place
    ensures { place_is result ≡ with_one number (found_in map.now text.now) }
{
    match map.get(text) {
        None => Place::One(number),
        Some(_) => Place::Several,
    }
}
