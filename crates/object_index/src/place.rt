//! Ordered maps of texts to the places of names.
ghost use Rattle.std.specs.Prelude.{◌≡◌, List, ℕ, OnOk, OnErr, if◌then◌else◌};
ghost use Rattle.std.specs.Str.{bytes_eq};
ghost use Rattle.rule_types.specs.Finding.{Nothing};
ghost use Rattle.object_index.specs.Names.{found_by};
ghost use Rattle.object_index.specs.internal.Indexed.{place_found, found_in, with_one};

use crate::found::Found;
use byte_edge::NoMemory;
use std::collections::BTreeMap;

/// The places of the names that a text stands for.
#[derive(Clone, Copy)]
pub(crate) enum Place {
    /// One name, of this number.
    One(u32),
    /// Several names.
    Several,
}

/// What a text finds in a map.
pub(crate) fn place_of(map: &BTreeMap<Vec<u8>, Place>, text: &[u8]) -> Found
    ensures { found_by result ≡ found_in map.now text.now }
{
    match map.get(text) {
        None => Found::Nothing,
        Some(place) => match *place {
            Place::One(number) => Found::At(number),
            Place::Several => Found::Several,
        },
    }
}

/// Adds the number of one more name that a text stands for.
pub(crate) fn add_place(
    map: &mut BTreeMap<Vec<u8>, Place>,
    text: Vec<u8>,
    number: u32,
) -> Result<(), NoMemory>
    ensures added { OnOk result ((other : List ℕ) → found_in map.new other
        ≡ (if bytes_eq other text.items then with_one number (found_in map.old text.items)
        else found_in map.old other)) }
    ensures unchanged { OnErr result (map.new.entries ≡ map.old.entries) }
{
    let place = place_after(map, text.as_slice(), number);
    let Ok(_) = map.insert(text, place) else {
        return Err(NoMemory);
    };
    Ok(())
}

/// The places of a text once the name of this number stands for it too.
fn place_after(map: &BTreeMap<Vec<u8>, Place>, text: &[u8], number: u32) -> Place
    ensures { place_found result ≡ with_one number (found_in map.now text.now) }
{
    match map.get(text) {
        None => Place::One(number),
        Some(_) => Place::Several,
    }
}

/// Takes a text out of a map.
pub(crate) fn remove_place(map: &mut BTreeMap<Vec<u8>, Place>, text: &[u8])
    ensures { (other : List ℕ) → found_in map.new other
        ≡ (if bytes_eq other text.now then Nothing else found_in map.old other) }
{
    map.remove(text);
}
