//! The ids of rules.
ghost use Rattle.std.specs.Prelude.{◌≡◌, [], ◌∷◌, ◌++◌, ◌<◌, ◌^◌, map, length, IfOk, OnOk};
ghost use Rattle.std.specs.Str.{str_to_ascii_lowercase};
ghost use Rattle.range_lines.specs.internal.Ids.{entry_found};
ghost use Rattle.rule_types.specs.Finding.{finds};
ghost use Rattle.range_lines.specs.Entries.{place_found};

use crate::place::{Place, add_place, place_of};
use byte_edge::NoMemory;
use list_types::Bytes;
use rule_types::Rule;
use std::alloc::Global;
use std::collections::BTreeMap;
use std::marker::Model;

/// The ids of rules in the order of the file; contracts see the list of them. Several rules may
/// have one id. A look-up takes time in proportion to the length of the id and to the logarithm of
/// the number of rules.
#[derive(Drop)]
pub(crate) struct RuleIds {
    ids: Vec<Bytes>,
    exact: BTreeMap<Vec<u8>, Place>,
    caseless: BTreeMap<Vec<u8>, Place>,
}

impl Model for RuleIds {
    ghost use Rattle.std.specs.Prelude.{List, ℕ};
    ghost use Rattle.range_lines.specs.internal.Ids.{IsIndexed};

    ghost Value = { List (List ℕ) };

    ghost view = { λ held. held.ids.items };

    ghost invariant = { λ held. IsIndexed held.ids.items held.exact held.caseless };
}

impl RuleIds {
    /// The ids of rules.
    pub(crate) fn of(alloc: Global, rules: &[Rule]) -> Result<RuleIds, NoMemory>
        requires few { length rules.now < 2 ^ 32 }
        ensures { IfOk result (λ held. held ≡ map (λ rule. rule.id) rules.now) }
    {
        let mut ids = Vec::new(alloc);
        let mut exact = BTreeMap::new(alloc);
        let mut caseless = BTreeMap::new(alloc);
        for (index, rule) in rules.iter().enumerate() {
            let id = rule.id.as_slice();
            push_id(&mut ids, id)?;
            add_place(&mut exact, copy_of(alloc, id)?, index as u32)?;
            add_place(&mut caseless, folded(alloc, id)?, index as u32)?;
        }
        Ok(RuleIds {
            ids,
            exact,
            caseless,
        })
    }

    /// The number of the rule that an id finds: the one with the same bytes, and failing that the
    /// only one that is equal when the case of ASCII letters is ignored. None where there is none,
    /// and where several have the same bytes.
    pub(crate) fn find(&self, alloc: Global, id: &[u8]) -> Result<Option<u32>, NoMemory>
        ensures { IfOk result (λ found. found ≡ place_found (finds self.now id.now)) }
    {
        match place_of(&self.exact, id) {
            Some(place) => Ok(number_at(Some(place))),
            None => {
                let text = folded(alloc, id)?;
                Ok(number_at(place_of(&self.caseless, text.as_slice())))
            }
        }
    }
}

/// The rule of a place, if there is one and one alone.
fn number_at(place: Option<Place>) -> Option<u32>
    ensures { result ≡ place_found (entry_found place) }
{
    match place {
        Some(Place::One(number)) => Some(number),
        _ => None,
    }
}

/// Adds a copy of an id to others.
fn push_id(ids: &mut Vec<Bytes>, id: &[u8]) -> Result<(), NoMemory>
    ensures { OnOk result (ids.new.items ≡ ids.old.items ++ id.now ∷ []) }
{
    let own = copy_of(*ids.allocator(), id)?;
    let Ok(()) = ids.push(Bytes::from_vec(own)) else {
        return Err(NoMemory);
    };
    Ok(())
}

/// A copy of a text.
fn copy_of(alloc: Global, text: &[u8]) -> Result<Vec<u8>, NoMemory>
    ensures { IfOk result (λ copy. copy.items ≡ text.now) }
{
    match Vec::from_slice(alloc, text) {
        Ok(copy) => Ok(copy),
        Err(_) => Err(NoMemory),
    }
}

/// A text in lower case.
fn folded(alloc: Global, text: &[u8]) -> Result<Vec<u8>, NoMemory>
    ensures { IfOk result (λ folded. folded.items ≡ str_to_ascii_lowercase text.now) }
{
    match text.to_ascii_lowercase(alloc) {
        Ok(folded) => Ok(folded),
        Err(_) => Err(NoMemory),
    }
}
