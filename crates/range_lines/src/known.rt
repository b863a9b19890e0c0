//! What the lines of a ranges file speak of.
ghost use Rattle.std.specs.Prelude.{◌≡◌, IfOk, Ok, Some, None, if◌then◌else◌};
ghost use Rattle.range_lines.specs.Entries.{rule_found, link_found, key_found, key_of, is_among};
ghost use Rattle.range_lines.specs.Entries.{with_range as ranged};
ghost use Rattle.range_lines.specs.internal.Views.{known_now};

use crate::link_set::LinkSet;
use crate::rule_ids::RuleIds;
use byte_edge::NoMemory;
use key_words::read_attribute_of;
use object_index::{ObjectIndex, Unresolved};
use rule_types::{Attr, Key, ObjectNo, ObjectWord};
use std::alloc::Global;

/// The objects, the ids of the rules, and the links that some action acts on.
#[derive(Clone, Copy)]
pub(crate) struct Known<'a> {
    pub(crate) objects: &'a ObjectIndex,
    pub(crate) ids: &'a RuleIds,
    pub(crate) links: &'a LinkSet,
}

/// The rule that an id finds.
#[tactic(auto, unfolding(crate::specs::Entries::rule_found))]
pub(crate) fn find_rule(alloc: Global, known: Known<'_>, id: &[u8]) -> Result<Option<u32>, NoMemory>
    ensures { IfOk result (λ found. found ≡ rule_found (known_now known.entry) id.now) }
{
    known.ids.find(alloc, id)
}

/// The link that a name finds, where some action acts on it.
#[tactic(auto, unfolding(crate::specs::Entries::link_found))]
pub(crate) fn find_link(
    alloc: Global,
    known: Known<'_>,
    name: &[u8],
) -> Result<Option<u32>, NoMemory>
    ensures { IfOk result (λ found. found ≡ link_found (known_now known.entry) name.now) }
{
    match known.objects.resolve(alloc, ObjectWord::Link, name) {
        Ok(object) => Ok(link_if_acted(known.links, object.index)),
        Err(Unresolved::NoMemory) => Err(NoMemory),
        Err(_) => Ok(None),
    }
}

/// The link, where it is one of these.
fn link_if_acted(links: &LinkSet, link: u32) -> Option<u32>
    ensures { result ≡ if is_among link links.now then Some link else None }
{
    if links.contains(link) {
        Some(link)
    } else {
        None
    }
}

/// The key that an object word, a name and an attribute give, where it has a range.
#[tactic(auto, unfolding(crate::specs::Entries::key_found))]
pub(crate) fn find_key(
    alloc: Global,
    known: Known<'_>,
    word: ObjectWord,
    name: &[u8],
    attribute: &[u8],
) -> Result<Option<Key>, NoMemory>
    ensures { IfOk result (λ found. found
        ≡ key_found (known_now known.entry) word name.now attribute.now) }
{
    let attribute = with_range(read_attribute_of(word, attribute));
    match known.objects.resolve(alloc, word, name) {
        Ok(object) => Ok(key_of(object, attribute)),
        Err(Unresolved::NoMemory) => Err(NoMemory),
        Err(_) => Ok(None),
    }
}

/// The key of an object and an attribute.
fn key_of(object: ObjectNo, attribute: Option<Attr>) -> Option<Key>
    ensures { result ≡ key_of (Ok object) attribute }
{
    let attribute = attribute?;
    Some(Key::Object(object, attribute))
}

/// The attribute, where it has a range.
fn with_range(attribute: Option<Attr>) -> Option<Attr>
    ensures { result ≡ ranged attribute }
{
    match attribute? {
        Attr::Status => None,
        other => Some(other),
    }
}
