//! Objects and keys as control lines write them.
ghost use Rattle.std.specs.Prelude.{◌≡◌, IfOk};
ghost use Rattle.object_index.specs.Objects.{Objects};
ghost use Rattle.key_words.specs.Words.{attribute_of};
ghost use Rattle.control_lines.specs.Faults.{or_fault};
ghost use Rattle.control_lines.specs.Views.{checked_now, attribute_now, key_now};
ghost use Rattle.rule_types.specs.declared.refusal.Cause.TheVariants.{UnknownAttribute};
ghost use Rattle.rule_parser.specs.Conditions.{object_read, key_read, key_from, clock_key};

use byte_edge::NoMemory;
use control_lines::{Fault, KeyText, ObjectAttribute, both};
use key_words::{read_attribute_of, read_clock_attribute};
use object_index::{ObjectIndex, Unresolved};
use rule_types::{Attr, Cause, Key, ObjectNo, ObjectWord};
use std::alloc::Global;

/// The object that a word and a name give: UnknownObject of a name that finds none or is ambiguous,
/// and WrongKind where the word does not accept what it finds.
pub(crate) fn read_object<'a>(
    alloc: Global,
    objects: &ObjectIndex,
    word: ObjectWord,
    name: &'a [u8],
) -> Result<Result<ObjectNo, Fault<'a>>, NoMemory>
    ensures { IfOk result (λ found. checked_now found ≡ object_read objects.now word name.now) }
{
    match objects.resolve(alloc, word, name) {
        Ok(object) => Ok(Ok(object)),
        Err(Unresolved::WrongKind) => Ok(Err(Fault {
            cause: Cause::WrongKind,
            token: name,
        })),
        Err(Unresolved::NoMemory) => Err(NoMemory),
        Err(_) => Ok(Err(Fault {
            cause: Cause::UnknownObject,
            token: name,
        })),
    }
}

/// The key that is written, or why there is none.
#[tactic(auto, unfolding(crate::specs::Conditions::key_read))]
pub(crate) fn read_key<'a>(
    alloc: Global,
    objects: &ObjectIndex,
    key: &KeyText<'a>,
) -> Result<Result<Key, Fault<'a>>, NoMemory>
    ensures { IfOk result (λ found. checked_now found ≡ key_read objects.now (key_now key.now)) }
{
    match key {
        KeyText::Object(written) => read_object_key(alloc, objects, written),
        KeyText::Clock(attribute) => Ok(read_clock_key(attribute)),
    }
}

/// The key of an object.
fn read_object_key<'a>(
    alloc: Global,
    objects: &ObjectIndex,
    written: &ObjectAttribute<'a>,
) -> Result<Result<Key, Fault<'a>>, NoMemory>
    ensures { IfOk result (λ found. checked_now found
        ≡ key_from (object_read objects.now written.now.word written.now.name.now)
        (or_fault (attribute_of written.now.word written.now.attribute.now) UnknownAttribute
        written.now.attribute.now)) }
{
    let object = read_object(alloc, objects, written.word, written.name)?;
    match both(object, read_attribute(written.word, written.attribute)) {
        Ok((object, attribute)) => Ok(Ok(Key::Object(object, attribute))),
        Err(fault) => Ok(Err(fault)),
    }
}

/// The attribute that stands in the row of a word.
fn read_attribute(word: ObjectWord, item: &[u8]) -> Result<Attr, Fault<'_>>
    ensures { checked_now result
        ≡ or_fault (attribute_of word item.now) UnknownAttribute item.now }
{
    match read_attribute_of(word, item) {
        Some(attribute) => Ok(attribute),
        None => Err(Fault {
            cause: Cause::UnknownAttribute,
            token: item,
        }),
    }
}

/// The key of the clock.
fn read_clock_key(item: &[u8]) -> Result<Key, Fault<'_>>
    ensures { checked_now result ≡ clock_key item.now }
{
    match read_clock_attribute(item) {
        Some(attribute) => Ok(Key::Clock(attribute)),
        None => Err(Fault {
            cause: Cause::UnknownAttribute,
            token: item,
        }),
    }
}
