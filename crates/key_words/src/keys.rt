//! Keys as they are written.
ghost use Rattle.std.specs.Prelude.{◌≡◌, ◌++◌, OnOk};
ghost use Rattle.key_words.specs.KeyTexts.{space_word, name_text as name_of_object, key_text};
ghost use Rattle.key_words.specs.KeyTexts.{space};
ghost use Rattle.key_words.specs.Words.{clock_text, simulation_text as simulation};
ghost use Rattle.rule_types.specs.declared.key.Key.TheVariants.{Object};

use crate::attributes::{append, write_attribute};
use crate::clock::clock_attribute_text;
use crate::objects::{object_word_text, simulation_text};
use byte_edge::NoMemory;
use object_index::ObjectIndex;
use rule_types::{Attr, ClockAttr, Key, ObjectNo, ObjectWord, Space};

/// Writes a key behind a text: `NODE name ATTRIBUTE`, `GAGE name ATTRIBUTE`, `LINK name ATTRIBUTE`
/// for every link, or `SIMULATION ATTRIBUTE`. The name has the bytes of its declaration, and none
/// where there is no such object. NoMemory only where memory is wanting, and then nothing is said
/// of what was written.
pub fn write_key(out: &mut Vec<u8>, objects: &ObjectIndex, key: &Key) -> Result<(), NoMemory>
    ensures text { OnOk result (out.new.items ≡ out.old.items ++ key_text objects.now key.now) }
{
    match key {
        Key::Object(object, attribute) => write_object_key(out, objects, *object, *attribute),
        Key::Clock(attribute) => write_clock_key(out, *attribute),
    }
}

/// The name of an object, with the bytes of its declaration: empty where there is no such object.
pub fn name_text(objects: &ObjectIndex, object: ObjectNo) -> &[u8]
    ensures value { result.now ≡ name_of_object objects.now object }
{
    match objects.name(object) {
        Some(name) => name,
        None => b"",
    }
}

/// Writes a key of an object.
fn write_object_key(
    out: &mut Vec<u8>,
    objects: &ObjectIndex,
    object: ObjectNo,
    attribute: Attr,
) -> Result<(), NoMemory>
    ensures { OnOk result (out.new.items
        ≡ out.old.items ++ key_text objects.now (Object object attribute)) }
{
    append(out, object_word_text(space_word(object.space)))?;
    append(out, b" ")?;
    append(out, name_text(objects, object))?;
    append(out, b" ")?;
    write_attribute(out, attribute)?;
    Ok(())
}

/// Writes a key of the clock.
fn write_clock_key(out: &mut Vec<u8>, attribute: ClockAttr) -> Result<(), NoMemory>
    ensures { OnOk result (out.new.items
        ≡ out.old.items ++ simulation ++ space ++ clock_text attribute) }
{
    append(out, simulation_text())?;
    append(out, b" ")?;
    append(out, clock_attribute_text(attribute))?;
    Ok(())
}

/// The word of the objects of a space.
fn space_word(space: Space) -> ObjectWord
    ensures { result ≡ space_word space }
{
    match space {
        Space::Nodes => ObjectWord::Node,
        Space::Links => ObjectWord::Link,
        Space::Gages => ObjectWord::Gage,
    }
}
