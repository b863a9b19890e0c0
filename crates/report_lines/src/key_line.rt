//! The keys that lines name.
ghost use Rattle.std.specs.Prelude.{◌≡◌, option_map, Some, IfOk};
ghost use Rattle.report_lines.specs.KeyLines.{past_text, past_key, key_named, key_by as named_by};
ghost use Rattle.report_lines.specs.internal.Views.{texts};

use byte_edge::NoMemory;
use key_words::{read_attribute_of, read_object_word, write_key};
use object_index::{ObjectIndex, Unresolved};
use rule_types::{Key, ObjectWord};
use std::alloc::Global;

/// What stands behind a word, a key and a space at the head of a line.
#[tactic(auto, unfolding(crate::specs::KeyLines::past_key))]
pub(crate) fn past_key<'a>(
    alloc: Global,
    word: &[u8],
    objects: &ObjectIndex,
    key: &Key,
    line: &'a [u8],
) -> Result<Option<&'a [u8]>, NoMemory>
    ensures { IfOk result (λ rest. option_map (λ text. text.now) rest
        ≡ past_key word.now objects.now key.now line.now) }
{
    let mut text = Vec::new(alloc);
    text.extend_from_slice(word)?;
    text.extend_from_slice(b" ")?;
    write_key(&mut text, objects, key)?;
    text.extend_from_slice(b" ")?;
    Ok(past_text(text.as_slice(), line))
}

/// What stands behind a text at the head of a line.
#[tactic(auto, unfolding(crate::specs::KeyLines::past_text))]
fn past_text<'a>(text: &[u8], line: &'a [u8]) -> Option<&'a [u8]>
    ensures { option_map (λ rest. rest.now) result ≡ past_text text.now line.now }
{
    let mut left = line;
    for byte in text {
        match left {
            [first, rest @ ..] => {
                if *byte != *first {
                    return None;
                }
                left = rest;
            }
            [] => return None,
        }
    }
    Some(left)
}

/// The key that the three words behind the first one name, in any case.
#[tactic(auto, unfolding(crate::specs::KeyLines::key_named))]
pub(crate) fn key_named<'a>(
    alloc: Global,
    objects: &ObjectIndex,
    words: &'a [&'a [u8]],
) -> Result<Option<Key>, NoMemory>
    ensures { IfOk result (λ key. key ≡ key_named objects.now (texts words.now)) }
{
    match words {
        [_, word, name, attribute, ..] => match read_object_word(word) {
            Some(object) => key_by(alloc, objects, object, name, attribute),
            None => Ok(None),
        },
        _ => Ok(None),
    }
}

/// The key of an object word, a name and an attribute.
fn key_by(
    alloc: Global,
    objects: &ObjectIndex,
    word: ObjectWord,
    name: &[u8],
    attribute: &[u8],
) -> Result<Option<Key>, NoMemory>
    ensures { IfOk result (λ key. key
        ≡ named_by objects.now (Some word) name.now attribute.now) }
{
    match objects.resolve(alloc, word, name) {
        Ok(object) => match read_attribute_of(word, attribute) {
            Some(attribute) => Ok(Some(Key::Object(object, attribute))),
            None => Ok(None),
        },
        Err(Unresolved::NoMemory) => Err(NoMemory),
        Err(_) => Ok(None),
    }
}
