//! The columns of a header.
ghost use Rattle.std.specs.Prelude.{◌≡◌, ◌<◌, ◌||◌, false, length, map, replicate, IfOk, IfSome};
ghost use Rattle.std.specs.Prelude.{All};
ghost use Rattle.std.specs.List.{list_all};
ghost use Rattle.csv.specs.Records.{fields_of};
ghost use Rattle.rule_types.specs.KeyOrder.{IsInKeyOrder};
ghost use Rattle.trace_csv.specs.Columns.{key_of_items, column_key as key_of_column};
ghost use Rattle.trace_csv.specs.Columns.{key_at as place_of_key, column_input as input_of_column};
ghost use Rattle.trace_csv.specs.Columns.{has_duplicate};
ghost use Rattle.trace_csv.specs.Fields.{further_fields};
ghost use Rattle.trace_csv.specs.internal.Filling.{Within};
ghost use Rattle.trace_csv.specs.internal.Marking.{marks, marked, with_mark};

use byte_edge::NoMemory;
use csv::ByteRecord;
use inp_text::cut_line;
use key_words::{read_attribute_of, read_object_word};
use object_index::{ObjectIndex, Unresolved};
use rule_types::Key;
use std::alloc::Global;

/// The key that a column's name names.
#[tactic(auto, unfolding(crate::specs::Columns::column_key))]
fn column_key(alloc: Global, name: &[u8], objects: &ObjectIndex) -> Result<Option<Key>, NoMemory>
    ensures { IfOk result (λ key. key ≡ key_of_column objects.now name.now) }
{
    let items = cut_line(alloc, name)?;
    key_in(alloc, items.as_slice(), objects)
}

/// The key that three items name.
fn key_in(alloc: Global, items: &[&[u8]], objects: &ObjectIndex) -> Result<Option<Key>, NoMemory>
    ensures { IfOk result (λ key. key
        ≡ key_of_items objects.now (map (λ item. item.now) items.now)) }
{
    let [word, name, attribute] = items else {
        return Ok(None);
    };
    let Some(word) = read_object_word(word) else {
        return Ok(None);
    };
    let Some(attribute) = read_attribute_of(word, attribute) else {
        return Ok(None);
    };
    match objects.resolve(alloc, word, name) {
        Ok(object) => Ok(Some(Key::Object(object, attribute))),
        Err(Unresolved::NoMemory) => Err(NoMemory),
        Err(_) => Ok(None),
    }
}

/// The place of a key among the input keys, if it is one of them.
fn key_at(keys: &[Key], key: &Key) -> Option<usize>
    requires in_order { IsInKeyOrder keys.now }
    ensures value { result ≡ place_of_key keys.now key.now }
    ensures within { IfSome result (λ place. place < length keys.now) }
{
    match keys.binary_search(key) {
        Ok(place) => Some(place),
        Err(_) => None,
    }
}

/// The place of the input that a column gives, by its name.
#[tactic(auto, unfolding(crate::specs::Columns::column_input))]
fn column_input(
    alloc: Global,
    name: &[u8],
    keys: &[Key],
    objects: &ObjectIndex,
) -> Result<Option<usize>, NoMemory>
    requires in_order { IsInKeyOrder keys.now }
    ensures value { IfOk result (λ place. place ≡ input_of_column keys.now objects.now name.now) }
    ensures within { IfOk result (λ place. Within (length keys.now) place) }
{
    let key = column_key(alloc, name, objects)?;
    match key {
        Some(key) => Ok(key_at(keys, &key)),
        None => Ok(None),
    }
}

/// The places of the inputs that the columns behind the first give.
pub(crate) fn column_inputs(
    alloc: Global,
    row: &ByteRecord,
    keys: &[Key],
    objects: &ObjectIndex,
) -> Result<Vec<Option<usize>>, NoMemory>
    requires in_order { IsInKeyOrder keys.now }
    ensures value { IfOk result (λ places. places.items
        ≡ map (input_of_column keys.now objects.now) (further_fields (fields_of row.now))) }
    ensures within { IfOk result (λ places. All (Within (length keys.now)) places.items) }
{
    let mut places = Vec::new(alloc);
    for at in 1..row.len() {
        let Some(name) = row.get(at) else {
            return Ok(places);
        };
        let place = column_input(alloc, name, keys, objects)?;
        places.push(place)?;
    }
    Ok(places)
}

/// Marks the input that a column gives. True where it was marked before.
fn mark(column: &Option<usize>, given: &mut [bool]) -> bool
    requires within { Within (length given.old) column.now }
    ensures old { result ≡ marked given.old column.now }
    ensures new { given.new ≡ with_mark given.old column.now }
{
    match column {
        None => false,
        Some(place) => {
            let before = given[*place];
            given[*place] = true;
            before
        }
    }
}

/// Takes every mark away.
fn clear(given: &mut [bool])
    ensures { given.new ≡ replicate (length given.old) false }
{
    given.fill(false);
}

/// Whether two columns give one input. It marks each input that a column gives.
pub(crate) fn marks_twice(columns: &[Option<usize>], given: &mut [bool]) -> bool
    requires within { All (Within (length given.old)) columns.now }
    ensures twice { result ≡ has_duplicate columns.now }
    ensures given { given.new ≡ marks columns.now (length given.old) }
{
    clear(given);
    let mut twice = false;
    for at in (0..columns.len()).rev() {
        twice = either(mark(&columns[at], given), twice);
    }
    twice
}

/// Whether one of two tests passed.
fn either(one: bool, other: bool) -> bool
    ensures { result ≡ (one || other) }
{
    one || other
}

/// Whether each input is marked.
pub(crate) fn are_marked(given: &[bool]) -> bool
    ensures { result ≡ list_all (λ mark. mark) given.now }
{
    given.iter().all(|mark| *mark)
}
