//! The tables that control lines use.
ghost use Rattle.std.specs.Prelude.{◌≡◌, ℕ, ◌<◌, ◌||◌, ◌==◌, false, length, get_or};
ghost use Rattle.std.specs.Prelude.{option_map, IfOk};
ghost use Rattle.std.specs.Prelude.{OnOk};
ghost use Rattle.curves_series.specs.Names.{name_used, sets_by, name_behind, finds_at, is_used};
ghost use Rattle.curves_series.specs.Names.{line_uses};
ghost use Rattle.curves_series.specs.internal.Views.{texts, is_number};

use byte_edge::NoMemory;
use inp_text::{SourceLine, cut_line};
use object_index::{Found, NameTable};
use std::alloc::Global;

/// Whether two items are an equals sign and a word, in any case.
fn sets_by(word: &[u8], equals: &[u8], item: &[u8]) -> bool
    ensures value { result ≡ sets_by word.now equals.now item.now }
{
    equals == b"=".as_slice() && item.eq_ignore_ascii_case(word)
}

/// The name behind an equals sign and a word, where three items are these.
fn name_behind<'a>(word: &[u8], found: &[&'a [u8]]) -> Option<&'a [u8]>
    ensures value { option_map (λ name. name.now) result
        ≡ name_behind word.now (texts found.now) }
{
    match found {
        [equals, item, name] => {
            if sets_by(word, equals, item) {
                Some(name)
            } else {
                None
            }
        }
        _ => None,
    }
}

/// The name of the table that the last three items of a control line use.
#[tactic(auto, using(crate::proofs::UsedNames::last_texts), unfolding(crate::specs::Names::name_used),)]
fn name_used<'a>(word: &[u8], found: &[&'a [u8]]) -> Option<&'a [u8]>
    ensures value { option_map (λ name. name.now) result
        ≡ name_used word.now (texts found.now) }
{
    let count = found.len();
    if count < 3 {
        return None;
    }
    name_behind(word, &found[count - 3..])
}

/// The number of the table among these names that the items of a control line use, if there is one.
fn table_used(
    alloc: Global,
    word: &[u8],
    names: &NameTable,
    found: &[&[u8]],
) -> Result<Option<u32>, NoMemory>
    ensures value { (k : ℕ) → IfOk result (λ number. is_number k number
        ≡ finds_at names.now k (name_used word.now (texts found.now))) }
{
    let Some(name) = name_used(word, found) else {
        return Ok(None);
    };
    match names.find(alloc, name) {
        Ok(Found::At(number)) => Ok(Some(number)),
        Ok(_) => Ok(None),
        Err(_) => Err(NoMemory),
    }
}

/// Which tables among these names the control lines use, by their numbers. A control line costs one
/// look-up of a name at most.
#[tactic(auto, unfolding(crate::specs::Names::is_used))]
pub(crate) fn used_marks(
    alloc: Global,
    word: &[u8],
    controls: &[SourceLine],
    names: &NameTable,
) -> Result<Vec<bool>, NoMemory>
    ensures length { IfOk result (λ marks. length marks.items ≡ length names.now) }
    ensures value { IfOk result (λ marks. (k : ℕ) → k < length names.now
        → get_or marks.items k false ≡ is_used word.now controls.now names.now k) }
{
    let Ok(mut marks) = vec![in alloc; false; names.len()] else {
        return Err(NoMemory);
    };
    match mark_all(alloc, word, controls, names, &mut marks) {
        Ok(()) => Ok(marks),
        Err(_) => {
            drop(marks);
            Err(NoMemory)
        }
    }
}

/// Marks the tables among these names that the control lines use.
#[tactic(auto, unfolding(crate::specs::Names::is_used))]
fn mark_all(
    alloc: Global,
    word: &[u8],
    controls: &[SourceLine],
    names: &NameTable,
    marks: &mut [bool],
) -> Result<(), NoMemory>
    requires length { length marks.old ≡ length names.now }
    ensures length { length marks.new ≡ length names.now }
    ensures value { OnOk result ((k : ℕ) → k < length names.now → get_or marks.new k false
        ≡ (get_or marks.old k false || is_used word.now controls.now names.now k)) }
{
    for line in controls {
        mark_line(alloc, word, line, names, marks)?;
    }
    Ok(())
}

/// Marks the table among these names that a control line uses, if there is one.
fn mark_line(
    alloc: Global,
    word: &[u8],
    line: &SourceLine,
    names: &NameTable,
    marks: &mut [bool],
) -> Result<(), NoMemory>
    ensures length { length marks.new ≡ length marks.old }
    ensures value { OnOk result ((k : ℕ) → k < length marks.old → get_or marks.new k false
        ≡ (get_or marks.old k false || line_uses word.now names.now k line.now)) }
{
    match table_of_line(alloc, word, line, names) {
        Ok(Some(number)) => {
            mark(marks, number as usize);
            Ok(())
        }
        Ok(None) => Ok(()),
        Err(_) => Err(NoMemory),
    }
}

/// The number of the table among these names that a control line uses, if there is one.
fn table_of_line(
    alloc: Global,
    word: &[u8],
    line: &SourceLine,
    names: &NameTable,
) -> Result<Option<u32>, NoMemory>
    ensures value { (k : ℕ) → IfOk result (λ number. is_number k number
        ≡ line_uses word.now names.now k line.now) }
{
    let found = cut_line(alloc, line.bytes.as_slice())?;
    table_used(alloc, word, names, &found)
}

/// Marks a place, if there is one.
fn mark(marks: &mut [bool], place: usize)
    ensures length { length marks.new ≡ length marks.old }
    ensures value { (k : ℕ) → k < length marks.old
        → get_or marks.new k false ≡ (get_or marks.old k false || (k == place)) }
{
    if place < marks.len() {
        marks[place] = true;
    }
}
