//! The items of a line as texts.
ghost use Rattle.std.specs.Prelude.{◌≡◌, ◌++◌, ◌≤◌, length, map, IfOk, OnOk};
ghost use Rattle.inp_text.specs.Items.{items, texts_at, place_between, places_from};

use crate::line::{is_blank_byte, without_comment};
use byte_edge::NoMemory;
use std::alloc::Global;

/// The items of a line, in their order: the longest runs of bytes other than spaces and tabs,
/// before the first semicolon. No byte is copied. It takes time in proportion to the line.
pub fn cut_line(alloc: Global, line: &[u8]) -> Result<Vec<&[u8]>, NoMemory>
    ensures value { IfOk result (λ found. map (λ item. item.now) found.items ≡ items line.now) }
{
    let found = words_of(alloc, without_comment(line))?;
    Ok(found)
}

/// The words of a text.
fn words_of(alloc: Global, text: &[u8]) -> Result<Vec<&[u8]>, NoMemory>
    ensures { IfOk result (λ found. map (λ item. item.now) found.items
        ≡ texts_at text.now (places_from 0 0 text.now)) }
{
    let mut found = Vec::new(alloc);
    let mut start = 0;
    for (index, byte) in text.iter().enumerate() {
        if is_blank_byte(*byte) {
            note_word(&mut found, text, start, index)?;
            start = index + 1;
        }
    }
    note_word(&mut found, text, start, text.len())?;
    Ok(found)
}

/// Notes the text from `start` to `end`, where it holds a byte or more.
fn note_word<'a>(
    found: &mut Vec<&'a [u8]>,
    text: &'a [u8],
    start: usize,
    end: usize,
) -> Result<(), NoMemory>
    requires within { end ≤ length text.now }
    ensures { OnOk result (map (λ item. item.now) found.new.items
        ≡ map (λ item. item.now) found.old.items ++ texts_at text.now (place_between start end)) }
{
    if start < end {
        match found.push(&text[start..end]) {
            Ok(()) => Ok(()),
            Err(_) => Err(NoMemory),
        }
    } else {
        Ok(())
    }
}
