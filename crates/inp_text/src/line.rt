//! The items of a line.
ghost use Rattle.std.specs.Prelude.{◌≡◌, ◌++◌, length, IfOk, OnOk, All};
ghost use Rattle.inp_text.specs.Items.{is_blank, before_comment, items as items_of, texts_at};
ghost use Rattle.inp_text.specs.Items.{place_between, places_from, item_places, IsPlace};

use byte_edge::NoMemory;
use std::alloc::Global;

/// A place in a line: the bytes from `start` to before `end`, counted from 0.
#[derive(Clone, Copy, Debug, PartialEq, Eq)]
pub struct Span {
    /// The first byte.
    pub start: usize,
    /// The first byte after it.
    pub end: usize,
}

/// The places of the items of a line, in their order: the longest runs of bytes other than spaces
/// and tabs, before the first semicolon. It takes time in proportion to the line.
pub fn items(alloc: Global, line: &[u8]) -> Result<Vec<Span>, NoMemory>
    ensures value { IfOk result (λ places. places.items ≡ item_places line.now) }
    ensures texts { IfOk result (λ places. texts_at line.now places.items ≡ items_of line.now) }
    ensures places { IfOk result (λ places. All (IsPlace (length line.now)) places.items) }
{
    let places = words_in(alloc, without_comment(line))?;
    Ok(places)
}

/// The bytes before the comment of a line.
pub(crate) fn without_comment(line: &[u8]) -> &[u8]
    ensures { result.now ≡ before_comment line.now }
{
    for (index, byte) in line.iter().enumerate() {
        if *byte == b';' {
            return &line[..index];
        }
    }
    line
}

/// The places of the words of a text.
fn words_in(alloc: Global, text: &[u8]) -> Result<Vec<Span>, NoMemory>
    ensures { IfOk result (λ places. places.items ≡ places_from 0 0 text.now) }
{
    let mut places = Vec::new(alloc);
    let mut start = 0;
    for (index, byte) in text.iter().enumerate() {
        if is_blank_byte(*byte) {
            note_place(&mut places, start, index)?;
            start = index + 1;
        }
    }
    note_place(&mut places, start, text.len())?;
    Ok(places)
}

/// Whether a byte separates items: a space or a tab.
pub(crate) fn is_blank_byte(byte: u8) -> bool
    ensures { result ≡ is_blank byte }
{
    byte == b' ' || byte == b'\t'
}

/// Notes the place from `start` to `end`, where it holds a byte or more.
fn note_place(places: &mut Vec<Span>, start: usize, end: usize) -> Result<(), NoMemory>
    ensures { OnOk result
        (places.new.items ≡ places.old.items ++ place_between start end) }
{
    if start < end {
        match places.push(Span { start, end }) {
            Ok(()) => Ok(()),
            Err(_) => Err(NoMemory),
        }
    } else {
        Ok(())
    }
}
