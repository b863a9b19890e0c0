//! Headings.
ghost use Rattle.std.specs.Prelude.{◌≡◌, ◌++◌, take, drop, codes, length, option_map, slice_get};
ghost use Rattle.inp_text.specs.Items.{items};
ghost use Rattle.inp_text.specs.Headings.{first_item as item_of, opens_bracket, heads as heads_of};
ghost use Rattle.inp_text.specs.Headings.{section_named as named_of};
ghost use Rattle.inp_text.specs.internal.FirstItems.{take_solid, drop_blanks};

use crate::line::{is_blank_byte, without_comment};
use crate::section_kind::SectionKind;

/// The first item of a line, as `items` has it; None exactly where the line has no items. It takes
/// no memory, and time in proportion to the line.
pub fn first_item(line: &[u8]) -> Option<&[u8]>
    ensures value { option_map (λ item. item.now) result ≡ slice_get (items line.now) 0 }
{
    let item = front_item(line);
    if item.is_empty() {
        return None;
    }
    Some(item)
}

/// The first item of a line, or no bytes.
pub(crate) fn front_item(line: &[u8]) -> &[u8]
    ensures { result.now ≡ item_of line.now }
{
    without_rest(without_blanks(without_comment(line)))
}

/// The text from its first byte that is no blank.
fn without_blanks(text: &[u8]) -> &[u8]
    ensures { result.now ≡ drop_blanks text.now }
{
    for (index, byte) in text.iter().enumerate() {
        if !is_blank_byte(*byte) {
            return &text[index..];
        }
    }
    &[]
}

/// The text before its first blank.
fn without_rest(text: &[u8]) -> &[u8]
    ensures { result.now ≡ take_solid text.now }
{
    for (index, byte) in text.iter().enumerate() {
        if is_blank_byte(*byte) {
            return &text[..index];
        }
    }
    text
}

/// Whether an item is that of a heading.
pub(crate) fn is_bracketed(item: &[u8]) -> bool
    ensures { result ≡ opens_bracket item.now }
{
    match item.first() {
        Some(byte) => *byte == b'[',
        None => false,
    }
}

/// The read section that an item opens.
#[tactic(auto, unfolding(crate::specs::Headings::section_named))]
pub(crate) fn section_named(item: &[u8]) -> Option<SectionKind>
    ensures { result ≡ named_of item.now }
{
    if heads(item, b"[OPTI") {
        return Some(SectionKind::Options);
    }
    if heads(item, b"[RAIN") {
        return Some(SectionKind::Gages);
    }
    if heads(item, b"[JUNC") {
        return Some(SectionKind::Junctions);
    }
    if heads(item, b"[OUTF") {
        return Some(SectionKind::Outfalls);
    }
    if heads(item, b"[DIVI") {
        return Some(SectionKind::Dividers);
    }
    if heads(item, b"[STOR") {
        return Some(SectionKind::Storage);
    }
    if heads(item, b"[COND") {
        return Some(SectionKind::Conduits);
    }
    if heads(item, b"[PUMP") {
        return Some(SectionKind::Pumps);
    }
    if heads(item, b"[ORIF") {
        return Some(SectionKind::Orifices);
    }
    if heads(item, b"[WEIR") {
        return Some(SectionKind::Weirs);
    }
    if heads(item, b"[OUTL") {
        return Some(SectionKind::Outlets);
    }
    if heads(item, b"[CONT") {
        return Some(SectionKind::Controls);
    }
    if heads(item, b"[CURV") {
        return Some(SectionKind::Curves);
    }
    if heads(item, b"[TIME") {
        return Some(SectionKind::Series);
    }
    None
}

/// Whether an item begins with these five bytes, ignoring case.
#[tactic(auto, unfolding(crate::specs::Headings::heads))]
fn heads(item: &[u8], heading: &[u8]) -> bool
    ensures { result ≡ heads_of item.now heading.now }
{
    if item.len() < 5 {
        return item.eq_ignore_ascii_case(heading);
    }
    item[..5].eq_ignore_ascii_case(heading)
}
