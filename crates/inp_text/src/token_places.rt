//! The items of a line that has no control bytes.
ghost use Rattle.std.specs.Prelude.{◌≡◌, None, drop, length, IfOk, OnOk, IfErr, All};
ghost use Rattle.inp_text.specs.Items.{items as items_of, texts_at, item_places, IsPlace};
ghost use Rattle.inp_text.specs.Control.{is_control, control_from, first_control as control_of};
ghost use Rattle.inp_text.specs.Control.{FaultReports};

use crate::fault::TextFault;
use crate::line::{Span, items, without_comment};
use std::alloc::Global;

/// The places of the items of a line, in their order. BadText is the answer exactly where a byte
/// below 32 other than tab, or byte 127, is before the first semicolon, with the place of the
/// first; it goes before NoMemory. It takes time in proportion to the line.
pub fn tokens(alloc: Global, line: &[u8]) -> Result<Vec<Span>, TextFault>
    ensures value { IfOk result (λ places. places.items ≡ item_places line.now) }
    ensures texts { IfOk result (λ places. texts_at line.now places.items ≡ items_of line.now) }
    ensures places { IfOk result (λ places. All (IsPlace (length line.now)) places.items) }
    ensures good { OnOk result (control_of line.now ≡ None) }
    ensures fault { IfErr result (λ fault. FaultReports (control_of line.now) fault) }
{
    if let Some(place) = first_control(line) {
        return Err(TextFault::BadText(place));
    }
    match items(alloc, line) {
        Ok(places) => Ok(places),
        Err(_) => Err(TextFault::NoMemory),
    }
}

/// The place of the first control byte before the comment of a line, from 0: a byte below 32 other
/// than tab, or byte 127. None exactly where there is no such byte. It takes no memory, and time in
/// proportion to the line.
pub fn first_control(line: &[u8]) -> Option<usize>
    ensures value { result ≡ control_of line.now }
{
    control_in(without_comment(line))
}

/// The place of the first control byte of a text.
fn control_in(text: &[u8]) -> Option<usize>
    ensures { result ≡ control_from 0 text.now }
{
    for (index, byte) in text.iter().enumerate() {
        if is_control_byte(*byte) {
            return Some(index);
        }
    }
    None
}

/// Whether a byte is a control byte other than tab.
fn is_control_byte(byte: u8) -> bool
    ensures { result ≡ is_control byte }
{
    (byte < 32 && byte != b'\t') || byte == 127
}
