//! What fields say.
ghost use Rattle.std.specs.Prelude.{◌≡◌, IfSome, Ok, Some};
ghost use Rattle.inp_text.specs.Items.{is_blank as is_blank_byte};
ghost use Rattle.trace_csv.specs.Fields.{without_front_blanks as past_blanks};
ghost use Rattle.trace_csv.specs.Fields.{without_end_blanks as before_blanks};
ghost use Rattle.trace_csv.specs.Fields.{trimmed as trimmed_field, input_of as input_in_text};
ghost use Rattle.trace_csv.specs.Fields.{field_input as input_in_field};

use exact_fraction::frac::Frac;
use num_text::error::NumberFault;
use num_text::numbers::read_number;

/// Whether a byte is a space or a tab.
fn is_blank(byte: u8) -> bool
    ensures { result ≡ is_blank_byte byte }
{
    byte == b' ' || byte == b'\t'
}

/// A text without the blanks at its start.
fn without_front_blanks(text: &[u8]) -> &[u8]
    ensures { result.now ≡ past_blanks text.now }
{
    for (index, byte) in text.iter().enumerate() {
        if !is_blank(*byte) {
            return &text[index..];
        }
    }
    &text[text.len()..]
}

/// A text without the blanks at its end.
fn without_end_blanks(text: &[u8]) -> &[u8]
    ensures { result.now ≡ before_blanks text.now }
{
    for at in (0..text.len()).rev() {
        if !is_blank(text[at]) {
            return &text[..at + 1];
        }
    }
    &text[..0]
}

/// A field without the spaces and tabs round it.
pub(crate) fn trimmed(field: &[u8]) -> &[u8]
    ensures { result.now ≡ trimmed_field field.now }
{
    without_end_blanks(without_front_blanks(field))
}

/// What a field says of an input: None where it is empty, else its number.
#[tactic(auto, unfolding(crate::specs::Fields::field_input))]
pub(crate) fn field_input(field: &[u8]) -> Result<Option<Frac>, NumberFault>
    ensures { result ≡ input_in_field field.now }
{
    match digit_in(field) {
        Some(number) => Ok(Some(number)),
        None => input_of(trimmed(field)),
    }
}

/// The number of a field that is one digit. None for all other fields.
fn digit_in(field: &[u8]) -> Option<Frac>
    ensures { IfSome result (λ number. input_in_field field.now ≡ Ok (Some number)) }
{
    let [digit] = field else {
        return None;
    };
    if *digit < b'0' {
        return None;
    }
    if *digit > b'9' {
        return None;
    }
    Some(Frac::natural((*digit - b'0') as u32))
}

/// What a text says of an input.
fn input_of(text: &[u8]) -> Result<Option<Frac>, NumberFault>
    ensures { result ≡ input_in_text text.now }
{
    if text.is_empty() {
        return Ok(None);
    }
    match read_number(text) {
        Ok(number) => Ok(Some(number)),
        Err(fault) => Err(fault),
    }
}
