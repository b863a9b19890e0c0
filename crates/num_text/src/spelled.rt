//! The values that texts spell, with zeros too many or without.
ghost use Rattle.std.specs.Prelude.{◌≡◌, ◌<◌, ◌≤◌, ◌^◌, ◌↔◌, length, pos, Some, IsTrue};
ghost use Rattle.std.specs.List.{list_all};
ghost use Rattle.std.specs.Char.{is_ascii_digit};
ghost use Rattle.exact_fraction.specs.Checked.{made};
ghost use Rattle.num_text.specs.Fields.{past};
ghost use Rattle.num_text.specs.Numbers.{signed};
ghost use Rattle.num_text.specs.Values.{past_minus, with_decimals, spelled_behind, spelled_value};

use crate::fields::{Field, last_number, number_of, past};
use crate::numbers::{is_negative, signed};
use crate::pointed::decimals;
use exact_fraction::frac::Frac;

/// The number that the text spells as a decimal or as a fraction, with zeros too many or without.
/// None where it spells none.
#[tactic(auto, unfolding(crate::specs::Values::spelled_value))]
pub(crate) fn spelled_value(text: &[u8]) -> Option<Frac>
    ensures value { result ≡ spelled_value text.now }
{
    let front = Field::read(past_minus(text), 1, 19)?;
    spelled_behind(is_negative(text), front.number, front.rest)
}

/// What stands behind the minus of the text, if it begins with one.
fn past_minus(text: &[u8]) -> &[u8]
    ensures value { result.now ≡ past_minus text.now }
{
    if text.is_empty() {
        return text;
    }
    if text[0] == b'-' {
        return &text[1..];
    }
    text
}

/// The number of a sign, a whole number, and a denominator or decimals behind it.
fn spelled_behind(negative: bool, whole: u64, rest: &[u8]) -> Option<Frac>
    ensures value { result ≡ spelled_behind negative whole rest.now (past 47 rest.now) }
{
    if let Some(below) = past(b'/', rest) {
        let denominator = last_number(below, 19)?;
        return made(negative, whole as u128, denominator as u128);
    }
    let behind = decimals(rest, 18)?;
    with_decimals(negative, whole, behind)
}

/// The number of a sign, a whole number and decimals.
fn with_decimals(negative: bool, whole: u64, behind: &[u8]) -> Option<Frac>
    requires few { length behind.now ≤ 18 }
    requires digits { IsTrue (list_all is_ascii_digit behind.now) }
    ensures value { result ≡ with_decimals negative whole behind.now }
{
    let scale = 10u64.pow(behind.len() as u32);
    let size = whole as u128 * scale as u128 + number_of(behind) as u128;
    made(negative, size, scale as u128)
}

/// The number of a sign, a size and a denominator, if it fits.
fn made(negative: bool, size: u128, denominator: u128) -> Option<Frac>
    requires size_fits { size < 2 ^ 127 }
    requires denominator_fits { denominator < 2 ^ 127 }
    ensures value { result ≡ made (signed negative size) (pos denominator) }
{
    Frac::make(signed(negative, size), denominator as i128)
}
