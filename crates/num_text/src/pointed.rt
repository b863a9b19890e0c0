//! Digits with or without a point.
ghost use Rattle.std.specs.Prelude.{◌≡◌, ◌*◌, ◌+◌, ◌^◌, ◌<◌, ◌≤◌, length, IfSome, IsTrue};
ghost use Rattle.std.specs.Option.{option_map};
ghost use Rattle.std.specs.List.{list_all};
ghost use Rattle.std.specs.Char.{is_ascii_digit};
ghost use Rattle.num_text.specs.Pointed.{last_digits, decimals, pointed_up_to, decimal_up_to};

use crate::fields::{cut_digits, number_of, number_up_to, past};
use crate::ratio::ratio_of;
use exact_fraction::frac::Frac;

/// The number of digits with or without a point and one to nine decimals. None where the text is
/// anything else, or the number is more than `most`.
#[tactic(auto, unfolding(crate::specs::Pointed::decimal_up_to))]
pub(crate) fn decimal_up_to(text: &[u8], most: u64) -> Option<Frac>
    requires million { most ≤ 1_000_000 }
    ensures value { result ≡ decimal_up_to most text.now }
{
    let (whole, rest) = cut_digits(text);
    if whole.is_empty() {
        return None;
    }
    let behind = decimals(rest, 9)?;
    pointed_up_to(whole, behind, most)
}

/// The number that digits before and behind a point write. None where it is more than `most`.
fn pointed_up_to(whole: &[u8], behind: &[u8], most: u64) -> Option<Frac>
    requires whole_digits { IsTrue (list_all is_ascii_digit whole.now) }
    requires digits_behind { IsTrue (list_all is_ascii_digit behind.now) }
    requires nine { length behind.now ≤ 9 }
    requires million { most ≤ 1_000_000 }
    ensures value { result ≡ pointed_up_to most whole.now behind.now }
{
    let front = number_up_to(whole, most)?;
    let scale = 10u64.pow(behind.len() as u32);
    let number = front * scale + number_of(behind);
    if number > most * scale {
        return None;
    }
    ratio_of(number, scale)
}

/// The decimals behind whole digits: a point and one to `most` digits. None where anything else
/// stands there, and no digits where the text ends.
#[tactic(auto, unfolding(crate::specs::Pointed::decimals))]
pub(crate) fn decimals(text: &[u8], most: usize) -> Option<&[u8]>
    ensures value { option_map (λ digits. digits.now) result ≡ decimals most text.now }
    ensures few { IfSome result (λ digits. length digits.now ≤ most) }
    ensures digits { IfSome result (λ digits. IsTrue (list_all is_ascii_digit digits.now)) }
{
    if text.is_empty() {
        return Some(text);
    }
    let behind = past(b'.', text)?;
    last_digits(behind, most)
}

/// The one to `most` digits that the whole text is.
pub(crate) fn last_digits(text: &[u8], most: usize) -> Option<&[u8]>
    ensures value { option_map (λ digits. digits.now) result ≡ last_digits most text.now }
    ensures few { IfSome result (λ digits. length digits.now ≤ most) }
    ensures digits { IfSome result (λ digits. IsTrue (list_all is_ascii_digit digits.now)) }
{
    let (digits, rest) = cut_digits(text);
    if digits.is_empty() {
        return None;
    }
    if digits.len() > most {
        return None;
    }
    if !rest.is_empty() {
        return None;
    }
    Some(digits)
}
