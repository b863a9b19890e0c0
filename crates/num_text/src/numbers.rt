//! Numbers as they are written in the input.
ghost use Rattle.std.specs.Prelude.{◌≡◌, ℕ, ◌+◌, ◌*◌, ◌<◌, ◌≤◌, ◌^◌, ◌==◌, ◌||◌, ◌++◌, ◌≤ℤ◌, ◌<ℤ◌, ◌-ℤ◌, ◌+ℤ◌, List, [], Some, Ok, length, pos, negsuc, neg_ℤ, IsTrue, IfSome, unsigned_abs};
ghost use Rattle.std.specs.Option.{option_map};
ghost use Rattle.std.specs.List.{list_all};
ghost use Rattle.std.specs.Char.{is_ascii_digit};
ghost use Rattle.exact_fraction.specs.Number.{ratio};
ghost use Rattle.num_text.specs.Fields.{is_end};
ghost use Rattle.num_text.specs.Numbers.{is_negative, past_sign, signed, point_digits, past_point, exponent_digits, exponent_of, spelling_of, bounded, in_bounds, spelled, number_of, number_in};
ghost use Rattle.num_text.specs.internal.Views.{spelling_now};

use crate::error::NumberFault;
use crate::fields::{cut_digits, last_number};
use crate::narrow::NarrowSignificand;
use crate::plain::plain_number;
use crate::significand::{LARGE, Significand};
use exact_fraction::frac::Frac;

/// 2^63, the least whole number that does not fit.
const TWO_63: u128 = 9_223_372_036_854_775_808;

/// The number that the text writes: an optional sign; digits with an optional point and optional
/// further digits, or a point and digits; and optionally `e` or `E`, an optional sign and one to
/// three digits. BadNumber exactly where the text is anything else. TooLarge exactly where it is a
/// number other than 0 whose power of ten is below -18 or above 18, with a significand that 10 does
/// not divide, or which does not fit. A byte costs two multiplications at most, and one where there
/// is no power of ten and the digits are few.
pub fn read_number(text: &[u8]) -> Result<Frac, NumberFault>
    ensures value { result ≡ number_of text.now }
{
    match plain_number(text) {
        Some(number) => Ok(number),
        None => any_number(text),
    }
}

/// The same of any text, with a power of ten or without, and however many digits it has.
#[tactic(auto, unfolding(crate::specs::Numbers::spelled))]
#[inline(never)]
fn any_number(text: &[u8]) -> Result<Frac, NumberFault>
    ensures value { result ≡ number_of text.now }
{
    let negative = is_negative(text);
    let Some(spelling) = Spelling::read(negative, past_sign(text)) else {
        return Err(NumberFault::BadNumber);
    };
    value_of(negative, spelling.whole, spelling.behind, spelling.exponent)
}

/// The number that the text writes, as `read_number` reads it. None exactly where it is no number,
/// or one that is too large.
pub fn number_in(text: &[u8]) -> Option<Frac>
    ensures value { result ≡ number_in text.now }
{
    match read_number(text) {
        Ok(number) => Some(number),
        Err(_) => None,
    }
}

/// Whether the text begins with a minus.
pub(crate) fn is_negative(text: &[u8]) -> bool
    ensures value { result ≡ is_negative text.now }
{
    if text.is_empty() {
        return false;
    }
    text[0] == b'-'
}

/// What stands behind the sign of the text, if it begins with one.
pub(crate) fn past_sign(text: &[u8]) -> &[u8]
    ensures value { result.now ≡ past_sign text.now }
{
    if text.is_empty() {
        return text;
    }
    if is_either(text[0], b'-', b'+') {
        return &text[1..];
    }
    text
}

/// Whether the byte is one of two.
fn is_either(byte: u8, one: u8, other: u8) -> bool
    ensures value { result ≡ (byte == one || byte == other) }
{
    byte == one || byte == other
}

/// The size with its sign.
pub(crate) fn signed(negative: bool, size: u128) -> i128
    requires fits { size < 2 ^ 127 }
    ensures value { result ≡ signed negative size }
{
    if negative {
        return -(size as i128);
    }
    size as i128
}

/// A spelling of a number.
#[derive(Clone, Copy)]
struct Spelling<'a> {
    /// Whether it begins with a minus.
    negative: bool,
    /// The digits before its point.
    whole: &'a [u8],
    /// The digits behind its point.
    behind: &'a [u8],
    /// Its exponent.
    exponent: i128,
}

impl<'a> Spelling<'a> {
    /// The spelling that the text behind a sign is. None where it is no number.
    #[tactic(auto, unfolding(crate::specs::Numbers::spelling_of))]
    fn read(negative: bool, text: &'a [u8]) -> Option<Spelling<'a>>
        ensures value { option_map spelling_now result ≡ spelling_of negative text.now }
        ensures sign { IfSome result (λ s. s.negative ≡ negative) }
        ensures whole { IfSome result (λ s. IsTrue (list_all is_ascii_digit s.whole.now)) }
        ensures behind { IfSome result (λ s. IsTrue (list_all is_ascii_digit s.behind.now)) }
        ensures low { IfSome result (λ s. negsuc 999 ≤ℤ s.exponent) }
        ensures high { IfSome result (λ s. s.exponent ≤ℤ pos 1000) }
    {
        let (whole, rest) = cut_digits(text);
        let (behind, mark) = point_digits(rest);
        if are_none(whole, behind) {
            return None;
        }
        let exponent = exponent_of(mark)?;
        Some(Spelling {
            negative,
            whole,
            behind,
            exponent,
        })
    }
}

/// Whether there is no digit in either.
fn are_none(whole: &[u8], behind: &[u8]) -> bool
    ensures value { result ≡ is_end (whole.now ++ behind.now) }
{
    whole.is_empty() && behind.is_empty()
}

/// The digits behind a point at the head of the text, if it has one, and what stands behind them.
fn point_digits(text: &[u8]) -> (&[u8], &[u8])
    ensures digits { result.0.now ≡ point_digits text.now }
    ensures rest { result.1.now ≡ past_point text.now }
    ensures digits_alone { IsTrue (list_all is_ascii_digit result.0.now) }
{
    if text.is_empty() {
        return (text, text);
    }
    if text[0] != b'.' {
        return (&text[..0], text);
    }
    cut_digits(&text[1..])
}

/// The exponent that ends a number: 0 where the text ends. None where the text is anything else.
fn exponent_of(text: &[u8]) -> Option<i128>
    ensures value { result ≡ exponent_of text.now }
    ensures low { IfSome result (λ exponent. negsuc 999 ≤ℤ exponent) }
    ensures high { IfSome result (λ exponent. exponent ≤ℤ pos 1000) }
{
    if text.is_empty() {
        return Some(0);
    }
    if !is_either(text[0], b'e', b'E') {
        return None;
    }
    exponent_digits(&text[1..])
}

/// The number that an optional sign and one to three digits write. None where the text is anything
/// else.
fn exponent_digits(text: &[u8]) -> Option<i128>
    ensures value { result ≡ exponent_digits text.now }
    ensures low { IfSome result (λ exponent. negsuc 999 ≤ℤ exponent) }
    ensures high { IfSome result (λ exponent. exponent ≤ℤ pos 1000) }
{
    let size = last_number(past_sign(text), 3)?;
    Some(signed(is_negative(text), size as u128))
}

/// The number that a sign, digits before and behind a point, and an exponent write, if it is in its
/// bounds. It is computed at 64 bits where the significand has no more.
fn value_of(
    negative: bool,
    whole: &[u8],
    behind: &[u8],
    exponent: i128,
) -> Result<Frac, NumberFault>
    requires whole_digits { IsTrue (list_all is_ascii_digit whole.now) }
    requires digits_behind { IsTrue (list_all is_ascii_digit behind.now) }
    requires low { negsuc 999 ≤ℤ exponent }
    requires high { exponent ≤ℤ pos 1000 }
    ensures value { result ≡ spelled (Some (record {
      negative = negative;
      whole = whole.now;
      behind = behind.now;
      exponent = exponent;
    })) }
{
    if let Some(narrow) = NarrowSignificand::of(whole, behind) {
        let power = power_of(exponent, behind.len(), narrow.zeros as u128);
        return bounded(negative, narrow.number as u128, power);
    }
    long_value(negative, whole, behind, exponent)
}

/// The same at 128 bits, of digits of any significand.
fn long_value(
    negative: bool,
    whole: &[u8],
    behind: &[u8],
    exponent: i128,
) -> Result<Frac, NumberFault>
    requires whole_digits { IsTrue (list_all is_ascii_digit whole.now) }
    requires digits_behind { IsTrue (list_all is_ascii_digit behind.now) }
    requires low { negsuc 999 ≤ℤ exponent }
    requires high { exponent ≤ℤ pos 1000 }
    ensures value { result ≡ spelled (Some (record {
      negative = negative;
      whole = whole.now;
      behind = behind.now;
      exponent = exponent;
    })) }
{
    let front = Significand::of_none().with_digits(whole);
    match front.with_digits(behind) {
        Significand::Large => Err(NumberFault::TooLarge),
        Significand::Held(number, zeros) => {
            bounded(negative, number, power_of(exponent, behind.len(), zeros))
        }
    }
}

/// The power of ten of a significand with so many digits behind the point and so many zeros behind
/// it.
fn power_of(exponent: i128, behind: usize, zeros: u128) -> i128
    requires low { negsuc 999 ≤ℤ exponent }
    requires high { exponent ≤ℤ pos 1000 }
    requires few { zeros < 2 ^ 100 }
    ensures value { result ≡ exponent -ℤ pos behind +ℤ pos zeros }
{
    exponent - behind as i128 + zeros as i128
}

/// The number `number * 10^power` with its sign, if it is in its bounds.
fn bounded(negative: bool, number: u128, power: i128) -> Result<Frac, NumberFault>
    ensures value { result ≡ bounded negative number power }
{
    if number == 0 {
        return Ok(Frac::zero());
    }
    if power < -18 {
        return Err(NumberFault::TooLarge);
    }
    if power > 18 {
        return Err(NumberFault::TooLarge);
    }
    if number >= LARGE {
        return Err(NumberFault::TooLarge);
    }
    let places = places_of(power);
    if power < 0 {
        return lowered(negative, number, places);
    }
    raised(negative, number, places)
}

/// The number `number * 10^power` with its sign, if it fits.
fn raised(negative: bool, number: u128, power: u32) -> Result<Frac, NumberFault>
    requires some { 0 < number }
    requires most { power ≤ 18 }
    ensures value { result ≡ in_bounds (ratio (signed negative (number * 10 ^ power)) 1) }
{
    if number >= TWO_63 {
        return Err(NumberFault::TooLarge);
    }
    lowered(negative, number * 10u128.pow(power), 0)
}

/// The number `number / 10^places` with its sign, if it fits.
fn lowered(negative: bool, number: u128, places: u32) -> Result<Frac, NumberFault>
    requires number_fits { number < 2 ^ 127 }
    requires few { places ≤ 18 }
    ensures value { result ≡ in_bounds (ratio (signed negative number) (10 ^ places)) }
{
    if number >= TWO_63 {
        return in_bounds(negative, number, 10u128.pow(places));
    }
    decimal(signed(negative, number), places)
}

/// The number `digits / 10^places`, if it fits.
fn decimal(digits: i128, places: u32) -> Result<Frac, NumberFault>
    requires low { neg_ℤ (pos (2 ^ 63)) ≤ℤ digits }
    requires high { digits <ℤ pos (2 ^ 63) }
    ensures value { result ≡ in_bounds (ratio digits (10 ^ places)) }
{
    Frac::decimal(digits as i64, places).ok_or(NumberFault::TooLarge)
}

/// The ratio with its sign, if it fits.
fn in_bounds(negative: bool, number: u128, denominator: u128) -> Result<Frac, NumberFault>
    requires number_fits { number < 2 ^ 127 }
    requires denominator_fits { denominator < 2 ^ 127 }
    requires positive { 0 < denominator }
    ensures value { result ≡ in_bounds (ratio (signed negative number) denominator) }
{
    Frac::make(signed(negative, number), denominator as i128).ok_or(NumberFault::TooLarge)
}

/// The size of a power of ten.
fn places_of(power: i128) -> u32
    requires low { negsuc 17 ≤ℤ power }
    requires high { power ≤ℤ pos 18 }
    ensures value { result ≡ unsigned_abs power }
    ensures most { result ≤ 18 }
{
    power.unsigned_abs() as u32
}
