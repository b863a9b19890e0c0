//! Numbers with no power of ten whose digits fit 64 bits, as most are: they are read in one pass.
ghost use Rattle.std.specs.Prelude.{◌≡◌, ℕ, ◌+◌, ◌-◌, ◌*◌, ◌<◌, ◌≤◌, ◌^◌, ◌++◌, List, IfSome, Some, Ok};
ghost use Rattle.std.specs.Prelude.{length, pos};
ghost use Rattle.std.specs.Str.Parse.{digits_value, digits_value_after};
ghost use Rattle.num_text.specs.Fields.{leading_digits, past_digits};
ghost use Rattle.num_text.specs.Numbers.{signed, spelled, number_of};

use crate::numbers::{is_negative, past_sign};
use exact_fraction::frac::Frac;

/// 2^63, the least whole number that does not fit.
const TWO_63: u64 = 9_223_372_036_854_775_808;

/// 10^18, behind which no digit is read.
const TEN_18: u64 = 1_000_000_000_000_000_000;

/// The number that the text writes, if it has no power of ten, at most 18 digits behind its point
/// and digits that write less than 2^63, and fits. None for all other texts.
pub(crate) fn plain_number(text: &[u8]) -> Option<Frac>
    ensures value { IfSome result (λ q. number_of text.now ≡ Ok q) }
{
    let digits = past_sign(text);
    let whole = Leading::read(digits, 0)?;
    if whole.rest.is_empty() {
        if digits.is_empty() {
            return None;
        }
        return decimal(is_negative(text), whole.number, 0);
    }
    if whole.rest[0] != b'.' {
        return None;
    }
    if digits.len() < 2 {
        return None;
    }
    let behind = &whole.rest[1..];
    let all = Leading::read(behind, whole.number)?;
    if !all.rest.is_empty() {
        return None;
    }
    decimal(is_negative(text), all.number, behind.len())
}

/// The number that the digits at the head of a text write, and what stands behind them.
#[derive(Clone, Copy)]
struct Leading<'a> {
    /// The number.
    number: u64,
    /// What stands behind the digits.
    rest: &'a [u8],
}

impl<'a> Leading<'a> {
    /// The number of the digits that the text begins with, behind digits that write `front`. None
    /// where it has more than 19 digits.
    fn read(text: &'a [u8], front: u64) -> Option<Leading<'a>>
        ensures number { IfSome result (λ leading. leading.number
            ≡ digits_value_after 10 front (leading_digits text.now)) }
        ensures rest { IfSome result (λ leading. leading.rest.now ≡ past_digits text.now) }
    {
        let mut number = front;
        for i in 0..text.len() {
            if !text[i].is_ascii_digit() {
                return Some(Leading {
                    number,
                    rest: &text[i..],
                });
            }
            number = with_digit(number, text[i])?;
        }
        Some(Leading {
            number,
            rest: &text[text.len()..],
        })
    }
}

/// The number with one more digit behind. None where the number has 18 digits already, or more.
fn with_digit(number: u64, digit: u8) -> Option<u64>
    requires least { 48 ≤ digit }
    ensures value { IfSome result (λ grown. grown ≡ number * 10 + (digit - 48)) }
{
    if number >= TEN_18 {
        return None;
    }
    Some(number * 10 + (digit - b'0') as u64)
}

/// The number of digits, so many of them behind the point, with its sign. None where it does not
/// fit, its digits write 2^63 or more, or more than 18 of them stand behind the point.
#[inline(always)]
fn decimal(negative: bool, number: u64, places: usize) -> Option<Frac>
    ensures value { IfSome result (λ q. (whole behind : List ℕ) → length behind ≡ places
        → digits_value 10 (whole ++ behind) ≡ number → spelled (Some (record {
          negative = negative;
          whole = whole;
          behind = behind;
          exponent = pos 0;
        })) ≡ Ok q) }
{
    if number >= TWO_63 {
        return None;
    }
    if places > 18 {
        return None;
    }
    Frac::decimal(signed(negative, number), places as u32)
}

/// The size with its sign.
fn signed(negative: bool, size: u64) -> i64
    requires fits { size < 2 ^ 63 }
    ensures value { result ≡ signed negative size }
{
    if negative {
        return -(size as i64);
    }
    size as i64
}
