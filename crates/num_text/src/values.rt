//! Written values.
ghost use Rattle.std.specs.Prelude.{◌≡◌, ℕ, ◌+◌, ◌*◌, ◌/◌, ◌<◌, ◌≤◌, ◌≤ℤ◌, ◌<ℤ◌, ◌^◌, ◌++◌, List, length, Some, IfSome, IsTrue, ◌↔◌, pos, neg_ℤ, unsigned_abs};
ghost use Rattle.exact_fraction.specs.Number.{Rational, den, IsNumber};
ghost use Rattle.num_text.specs.Numbers.{without_end_zeros};
ghost use Rattle.num_text.specs.Written.{places};
ghost use Rattle.num_text.specs.Values.{written_sign, written_behind, written_units, written_size, written_value};

use crate::short_text::ShortText;
use crate::spelled::spelled_value;
use exact_fraction::frac::Frac;

/// How many units of 10^-18 are 1.
const UNITS: u64 = 1_000_000_000_000_000_000;

/// The written value of a number. Where the denominator divides 10^18: a minus if it is negative,
/// the whole part without leading zeros, and, where the number is not whole, a point and the
/// decimals without zeros at their end. Else the numerator, a slash and the denominator in lowest
/// terms.
#[tactic(auto, unfolding(crate::specs::Values::written_value))]
pub fn value_text(q: Frac) -> ShortText
    ensures value { result ≡ written_value q }
{
    let numerator = q.num();
    let denominator = q.den();
    if denominator == 1 && 0 <= numerator && numerator < 10 {
        return ShortText::of_digit(digit_of(numerator));
    }
    let mut text = sign_text(numerator);
    push_size(
        &mut text,
        numerator.unsigned_abs(),
        denominator.unsigned_abs(),
    );
    text
}

/// A number from 0 to 9 as a digit.
fn digit_of(number: i64) -> u8
    requires low { pos 0 ≤ℤ number }
    requires high { number <ℤ pos 10 }
    ensures value { result ≡ unsigned_abs number }
    ensures digit { result < 10 }
{
    number.unsigned_abs() as u8
}

/// The number whose written value the text is. None exactly where it is the written value of none.
pub fn read_value(text: &[u8]) -> Option<Frac>
    ensures written { IfSome result (λ q. written_value q ≡ text.now) }
    ensures held { IfSome result (λ q. IsNumber q) }
    ensures every { (q : Rational) → IsNumber q → written_value q ≡ text.now → result ≡ Some q }
{
    let value = spelled_value(text)?;
    if !is_same(value_text(value).as_bytes(), text) {
        return None;
    }
    Some(value)
}

/// Whether two texts are the same.
fn is_same(one: &[u8], other: &[u8]) -> bool
    ensures value { IsTrue result ↔ (one.now ≡ other.now) }
{
    one == other
}

/// A minus where the number is negative, and else nothing.
fn sign_text(number: i64) -> ShortText
    ensures value { result ≡ written_sign number }
    ensures len { length result ≤ 1 }
{
    let mut text = ShortText::new();
    if number < 0 {
        text.push(b'-');
        return text;
    }
    text
}

/// Writes a size over a denominator.
#[tactic(auto, unfolding(crate::specs::Values::written_size))]
fn push_size(text: &mut ShortText, size: u64, denominator: u64)
    requires room { length text.old ≤ 1 }
    requires size_fits { size < 2 ^ 63 }
    requires denominator_fits { denominator < 2 ^ 63 }
    requires positive { 0 < denominator }
    ensures value { text.new ≡ text.old ++ written_size size denominator }
{
    if UNITS % denominator == 0 {
        push_units(text, size as u128 * (UNITS / denominator) as u128);
        return;
    }
    text.push_number(size);
    text.push(b'/');
    text.push_number(denominator);
}

/// Writes so many units of 10^-18 as a decimal.
#[tactic(auto, unfolding(crate::specs::Values::written_units))]
fn push_units(text: &mut ShortText, units: u128)
    requires room { length text.old ≤ 1 }
    requires fits { units < 2 ^ 63 * 10 ^ 18 }
    ensures value { text.new ≡ text.old ++ written_units units }
{
    text.push_number((units / UNITS as u128) as u64);
    push_behind(text, (units % UNITS as u128) as u64);
}

/// Writes a point and 18 decimals without the zeros at their end, and nothing where they are all
/// zero.
fn push_behind(text: &mut ShortText, number: u64)
    requires room { length text.old ≤ 20 }
    requires few { number < 10 ^ 18 }
    ensures value { text.new ≡ text.old ++ written_behind (without_end_zeros (places 18 number)) }
{
    if number == 0 {
        return;
    }
    text.push(b'.');
    let decimals = Decimals::of(number);
    text.push_places(decimals.number, decimals.count);
}

/// Decimals that do not end with a zero.
#[derive(Clone, Copy)]
struct Decimals {
    /// The number that they write.
    number: u64,
    /// How many there are.
    count: usize,
}

impl Decimals {
    /// The 18 decimals of a number that is not 0, without the zeros at their end.
    fn of(number: u64) -> Decimals
        requires some { 0 < number }
        requires few { number < 10 ^ 18 }
        ensures value { places result.count result.number ≡ without_end_zeros (places 18 number) }
        ensures some { 0 < result.count }
        ensures most { result.count ≤ 18 }
    {
        let mut left = number;
        let mut count = 18;
        while left % 10 == 0 {
            left /= 10;
            count -= 1;
        }
        Decimals {
            number: left,
            count,
        }
    }
}
