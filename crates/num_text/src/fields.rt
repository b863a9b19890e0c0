//! Numbers of digits in a text.
ghost use Rattle.std.specs.Prelude.{◌≡◌, ◌+◌, ◌<◌, ◌≤◌, ◌^◌, length, IsTrue, IfSome, Some, None, nat_le, if◌then◌else◌, take, drop};
ghost use Rattle.std.specs.Option.{option_map};
ghost use Rattle.std.specs.List.{list_all};
ghost use Rattle.std.specs.Char.{is_ascii_digit};
ghost use Rattle.std.specs.Str.Parse.{digits_value};
ghost use Rattle.num_text.specs.Fields.{leading_digits, past_digits, field, field_below, past, is_end, last_number};
ghost use Rattle.num_text.specs.internal.Views.{field_now};

/// How many digits the text begins with.
fn digit_count(text: &[u8]) -> usize
    ensures bound { result ≤ length text.now }
    ensures digits { take result text.now ≡ leading_digits text.now }
    ensures rest { drop result text.now ≡ past_digits text.now }
{
    for i in 0..text.len() {
        if !text[i].is_ascii_digit() {
            return i;
        }
    }
    text.len()
}

/// The digits that the text begins with, and what stands behind them.
pub(crate) fn cut_digits(text: &[u8]) -> (&[u8], &[u8])
    ensures digits { result.0.now ≡ leading_digits text.now }
    ensures rest { result.1.now ≡ past_digits text.now }
    ensures digits_alone { IsTrue (list_all is_ascii_digit result.0.now) }
{
    text.split_at(digit_count(text))
}

/// The number that at most 19 digits write, the highest first.
pub(crate) fn number_of(digits: &[u8]) -> u64
    requires few { length digits.now ≤ 19 }
    requires digits_alone { IsTrue (list_all is_ascii_digit digits.now) }
    ensures value { result ≡ digits_value 10 digits.now }
    ensures bound { result < 10 ^ length digits.now }
{
    let mut number: u64 = 0;
    for digit in digits {
        number = number * 10 + (*digit - b'0') as u64;
    }
    number
}

/// The number that digits write. None where it is more than `most`.
pub(crate) fn number_up_to(digits: &[u8], most: u64) -> Option<u64>
    requires digits_alone { IsTrue (list_all is_ascii_digit digits.now) }
    ensures value { result
        ≡ (if nat_le (digits_value 10 digits.now) most
        then Some (digits_value 10 digits.now) else None) }
{
    let mut number: u128 = 0;
    for digit in digits {
        number = number * 10 + (*digit - b'0') as u128;
        if number > most as u128 {
            return None;
        }
    }
    Some(number as u64)
}

/// A number at the head of a text, and what stands behind it.
#[derive(Clone, Copy)]
pub(crate) struct Field<'a> {
    /// The number.
    pub(crate) number: u64,
    /// What stands behind it.
    pub(crate) rest: &'a [u8],
}

impl<'a> Field<'a> {
    #[tactic(auto, unfolding(crate::specs::Fields::field))]
    /// The number of `least` to `most` digits that the text begins with. None where it begins with
    /// fewer or more.
    pub(crate) fn read(text: &'a [u8], least: usize, most: usize) -> Option<Field<'a>>
        requires few { most ≤ 19 }
        ensures value { option_map field_now result ≡ field least most text.now }
        ensures bound { IfSome result (λ found. found.number < 10 ^ most) }
    {
        let (digits, rest) = cut_digits(text);
        if digits.len() < least {
            return None;
        }
        if digits.len() > most {
            return None;
        }
        Some(Field {
            number: number_of(digits),
            rest,
        })
    }

    #[tactic(auto, unfolding(crate::specs::Fields::field_below))]
    /// The same of a number below `limit`.
    pub(crate) fn read_below(text: &'a [u8], most: usize, limit: u64) -> Option<Field<'a>>
        requires few { most ≤ 19 }
        ensures value { option_map field_now result ≡ field_below 1 most limit text.now }
        ensures bound { IfSome result (λ found. found.number < limit) }
    {
        let found = Field::read(text, 1, most)?;
        if found.number >= limit {
            return None;
        }
        Some(found)
    }
}

/// What stands behind `byte` at the head of the text. None where another byte stands there, or
/// none.
pub(crate) fn past(byte: u8, text: &[u8]) -> Option<&[u8]>
    ensures value { option_map (λ rest. rest.now) result ≡ past byte text.now }
{
    if text.is_empty() || text[0] != byte {
        return None;
    }
    Some(&text[1..])
}

/// The number of one to `most` digits that the whole text is.
pub(crate) fn last_number(text: &[u8], most: usize) -> Option<u64>
    requires few { most ≤ 19 }
    ensures value { result ≡ last_number (field 1 most text.now) }
    ensures bound { IfSome result (λ number. number < 10 ^ most) }
{
    let found = Field::read(text, 1, most)?;
    if !found.rest.is_empty() {
        return None;
    }
    Some(found.number)
}
