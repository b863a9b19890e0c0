//! Plain numbers that stand before a comma or at the end of a text, read in the walk to there.
ghost use Rattle.std.specs.Prelude.{◌≡◌, ◌∷◌, ◌<◌, ◌≤◌, ◌+◌, ◌*◌, ◌-◌, ◌^◌, true, IfSome, Ok, Some, pos};
ghost use Rattle.std.specs.Prelude.{length, take, option_map};
ghost use Rattle.std.specs.Char.{is_ascii_digit};
ghost use Rattle.std.specs.List.{list_all};
ghost use Rattle.std.specs.Str.Parse.{digits_value_after};
ghost use Rattle.exact_fraction.specs.Checked.{made};
ghost use Rattle.num_text.specs.Numbers.{number_of};
ghost use Rattle.trace_csv.specs.Fields.{field_input};
ghost use Rattle.trace_csv.specs.Records.{cut_at_commas, is_plain};
ghost use Rattle.trace_csv.specs.internal.Filling.{cut_behind, is_plain_behind};
ghost use Rattle.trace_csv.specs.internal.PlainNumbers.{is_part};

use crate::record::Cut;
use exact_fraction::frac::Frac;

/// 10^17, the least number behind which no digit is read.
const TEN_17: u64 = 100_000_000_000_000_000;

/// The first field of a text, which is a number, and the text behind the comma at its end, if it
/// has one; and the number.
#[derive(Clone, Copy)]
pub(crate) struct NumberCut<'a> {
    pub(crate) cut: Cut<'a>,
    pub(crate) number: Frac,
}

/// Cuts the first field off a text, where it is digits, with a point and further digits behind it
/// or without. None for all other texts, where the number does not fit, where its digits write
/// 10^18 or more, and where more than 18 of them stand behind the point. It reads each byte once.
pub(crate) fn next_number(text: &[u8]) -> Option<NumberCut<'_>>
    ensures cut { IfSome result (λ found. cut_at_commas text.now
        ≡ found.cut.field.now ∷ cut_behind (option_map (λ rest. rest.now) found.cut.behind)) }
    ensures plain { IfSome result (λ found.
        is_plain_behind (option_map (λ rest. rest.now) found.cut.behind) ≡ true
        → list_all is_plain text.now ≡ true) }
    ensures input { IfSome result (λ found.
        field_input found.cut.field.now ≡ Ok (Some found.number)) }
{
    let head = number_at_head(text)?;
    if head.end == text.len() {
        return Some(NumberCut {
            cut: Cut {
                field: text,
                behind: None,
            },
            number: head.number,
        });
    }
    if text[head.end] != b',' {
        return None;
    }
    Some(NumberCut {
        cut: Cut {
            field: &text[..head.end],
            behind: Some(&text[head.end + 1..]),
        },
        number: head.number,
    })
}

/// A number at the head of a text, and where it ends.
#[derive(Clone, Copy)]
struct Head {
    number: Frac,
    end: usize,
}

/// The number of the digits at the head of a text, with a point and the digits behind it, if a
/// point is there. None where there is no digit before the point, or the number is too large.
fn number_at_head(text: &[u8]) -> Option<Head>
    ensures within { IfSome result (λ head. head.end ≤ length text.now) }
    ensures parts { IfSome result (λ head. list_all is_part (take head.end text.now) ≡ true) }
    ensures number { IfSome result (λ head.
        number_of (take head.end text.now) ≡ Ok head.number) }
{
    let whole = digits_at_head(text, 0)?;
    if whole.count == 0 {
        return None;
    }
    if whole.count == text.len() {
        let number = decimal(whole.number, 0)?;
        return Some(Head {
            number,
            end: whole.count,
        });
    }
    if text[whole.count] != b'.' {
        let number = decimal(whole.number, 0)?;
        return Some(Head {
            number,
            end: whole.count,
        });
    }
    let behind = digits_at_head(&text[whole.count + 1..], whole.number)?;
    let number = decimal(behind.number, behind.count)?;
    Some(Head {
        number,
        end: whole.count + 1 + behind.count,
    })
}

/// The number that digits write, and how many there are.
#[derive(Clone, Copy)]
struct Digits {
    number: u64,
    count: usize,
}

/// The digits at the head of a text, behind digits that write `front`. None where they write 10^18
/// or more with these.
fn digits_at_head(text: &[u8], front: u64) -> Option<Digits>
    requires small { front < 10 ^ 18 }
    ensures within { IfSome result (λ digits. digits.count ≤ length text.now) }
    ensures alone { IfSome result (λ digits.
        list_all is_ascii_digit (take digits.count text.now) ≡ true) }
    ensures value { IfSome result (λ digits.
        digits.number ≡ digits_value_after 10 front (take digits.count text.now)) }
    ensures small { IfSome result (λ digits. digits.number < 10 ^ 18) }
{
    let mut number = front;
    for (at, byte) in text.iter().enumerate() {
        if !byte.is_ascii_digit() {
            return Some(Digits { number, count: at });
        }
        number = with_digit(number, *byte)?;
    }
    Some(Digits {
        number,
        count: text.len(),
    })
}

/// A number with one more digit behind. None where that is 10^18 or more.
fn with_digit(number: u64, digit: u8) -> Option<u64>
    requires least { 48 ≤ digit }
    requires most { digit ≤ 57 }
    ensures value { IfSome result (λ grown. grown ≡ number * 10 + (digit - 48)) }
    ensures small { IfSome result (λ grown. grown < 10 ^ 18) }
{
    if number >= TEN_17 {
        return None;
    }
    Some(number * 10 + (digit - b'0') as u64)
}

/// The number of digits, so many of them behind the point. None where it does not fit, or more than
/// 18 of them stand behind the point.
fn decimal(number: u64, places: usize) -> Option<Frac>
    requires small { number < 10 ^ 18 }
    ensures few { IfSome result (λ q. places ≤ 18) }
    ensures value { IfSome result (λ q. made (pos number) (pos (10 ^ places)) ≡ Some q) }
{
    if places > 18 {
        return None;
    }
    Frac::decimal(number as i64, places as u32)
}
