//! Words of the clock's attributes.
ghost use Rattle.std.specs.Prelude.{◌≡◌};
ghost use Rattle.key_words.specs.Words.{clock_text, clock_attribute};

use rule_types::ClockAttr;

/// The attribute of SIMULATION that an item is, ignoring the case of ASCII letters: None exactly
/// where it is none (SWMM 5.2 manual, [CONTROLS]).
#[tactic(auto, unfolding(crate::specs::Words::clock_attribute))]
pub fn read_clock_attribute(item: &[u8]) -> Option<ClockAttr>
    ensures value { result ≡ clock_attribute item.now }
{
    if item.eq_ignore_ascii_case(b"TIME") {
        return Some(ClockAttr::Time);
    }
    if item.eq_ignore_ascii_case(b"DATE") {
        return Some(ClockAttr::Date);
    }
    if item.eq_ignore_ascii_case(b"MONTH") {
        return Some(ClockAttr::Month);
    }
    if item.eq_ignore_ascii_case(b"DAY") {
        return Some(ClockAttr::Day);
    }
    if item.eq_ignore_ascii_case(b"CLOCKTIME") {
        return Some(ClockAttr::ClockTime);
    }
    if item.eq_ignore_ascii_case(b"DAYOFYEAR") {
        return Some(ClockAttr::DayOfYear);
    }
    None
}

/// The text of an attribute of SIMULATION.
pub fn clock_attribute_text(attribute: ClockAttr) -> &'static [u8]
    ensures value { result.now ≡ clock_text attribute }
{
    match attribute {
        ClockAttr::Time => b"TIME",
        ClockAttr::Date => b"DATE",
        ClockAttr::Month => b"MONTH",
        ClockAttr::Day => b"DAY",
        ClockAttr::ClockTime => b"CLOCKTIME",
        ClockAttr::DayOfYear => b"DAYOFYEAR",
    }
}
