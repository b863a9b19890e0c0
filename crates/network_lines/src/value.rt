//! Values as items write them.
ghost use Rattle.std.specs.Prelude.{◌≡◌};
ghost use Rattle.control_lines.specs.Views.{checked_now};
ghost use Rattle.num_text.specs.Numbers.{number_of};
ghost use Rattle.network_lines.specs.Values.{value_as, wrong_cause as cause_of, value_read};
ghost use Rattle.network_lines.specs.Values.{if_not_negative};

use control_lines::Fault;
use exact_fraction::frac::Frac;
use key_words::read_status_word;
use num_text::dates::{read_date, read_day_of_year};
use num_text::error::NumberFault;
use num_text::numbers::{number_in, read_number};
use num_text::times::{read_hours, read_time};
use rule_types::Cause;

/// What an item is to write (SWMM 5.2 manual, [CONTROLS]).
#[derive(Clone, Copy, PartialEq, Eq)]
pub enum ValueKind {
    /// A status word.
    Status,
    /// A time in hours.
    Time,
    /// A date.
    Date,
    /// A day of the year.
    DayOfYear,
    /// A number.
    Number,
    /// A number that is no less than 0.
    Setting,
    /// The hours that a link takes to open or close fully.
    TravelTime,
}

/// The value of a kind that an item writes: a status as its setting, times in hours, a date as its
/// day number, a day of the year as its place in the year. NumberTooLarge where it writes none and
/// is a number that is too large, and else WrongValue; both are reported of the item (the forms are
/// those of the SWMM 5.2 manual, [CONTROLS]).
#[tactic(auto, unfolding(crate::specs::Values::value_read))]
pub fn read_value<'a>(kind: ValueKind, item: &'a [u8]) -> Result<Frac, Fault<'a>>
    ensures value { checked_now result ≡ value_read kind item.now }
{
    match value_in(kind, item) {
        Some(number) => Ok(number),
        None => Err(Fault {
            cause: wrong_cause(item),
            token: item,
        }),
    }
}

/// The value of a kind that an item writes, if there is one.
fn value_in(kind: ValueKind, item: &[u8]) -> Option<Frac>
    ensures { result ≡ value_as kind item.now }
{
    match kind {
        ValueKind::Status => {
            let word = read_status_word(item)?;
            Some(word.setting())
        }
        ValueKind::Time => read_time(item),
        ValueKind::Date => {
            let day = read_date(item)?;
            Some(Frac::whole(day))
        }
        ValueKind::DayOfYear => {
            let day = read_day_of_year(item)?;
            Some(Frac::natural(u32::from(day)))
        }
        ValueKind::Number => number_in(item),
        ValueKind::Setting => {
            let number = number_in(item)?;
            not_negative(number)
        }
        ValueKind::TravelTime => read_hours(item),
    }
}

/// The number, where it is no less than 0.
fn not_negative(number: Frac) -> Option<Frac>
    ensures { result ≡ if_not_negative number }
{
    if number.is_less(&Frac::zero()) {
        None
    } else {
        Some(number)
    }
}

/// Why an item that is no value of its kind is refused.
fn wrong_cause(item: &[u8]) -> Cause
    ensures { result ≡ cause_of (number_of item.now) }
{
    match read_number(item) {
        Err(NumberFault::TooLarge) => Cause::NumberTooLarge,
        _ => Cause::WrongValue,
    }
}
