//! Dates and days of a year.
ghost use Rattle.std.specs.Prelude.{◌≡◌, ◌<◌, ◌≤◌, ◌≤ℤ◌, pos, neg_ℤ, IfSome};
ghost use Rattle.std.specs.Option.{option_map};
ghost use Rattle.num_text.specs.Dates.{is_day, day_number, month_day_year, year_month_day, last_day, date_of, place_in_year, month_and_day, day_by_number, day_of_year_of};
ghost use Rattle.num_text.specs.internal.Views.{dated_now};

use crate::fields::{Field, last_number, past};
use jiff::civil::Date;

/// The day number of a date, 0 for 1970-01-01: month, day and year of one or two, one or two and
/// four digits, with `/` or with `-` between them (the form is that of the SWMM 5.2 manual, dates
/// of the input file). None exactly where the text is anything else, or the calendar has no such
/// day in a year from 1 to 9999.
pub fn read_date(text: &[u8]) -> Option<i32>
    ensures value { result ≡ date_of text.now }
    ensures low { IfSome result (λ day. neg_ℤ (pos 719_162) ≤ℤ day) }
    ensures high { IfSome result (λ day. day ≤ℤ pos 2_932_896) }
{
    if let Some(day) = whole_date(text, b'/') {
        return Some(day);
    }
    whole_date(text, b'-')
}

/// The place of a day in a year, from 1: `month/day` of one or two digits each, counted in a year
/// of 365 days, or one to three digits from 1 to 366 (the forms are those of the SWMM 5.2 manual,
/// control rules). None exactly where the text is anything else.
pub fn read_day_of_year(text: &[u8]) -> Option<u16>
    ensures value { result ≡ day_of_year_of text.now }
{
    if let Some(day) = month_and_day(text) {
        return Some(day);
    }
    day_by_number(text)
}

/// The day number of a text that is month, day and year, with this separator between them, and
/// nothing more.
fn whole_date(text: &[u8], separator: u8) -> Option<i32>
    ensures value { result ≡ last_day (month_day_year separator text.now) }
    ensures low { IfSome result (λ day. neg_ℤ (pos 719_162) ≤ℤ day) }
    ensures high { IfSome result (λ day. day ≤ℤ pos 2_932_896) }
{
    let found = month_day_year(text, separator)?;
    if !found.rest.is_empty() {
        return None;
    }
    Some(found.day)
}

/// A day at the head of a text, and what stands behind it.
#[derive(Clone, Copy)]
pub(crate) struct Dated<'a> {
    /// The day number, 0 for 1970-01-01.
    pub(crate) day: i32,
    /// What stands behind it.
    pub(crate) rest: &'a [u8],
}

/// The day that the text begins with as month, day and year, with this separator between them.
#[tactic(auto, unfolding(crate::specs::Dates::month_day_year))]
pub(crate) fn month_day_year(text: &[u8], separator: u8) -> Option<Dated<'_>>
    ensures value { option_map dated_now result ≡ month_day_year separator text.now }
    ensures low { IfSome result (λ found. neg_ℤ (pos 719_162) ≤ℤ found.day) }
    ensures high { IfSome result (λ found. found.day ≤ℤ pos 2_932_896) }
{
    let month = Field::read(text, 1, 2)?;
    let behind_month = past(separator, month.rest)?;
    let day = Field::read(behind_month, 1, 2)?;
    let behind_day = past(separator, day.rest)?;
    let year = Field::read(behind_day, 4, 4)?;
    let number = number_of_day(year.number as u32, month.number as u32, day.number as u32)?;
    Some(Dated {
        day: number,
        rest: year.rest,
    })
}

/// The day that the text begins with as year, month and day, with hyphens between them.
#[tactic(auto, unfolding(crate::specs::Dates::year_month_day))]
pub(crate) fn year_month_day(text: &[u8]) -> Option<Dated<'_>>
    ensures value { option_map dated_now result ≡ year_month_day text.now }
    ensures low { IfSome result (λ found. neg_ℤ (pos 719_162) ≤ℤ found.day) }
    ensures high { IfSome result (λ found. found.day ≤ℤ pos 2_932_896) }
{
    let year = Field::read(text, 4, 4)?;
    let behind_year = past(b'-', year.rest)?;
    let month = Field::read(behind_year, 2, 2)?;
    let behind_month = past(b'-', month.rest)?;
    let day = Field::read(behind_month, 2, 2)?;
    let number = number_of_day(year.number as u32, month.number as u32, day.number as u32)?;
    Some(Dated {
        day: number,
        rest: day.rest,
    })
}

/// The day number of a year, month and day, 0 for 1970-01-01. None where the calendar has no such
/// day.
fn number_of_day(year: u32, month: u32, day: u32) -> Option<i32>
    requires year_of_four { year < 10_000 }
    requires month_of_two { month < 100 }
    requires day_of_two { day < 100 }
    ensures value { result ≡ day_number year month day }
    ensures low { IfSome result (λ number. neg_ℤ (pos 719_162) ≤ℤ number) }
    ensures high { IfSome result (λ number. number ≤ℤ pos 2_932_896) }
{
    if year == 0 {
        return None;
    }
    let Ok(date) = Date::new(year as i16, month as i8, day as i8) else {
        return None;
    };
    Some(date.to_plain().to_unix_epoch_day())
}

/// The place in a year of 365 days that a text writes as month and day with a slash between.
#[tactic(auto, unfolding(crate::specs::Dates::month_and_day))]
fn month_and_day(text: &[u8]) -> Option<u16>
    ensures value { result ≡ month_and_day text.now }
{
    let month = Field::read(text, 1, 2)?;
    let behind_month = past(b'/', month.rest)?;
    let day = last_number(behind_month, 2)?;
    place_in_year(month.number as u32, day as u32)
}

/// The place of a month and day in a year of 365 days. None where that year has no such day.
fn place_in_year(month: u32, day: u32) -> Option<u16>
    requires month_of_two { month < 100 }
    requires day_of_two { day < 100 }
    ensures value { result ≡ place_in_year month day }
{
    let Ok(date) = Date::new(2001, month as i8, day as i8) else {
        return None;
    };
    Some(date.to_plain().day_of_year())
}

/// The day from 1 to 366 that a text writes with one to three digits.
#[tactic(auto, unfolding(crate::specs::Dates::day_by_number))]
fn day_by_number(text: &[u8]) -> Option<u16>
    ensures value { result ≡ day_by_number text.now }
{
    let day = last_number(text, 3)?;
    if day < 1 || day > 366 {
        return None;
    }
    Some(day as u16)
}
