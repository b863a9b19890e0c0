//! The civil dates of days.
ghost use Rattle.std.specs.Prelude.{◌≡◌, ◌<◌, ◌≤◌};
ghost use Rattle.num_text.specs.CivilDays.{year_at, place_at, month_at, day_at};

use jiff_core::civil::Date as PlainDate;

/// The civil date of a day, and its place in its year.
#[derive(Clone, Copy)]
pub struct CivilDay {
    /// The year, from 1 to 9999.
    pub year: u32,
    /// The month, from 1 to 12.
    pub month: u32,
    /// The day of the month, from 1.
    pub day: u32,
    /// The place of the day in its year, from 1 to 366.
    pub place: u32,
}

/// The civil date of the day that is so many days after 0001-01-01, and its place in its year.
pub fn civil_day(days: u32) -> CivilDay
    requires early { days < 3_652_059 }
    ensures year { result.year ≡ year_at days }
    ensures month { result.month ≡ month_at days }
    ensures day { result.day ≡ day_at days }
    ensures place { result.place ≡ place_at days }
{
    let date = PlainDate::from_days_since_min(days + 3_652_425);
    let year = date.year as u32;
    CivilDay {
        year,
        month: date.month as u32,
        day: date.day as u32,
        place: place_in_year(days, year),
    }
}

/// The place in its year of a day that is so many days after 0001-01-01.
#[tactic(auto, unfolding(crate::specs::CivilDays::place_at))]
fn place_in_year(days: u32, year: u32) -> u32
    requires year { year ≡ year_at days }
    requires most { year ≤ 9_999 }
    ensures value { result ≡ place_at days }
{
    let before = year - 1;
    days - (365 * before + before / 4 - before / 100 + before / 400) + 1
}
