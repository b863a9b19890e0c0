//! The values of the clock.
ghost use Rattle.std.specs.Prelude.{◌≡◌, ◌<◌, ◌^◌, ◌≤ℤ◌, ◌<ℤ◌, ◌-ℤ◌, pos, neg_ℤ, unsigned_abs};
ghost use Rattle.std.specs.Int.{int_rem_euclid};
ghost use Rattle.exact_fraction.specs.Number.{whole as whole_number};
ghost use Rattle.num_text.specs.CivilDays.{days_after_first};
ghost use Rattle.rule_meaning.specs.Clock.{day_of, hours_of, month_of, week_day_of, year_day_of};
ghost use Rattle.rule_meaning.specs.Clock.{clock_value};

use exact_fraction::frac::Frac;
use exact_fraction::moment::Moment;
use num_text::civil_days::civil_day;
use rule_types::ClockAttr;

/// The seconds of a day.
const DAY: i64 = 86_400;

/// The value of an attribute of the clock at the moment `at` of a simulation that begins at
/// `start`: the hours since the start, the day number from 1970-01-01, the month from 1 for
/// January, the day of the week from 1 for Sunday, the hours since midnight, or the day of the year
/// from 1 for January 1 (SWMM 5.2 manual, [CONTROLS], SIMULATION). It takes no memory.
#[tactic(auto, unfolding(rule_meaning::specs::Clock::clock_value))]
pub fn clock_value(attribute: ClockAttr, start: Moment, at: Moment) -> Frac
    ensures value { result ≡ clock_value attribute start at }
{
    match attribute {
        ClockAttr::Time => hours_between(start, at),
        ClockAttr::Date => day_value(at),
        ClockAttr::Month => month_value(at),
        ClockAttr::Day => week_day_value(at),
        ClockAttr::ClockTime => clock_time(at),
        ClockAttr::DayOfYear => year_day_value(at),
    }
}

/// So many seconds in hours.
pub fn hours_of(seconds: i64) -> Frac
    requires fits { unsigned_abs seconds < 2 ^ 63 }
    ensures value { result ≡ hours_of seconds }
{
    match Frac::make(seconds as i128, 3_600) {
        Some(hours) => hours,
        None => Frac::zero(),
    }
}

/// The whole number `seconds`.
pub fn whole(seconds: i64) -> Frac
    requires fits { unsigned_abs seconds < 2 ^ 63 }
    ensures value { result ≡ whole_number seconds }
{
    match Frac::make(seconds as i128, 1) {
        Some(number) => number,
        None => Frac::zero(),
    }
}

/// The hours from one moment to another.
fn hours_between(start: Moment, at: Moment) -> Frac
    ensures value { result ≡ hours_of (at -ℤ start) }
{
    hours_of(at.seconds() - start.seconds())
}

/// The day number of a moment.
fn day_value(at: Moment) -> Frac
    ensures value { result ≡ whole_number (day_of at) }
{
    Frac::whole(day_of(at))
}

/// The month of a moment.
#[tactic(auto, unfolding(rule_meaning::specs::Clock::month_of))]
fn month_value(at: Moment) -> Frac
    ensures value { result ≡ whole_number (pos (month_of (day_of at))) }
{
    Frac::natural(civil_day(days_after_first(at)).month)
}

/// The day of the week of a moment.
fn week_day_value(at: Moment) -> Frac
    ensures value { result ≡ whole_number (pos (week_day_of (day_of at))) }
{
    Frac::natural(week_day_of(day_of(at)))
}

/// The hours since midnight.
fn clock_time(at: Moment) -> Frac
    ensures value { result ≡ hours_of (int_rem_euclid at (pos 86400)) }
{
    hours_of(second_of_day(at))
}

/// The place of a moment's day in its year.
#[tactic(auto, unfolding(rule_meaning::specs::Clock::year_day_of))]
fn year_day_value(at: Moment) -> Frac
    ensures value { result ≡ whole_number (year_day_of (day_of at)) }
{
    Frac::natural(civil_day(days_after_first(at)).place)
}

/// The day number of a moment, 0 for 1970-01-01.
fn day_of(at: Moment) -> i32
    ensures value { result ≡ day_of at }
    ensures low { neg_ℤ (pos 719162) ≤ℤ result }
    ensures high { result ≤ℤ pos 2932896 }
{
    at.seconds().div_euclid(DAY) as i32
}

/// How many days after 0001-01-01 a moment comes.
fn days_after_first(at: Moment) -> u32
    ensures value { result ≡ days_after_first (day_of at) }
    ensures early { result < 3652059 }
{
    (day_of(at) + 719_162) as u32
}

/// The seconds since midnight.
fn second_of_day(at: Moment) -> i64
    ensures value { result ≡ int_rem_euclid at (pos 86400) }
    ensures low { pos 0 ≤ℤ result }
    ensures high { result <ℤ pos 86400 }
{
    at.seconds().rem_euclid(DAY)
}

/// The day of the week of a day number, 1 for Sunday.
#[tactic(auto, unfolding(rule_meaning::specs::Clock::week_day_of, jiff_core::specs::Calendar::weekday_number,),)]
fn week_day_of(day: i32) -> u32
    requires low { neg_ℤ (pos 719162) ≤ℤ day }
    requires high { day ≤ℤ pos 2932896 }
    ensures value { result ≡ week_day_of day }
{
    let after_monday = (day + 3).rem_euclid(7) as u32;
    (after_monday + 1) % 7 + 1
}
