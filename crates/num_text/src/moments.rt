//! Moments.
ghost use Rattle.std.specs.Prelude.{◌≡◌, ◌+◌, ◌*◌, ◌<◌, ◌≤◌, ◌++◌, ◌≤ℤ◌, length, pos, neg_ℤ, IfSome, Some};
ghost use Rattle.num_text.specs.Written.{seconds_after_first, written_day, written_time, written_moment};
ghost use Rattle.std.specs.Option.{option_map};
ghost use Rattle.num_text.specs.Clocks.{moment_day, past_gap, seconds_at, moment_of};
ghost use Rattle.num_text.specs.internal.Views.{dated_now};

use crate::civil_days::civil_day;
use crate::clocks::{DAY, clock_below};
use crate::dates::{Dated, month_day_year, year_month_day};
use crate::fields::past;
use crate::short_text::ShortText;
use exact_fraction::moment::Moment;

/// A moment: `YYYY-MM-DD`, or month, day and year with slashes; a `T` or a space; and `h:mm` or
/// `h:mm:ss` below 24 hours. None exactly where the text is anything else, or the calendar has no
/// such day in a year from 1 to 9999.
#[tactic(auto, unfolding(crate::specs::Clocks::moment_of))]
pub fn read_moment(text: &[u8]) -> Option<Moment>
    ensures value { result ≡ moment_of text.now }
{
    let date = moment_day(text)?;
    let time = past_gap(date.rest)?;
    let second = clock_below(time, 2, DAY)?;
    moment_at(date.day, second as u32)
}

/// The day that a moment begins with, and what stands behind it.
fn moment_day(text: &[u8]) -> Option<Dated<'_>>
    ensures value { option_map dated_now result ≡ moment_day text.now }
    ensures low { IfSome result (λ found. neg_ℤ (pos 719_162) ≤ℤ found.day) }
    ensures high { IfSome result (λ found. found.day ≤ℤ pos 2_932_896) }
{
    if let Some(date) = year_month_day(text) {
        return Some(date);
    }
    month_day_year(text, b'/')
}

/// What stands behind the `T` or the space between the day and the time.
fn past_gap(text: &[u8]) -> Option<&[u8]>
    ensures value { option_map (λ rest. rest.now) result ≡ past_gap text.now }
{
    if let Some(rest) = past(b'T', text) {
        return Some(rest);
    }
    past(b' ', text)
}

/// The moment of a second of a day.
fn moment_at(day: i32, second: u32) -> Option<Moment>
    requires low { neg_ℤ (pos 719_162) ≤ℤ day }
    requires high { day ≤ℤ pos 2_932_896 }
    requires in_day { second < 86_400 }
    ensures value { result ≡ Some (seconds_at day second) }
{
    Moment::make(seconds_to(day, second))
}

/// The seconds from 1970-01-01T00:00:00 to a second of a day.
fn seconds_to(day: i32, second: u32) -> i64
    ensures value { result ≡ seconds_at day second }
{
    day as i64 * 86_400 + second as i64
}

/// The written moment, `YYYY-MM-DDThh:mm:ss`, which is 19 bytes.
#[tactic(auto, unfolding(crate::specs::Written::written_moment))]
pub fn moment_text(moment: Moment) -> ShortText
    ensures value { result ≡ written_moment moment }
    ensures long { length result ≡ 19 }
{
    let seconds = seconds_after_first(moment);
    let mut text = ShortText::new();
    push_day(&mut text, seconds / DAY);
    text.push(b'T');
    push_time(&mut text, seconds % DAY);
    text
}

/// The seconds from the first moment, 0001-01-01T00:00:00.
fn seconds_after_first(moment: Moment) -> u64
    ensures value { result ≡ seconds_after_first moment }
    ensures bound { result < 86_400 * 3_652_059 }
{
    (moment.seconds() + 62_135_596_800) as u64
}

/// Writes the day that is so many days after 0001-01-01, as `YYYY-MM-DD`.
fn push_day(text: &mut ShortText, days: u64)
    requires early { days < 3_652_059 }
    requires room { length text.old ≤ 31 }
    ensures value { text.new ≡ text.old ++ written_day days }
    ensures len { length text.new ≡ length text.old + 10 }
{
    let date = civil_day(days as u32);
    text.push_four(date.year as u64);
    text.push(b'-');
    text.push_two(date.month as u64);
    text.push(b'-');
    text.push_two(date.day as u64);
}

/// Writes a second of a day, as `hh:mm:ss`.
fn push_time(text: &mut ShortText, second: u64)
    requires room { length text.old ≤ 31 }
    ensures value { text.new ≡ text.old ++ written_time second }
    ensures len { length text.new ≡ length text.old + 8 }
{
    text.push_two(second / 3_600);
    text.push(b':');
    text.push_two(second / 60 % 60);
    text.push(b':');
    text.push_two(second % 60);
}
