//! Time values, and hours.
ghost use Rattle.std.specs.Prelude.{◌≡◌, IfSome};
ghost use Rattle.num_text.specs.Times.{IsReadHours, IsReadTime, hours_in_digits, time_of};

use crate::clocks::clock_below;
use crate::pointed::decimal_up_to;
use crate::ratio::ratio_of;
use exact_fraction::frac::Frac;

/// The most hours of a time value, and of the time to open or close an orifice.
const MOST_HOURS: u64 = 1_000_000;

/// The hours of a time value: digits with or without a point and one to nine decimals, or `h:mm` or
/// `h:mm:ss` with one to seven digits of hours and with minutes and seconds below 60 (the forms are
/// those of the SWMM 5.2 manual, times of the control rules). None exactly where the text is
/// anything else, or more than a million hours.
pub fn read_time(text: &[u8]) -> Option<Frac>
    ensures value { result ≡ time_of text.now }
    ensures bounds { IfSome result IsReadTime }
{
    if let Some(second) = clock_below(text, 7, 3_600 * MOST_HOURS + 1) {
        return ratio_of(second, 3_600);
    }
    read_hours(text)
}

/// The hours of digits with or without a point and one to nine decimals, as the time to open or
/// close an orifice is written
/// None exactly where the text is anything else, or more than a million hours.
pub fn read_hours(text: &[u8]) -> Option<Frac>
    ensures value { result ≡ hours_in_digits text.now }
    ensures bounds { IfSome result IsReadHours }
{
    decimal_up_to(text, MOST_HOURS)
}
