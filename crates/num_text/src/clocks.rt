//! Times of the clock.
ghost use Rattle.std.specs.Prelude.{◌≡◌, ◌*◌, ◌<◌, ◌≤◌, ◌^◌, IfSome};
ghost use Rattle.num_text.specs.Fields.{last_number};
ghost use Rattle.num_text.specs.Clocks.{sixtieth, seconds_part, clock, clock_below};

use crate::fields::{Field, past};

/// The seconds of a day.
pub(crate) const DAY: u64 = 86_400;

/// The seconds of `h:mm` or `h:mm:ss`: one to seven digits of hours, and minutes and seconds of one
/// or two digits below 60 (the forms are those of the SWMM 5.2 manual, [OPTIONS]). None exactly
/// where the text is anything else.
pub fn read_clock(text: &[u8]) -> Option<u64>
    ensures value { result ≡ clock 7 text.now }
    ensures bound { IfSome result (λ second. second < 36_000_000_000) }
{
    clock(text, 7)
}

/// The seconds since midnight of a time of day below 24 hours, in the forms that `read_clock` reads
/// (the forms are those of the SWMM 5.2 manual, [OPTIONS]). None exactly where the text is anything
/// else.
pub fn read_day_time(text: &[u8]) -> Option<u64>
    ensures value { result ≡ clock_below 7 86_400 text.now }
    ensures bound { IfSome result (λ second. second < 86_400) }
{
    clock_below(text, 7, DAY)
}

/// The seconds of `h:mm` or `h:mm:ss`, of at most `most` digits of hours, where they are below
/// `limit`.
pub(crate) fn clock_below(text: &[u8], most: usize, limit: u64) -> Option<u64>
    requires seven { most ≤ 7 }
    ensures value { result ≡ clock_below most limit text.now }
    ensures bound { IfSome result (λ second. second < limit) }
{
    let second = clock(text, most)?;
    if second >= limit {
        return None;
    }
    Some(second)
}

/// The seconds of `h:mm` or `h:mm:ss`, of at most `most` digits of hours.
#[tactic(auto, unfolding(crate::specs::Clocks::clock))]
fn clock(text: &[u8], most: usize) -> Option<u64>
    requires seven { most ≤ 7 }
    ensures value { result ≡ clock most text.now }
    ensures bound { IfSome result (λ second. second < 3_600 * 10 ^ most) }
{
    let hours = Field::read(text, 1, most)?;
    let behind_hours = past(b':', hours.rest)?;
    let minutes = Field::read_below(behind_hours, 2, 60)?;
    let seconds = seconds_part(minutes.rest)?;
    Some(3_600 * hours.number + 60 * minutes.number + seconds)
}

/// The seconds behind hours and minutes: a colon and one or two digits below 60, or 0 where the
/// text ends.
#[tactic(auto, unfolding(crate::specs::Clocks::seconds_part))]
fn seconds_part(text: &[u8]) -> Option<u64>
    ensures value { result ≡ seconds_part text.now }
    ensures bound { IfSome result (λ second. second < 60) }
{
    if text.is_empty() {
        return Some(0);
    }
    let behind = past(b':', text)?;
    last_sixtieth(behind)
}

/// The one or two digits below 60 that the whole text is.
fn last_sixtieth(text: &[u8]) -> Option<u64>
    ensures value { result ≡ last_number (sixtieth text.now) }
    ensures bound { IfSome result (λ second. second < 60) }
{
    let found = Field::read_below(text, 2, 60)?;
    if !found.rest.is_empty() {
        return None;
    }
    Some(found.number)
}
