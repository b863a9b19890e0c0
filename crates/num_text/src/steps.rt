//! Steps.
ghost use Rattle.std.specs.Prelude.{◌≡◌, ◌<◌, pos, Some, IfSome};
ghost use Rattle.exact_fraction.specs.Number.{whole};
ghost use Rattle.num_text.specs.Steps.{IsReadStep, positive, step_of, seconds_of, routing_step_of};

use crate::clocks::{DAY, clock_below};
use crate::pointed::decimal_up_to;
use crate::ratio::ratio_of;
use exact_fraction::frac::Frac;

/// A step in seconds, above 0 and at most a day: digits with or without a point and one to nine
/// decimals. None exactly where the text is anything else.
#[tactic(auto, unfolding(crate::specs::Steps::step_of))]
pub fn read_step(text: &[u8]) -> Option<Frac>
    ensures value { result ≡ step_of text.now }
    ensures bounds { IfSome result IsReadStep }
{
    let step = decimal_up_to(text, DAY)?;
    positive(step)
}

/// A routing step in seconds, above 0 and at most a day: digits with or without a point and one to
/// nine decimals, or `h:mm` or `h:mm:ss` with one to seven digits of hours and with minutes and
/// seconds below 60 (the forms are those of the SWMM 5.2 manual, [OPTIONS]). None exactly where the
/// text is anything else.
#[tactic(auto, unfolding(crate::specs::Steps::routing_step_of))]
pub fn read_routing_step(text: &[u8]) -> Option<Frac>
    ensures value { result ≡ routing_step_of text.now }
    ensures bounds { IfSome result IsReadStep }
{
    let step = seconds_of(text)?;
    positive(step)
}

/// The seconds of either form, at most a day.
fn seconds_of(text: &[u8]) -> Option<Frac>
    ensures value { result ≡ seconds_of text.now }
{
    if let Some(second) = clock_below(text, 7, DAY + 1) {
        return whole_of(second);
    }
    decimal_up_to(text, DAY)
}

/// A whole number of seconds.
fn whole_of(second: u64) -> Option<Frac>
    requires fits { second < 86_401 }
    ensures value { result ≡ Some (whole (pos second)) }
{
    ratio_of(second, 1)
}

/// The step, where it is above 0.
fn positive(step: Frac) -> Option<Frac>
    ensures value { result ≡ positive step }
{
    if step.num() <= 0 {
        return None;
    }
    Some(step)
}
