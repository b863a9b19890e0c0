//! Values, moments and rules as words.
ghost use Rattle.std.specs.Prelude.{◌≡◌, ◌<◌, ◌^◌};
ghost use Rattle.report_lines.specs.Words.{value_of, written_moment_of, rule_place, place_if};

use exact_fraction::frac::Frac;
use exact_fraction::moment::Moment;
use num_text::counts::read_count;
use num_text::moments::{moment_text, read_moment};
use num_text::values::read_value;

/// The number whose written value a word is.
pub(crate) fn value_of(word: &[u8]) -> Option<Frac>
    ensures { result ≡ value_of word.now }
{
    read_value(word)
}

/// The moment that a word writes.
#[tactic(auto, unfolding(crate::specs::Words::written_moment_of))]
pub(crate) fn moment_of(word: &[u8]) -> Option<Moment>
    ensures { result ≡ written_moment_of word.now }
{
    let moment = read_moment(word)?;
    if moment_text(moment).as_bytes() == word {
        Some(moment)
    } else {
        None
    }
}

/// The place from 0 of the rule whose number a word is.
#[tactic(auto, unfolding(crate::specs::Words::rule_place))]
pub(crate) fn rule_place(rules: usize, word: &[u8]) -> Option<u32>
    requires few { rules < 2 ^ 32 }
    ensures { result ≡ rule_place rules word.now }
{
    place_if(rules, read_count(word)?)
}

/// The place of the rule of a number.
fn place_if(rules: usize, number: u64) -> Option<u32>
    requires few { rules < 2 ^ 32 }
    ensures { result ≡ place_if rules number }
{
    if number == 0 || (rules as u64) < number {
        return None;
    }
    Some((number - 1) as u32)
}
