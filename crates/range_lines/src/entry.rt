//! What one line of a ranges file states.
ghost use Rattle.std.specs.Prelude.{◌≡◌, true, IfOk};
ghost use Rattle.num_text.specs.Numbers.{number_in};
ghost use Rattle.range_lines.specs.Entries.{is_not_negative as begins_at_zero, two_ends, ends_of, ends_if};
ghost use Rattle.range_lines.specs.Entries.{range_of as of_range, range_by, limit_of as of_limit};
ghost use Rattle.range_lines.specs.Entries.{limit_by, conflict_on as conflict_of, conflict_by};
ghost use Rattle.range_lines.specs.Entries.{moments_from as of_moments, moments_by, step_by};
ghost use Rattle.range_lines.specs.Entries.{dead_by, entry_by, entry_of};
ghost use Rattle.range_lines.specs.internal.Views.{known_now, texts};

use crate::fault::RangeCause;
use crate::known::{Known, find_key, find_link, find_rule};
use byte_edge::NoMemory;
use exact_fraction::frac::Frac;
use exact_fraction::moment::Moment;
use key_words::{read_attribute, read_object_word};
use num_text::moments::read_moment;
use num_text::numbers::number_in as read_number_in;
use num_text::steps::read_step;
use rule_types::{Attr, Key, ObjectWord};
use std::alloc::Global;
use verdict_meaning::Question;

/// What a line states.
#[derive(Clone, Copy, Debug)]
pub(crate) enum Entry {
    /// The range of a key, by its two ends.
    Range(Key, Frac, Frac),
    /// The first and the last moment.
    Moments(Moment, Moment),
    /// The step, in seconds.
    Step(Frac),
    /// A question.
    Asks(Question),
}

/// What a line states that begins with a word and has these items behind it, or its first fault.
#[tactic(auto, unfolding(crate::specs::Entries::entry_of))]
pub(crate) fn read_entry<'a>(
    alloc: Global,
    known: Known<'_>,
    word: &'a [u8],
    later: &'a [&'a [u8]],
) -> Result<Result<Entry, RangeCause>, NoMemory>
    ensures { IfOk result (λ read. read
        ≡ entry_of (known_now known.entry) word.now (texts later.now)) }
{
    match read_object_word(word) {
        Some(object) => range_line(alloc, known, object, later),
        None => other_line(alloc, known, word, later),
    }
}

/// What a line states that begins with a word that is no object's.
#[tactic(auto, unfolding(crate::specs::Entries::entry_by))]
fn other_line<'a>(
    alloc: Global,
    known: Known<'_>,
    word: &'a [u8],
    later: &'a [&'a [u8]],
) -> Result<Result<Entry, RangeCause>, NoMemory>
    ensures { IfOk result (λ read. read
        ≡ entry_by (known_now known.entry) word.now (texts later.now)) }
{
    if word.eq_ignore_ascii_case(b"MOMENT") {
        return Ok(moments_line(later));
    }
    if word.eq_ignore_ascii_case(b"STEP") {
        return Ok(step_line(later));
    }
    if word.eq_ignore_ascii_case(b"CONFLICT") {
        return conflict_line(alloc, known, later);
    }
    if word.eq_ignore_ascii_case(b"DEAD") {
        return dead_line(alloc, known, later);
    }
    if word.eq_ignore_ascii_case(b"LIMIT") {
        return limit_line(alloc, known, later);
    }
    Ok(Err(RangeCause::BadLine))
}

/// `OBJ id attribute LO HI`, behind the object's word.
#[tactic(auto, unfolding(crate::specs::Entries::range_by))]
fn range_line<'a>(
    alloc: Global,
    known: Known<'_>,
    word: ObjectWord,
    items: &'a [&'a [u8]],
) -> Result<Result<Entry, RangeCause>, NoMemory>
    ensures { IfOk result (λ read. read
        ≡ range_by (known_now known.entry) word (texts items.now)) }
{
    match items {
        [name, attribute, low, high] => {
            let Some(ends) = ends_of(attribute, low, high) else {
                return Ok(Err(RangeCause::BadLine));
            };
            match find_key(alloc, known, word, name, attribute)? {
                Some(key) => Ok(range_of(key, ends.0, ends.1)),
                None => Ok(Err(RangeCause::UnknownKey)),
            }
        }
        _ => Ok(Err(RangeCause::BadLine)),
    }
}

/// The two ends that items write, where the attribute can have them.
#[tactic(auto, unfolding(crate::specs::Entries::ends_of))]
fn ends_of(attribute: &[u8], low: &[u8], high: &[u8]) -> Option<(Frac, Frac)>
    ensures { result ≡ ends_of attribute.now low.now high.now }
{
    let ends = read_ends(low, high);
    if is_not_negative(read_attribute(attribute)) {
        return from_zero(ends);
    }
    ends
}

/// The two ends, where the lower one is not below 0.
fn from_zero(ends: Option<(Frac, Frac)>) -> Option<(Frac, Frac)>
    ensures { result ≡ ends_if true ends }
{
    let (low, high) = ends?;
    if low.is_less(&Frac::zero()) {
        return None;
    }
    Some((low, high))
}

/// The two numbers that items write.
fn read_ends(low: &[u8], high: &[u8]) -> Option<(Frac, Frac)>
    ensures { result ≡ two_ends (number_in low.now) (number_in high.now) }
{
    let low = read_number_in(low)?;
    let high = read_number_in(high)?;
    Some((low, high))
}

/// Whether values of an attribute are never below 0: SETTING, TIMEOPEN and TIMECLOSED.
fn is_not_negative(attribute: Option<Attr>) -> bool
    ensures { result ≡ begins_at_zero attribute }
{
    match attribute {
        Some(Attr::Setting | Attr::TimeOpen | Attr::TimeClosed) => true,
        _ => false,
    }
}

/// The range of a key, unless it is empty.
fn range_of(key: Key, low: Frac, high: Frac) -> Result<Entry, RangeCause>
    ensures { result ≡ of_range key (low, high) }
{
    if high.is_less(&low) {
        return Err(RangeCause::EmptyRange);
    }
    Ok(Entry::Range(key, low, high))
}

/// `MOMENT from to`, behind this word.
#[tactic(auto, unfolding(crate::specs::Entries::moments_by))]
fn moments_line<'a>(items: &'a [&'a [u8]]) -> Result<Entry, RangeCause>
    ensures { result ≡ moments_by (texts items.now) }
{
    match items {
        [first, last] => moments_from(read_moment(first), read_moment(last)),
        _ => Err(RangeCause::BadLine),
    }
}

/// The moments from one to another.
fn moments_from(first: Option<Moment>, last: Option<Moment>) -> Result<Entry, RangeCause>
    ensures { result ≡ of_moments first last }
{
    let Some(first) = first else {
        return Err(RangeCause::BadLine);
    };
    let Some(last) = last else {
        return Err(RangeCause::BadLine);
    };
    if last.seconds() < first.seconds() {
        return Err(RangeCause::EmptyRange);
    }
    Ok(Entry::Moments(first, last))
}

/// `STEP seconds`, behind this word.
#[tactic(auto, unfolding(crate::specs::Entries::step_by))]
fn step_line<'a>(items: &'a [&'a [u8]]) -> Result<Entry, RangeCause>
    ensures { result ≡ step_by (texts items.now) }
{
    match items {
        [step] => match read_step(step) {
            Some(step) => Ok(Entry::Step(step)),
            None => Err(RangeCause::BadLine),
        },
        _ => Err(RangeCause::BadLine),
    }
}

/// `CONFLICT rule rule link`, behind this word.
#[tactic(auto, unfolding(crate::specs::Entries::conflict_by))]
fn conflict_line<'a>(
    alloc: Global,
    known: Known<'_>,
    items: &'a [&'a [u8]],
) -> Result<Result<Entry, RangeCause>, NoMemory>
    ensures { IfOk result (λ read. read
        ≡ conflict_by (known_now known.entry) (texts items.now)) }
{
    match items {
        [first, second, link] => {
            let Some(first) = find_rule(alloc, known, first)? else {
                return Ok(Err(RangeCause::UnknownKey));
            };
            let Some(second) = find_rule(alloc, known, second)? else {
                return Ok(Err(RangeCause::UnknownKey));
            };
            if first == second {
                return Ok(Err(RangeCause::BadLine));
            }
            Ok(conflict_on(first, second, find_link(alloc, known, link)?))
        }
        _ => Ok(Err(RangeCause::BadLine)),
    }
}

/// The question whether two rules conflict on a link.
fn conflict_on(first: u32, second: u32, link: Option<u32>) -> Result<Entry, RangeCause>
    ensures { result ≡ conflict_of first second link }
{
    match link {
        Some(link) => Ok(Entry::Asks(Question::Conflict(first, second, link))),
        None => Err(RangeCause::UnknownKey),
    }
}

/// `DEAD rule`, behind this word.
#[tactic(auto, unfolding(crate::specs::Entries::dead_by))]
fn dead_line<'a>(
    alloc: Global,
    known: Known<'_>,
    items: &'a [&'a [u8]],
) -> Result<Result<Entry, RangeCause>, NoMemory>
    ensures { IfOk result (λ read. read ≡ dead_by (known_now known.entry) (texts items.now)) }
{
    match items {
        [rule] => match find_rule(alloc, known, rule)? {
            Some(rule) => Ok(Ok(Entry::Asks(Question::Dead(rule)))),
            None => Ok(Err(RangeCause::UnknownKey)),
        },
        _ => Ok(Err(RangeCause::BadLine)),
    }
}

/// `LIMIT link LO HI`, behind this word.
#[tactic(auto, unfolding(crate::specs::Entries::limit_by))]
fn limit_line<'a>(
    alloc: Global,
    known: Known<'_>,
    items: &'a [&'a [u8]],
) -> Result<Result<Entry, RangeCause>, NoMemory>
    ensures { IfOk result (λ read. read ≡ limit_by (known_now known.entry) (texts items.now)) }
{
    match items {
        [link, low, high] => {
            let Some(ends) = read_ends(low, high) else {
                return Ok(Err(RangeCause::BadLine));
            };
            match find_link(alloc, known, link)? {
                Some(link) => Ok(limit_of(link, ends.0, ends.1)),
                None => Ok(Err(RangeCause::UnknownKey)),
            }
        }
        _ => Ok(Err(RangeCause::BadLine)),
    }
}

/// The question whether a link stays between two settings, unless these are in the wrong order.
fn limit_of(link: u32, low: Frac, high: Frac) -> Result<Entry, RangeCause>
    ensures { result ≡ of_limit link (low, high) }
{
    if high.is_less(&low) {
        return Err(RangeCause::EmptyRange);
    }
    Ok(Entry::Asks(Question::Limit(link, low, high)))
}
