//! Moments with the texts that they are written as.
ghost use Rattle.std.specs.Prelude.{◌≡◌, ◌++◌, ◌∷◌, [], ◌<◌, ◌+ℤ◌, ◌-ℤ◌, pos, take, IfSome, IsTrue, if◌then◌else◌, Some, None};
ghost use Rattle.std.specs.Int.{w64, to_le_bytes};
ghost use Rattle.exact_fraction.specs.Moments.{IsMoment, moment_at};
ghost use Rattle.num_text.specs.Clocks.{moment_of};
ghost use Rattle.num_text.specs.Written.{places, written_time, written_moment};
ghost use Rattle.num_text.specs.Written.{seconds_after_first as after_first};

use exact_fraction::moment::Moment;
use num_text::moments::{moment_text, read_moment};
use std::marker::Model;

/// A moment with the text that it is written as, `YYYY-MM-DDThh:mm:ss`. To read the next moment
/// costs little where it is written so too and lies in the same day.
#[derive(Drop)]
pub struct WrittenMoment {
    text: [u8; 19],
    moment: Moment,
}

impl Model for WrittenMoment {
    ghost use Rattle.std.specs.Prelude.{ℤ, ◌≡◌};
    ghost use Rattle.num_text.specs.Written.{written_moment};

    ghost Value = { ℤ };

    ghost view = { λ w. w.moment };

    ghost invariant = { λ w. w.text ≡ written_moment w.moment };
}

impl WrittenMoment {
    /// 1970-01-01T00:00:00.
    #[tactic(auto, using(crate::proofs::SameDay::epoch_written), unfolding(exact_fraction::specs::Moments::moment_at))]
    pub fn epoch() -> WrittenMoment
        ensures value { result ≡ pos 0 }
    {
        let moment = Moment::make(0).unwrap();
        let mut text = [0; 19];
        text.copy_from_slice(b"1970-01-01T00:00:00");
        WrittenMoment { text, moment }
    }

    /// The moment with its text.
    pub fn of(moment: Moment) -> WrittenMoment
        ensures value { result ≡ moment }
    {
        let written = moment_text(moment);
        let mut text = [0; 19];
        text.copy_from_slice(written.as_bytes());
        WrittenMoment { text, moment }
    }

    /// The moment.
    pub fn moment(&self) -> Moment
        ensures value { result ≡ self.now }
    {
        self.moment
    }

    /// The text, `YYYY-MM-DDThh:mm:ss`.
    pub fn as_bytes(&self) -> &[u8]
        ensures value { result.now ≡ written_moment self.now }
    {
        &self.text
    }

    /// Takes the moment that a text is. False exactly where it is none.
    pub(crate) fn read(&mut self, text: &[u8]) -> bool
        ensures value { moment_of text.now ≡ (if result then Some self.new else None) }
    {
        if self.read_in_day(text) {
            return true;
        }
        match read_moment(text) {
            Some(moment) => {
                *self = WrittenMoment::of(moment);
                true
            }
            None => false,
        }
    }

    /// Takes the moment that a text is, if it is written as a moment of the same day. Where it is
    /// not, all is as before.
    pub(crate) fn read_in_day(&mut self, text: &[u8]) -> bool
        ensures text { IsTrue result → text.now ≡ written_moment self.new }
        ensures read { IsTrue result → moment_of text.now ≡ Some self.new }
    {
        if text.len() != 19 {
            return false;
        }
        let (date, time) = text.split_at(11);
        if !is_same(date, &self.text[..11]) {
            return false;
        }
        let Some(second) = second_of_day(time) else {
            return false;
        };
        let Some(moment) = moment_in_day(self.moment, second) else {
            return false;
        };
        self.text.copy_from_slice(text);
        self.moment = moment;
        true
    }
}

/// Whether two texts are the same 11 bytes.
fn is_same(one: &[u8], other: &[u8]) -> bool
    ensures value { IsTrue result → one.now ≡ other.now }
{
    if one.len() != 11 {
        return false;
    }
    if other.len() != 11 {
        return false;
    }
    let (front, back) = one.split_at(8);
    let (other_front, other_back) = other.split_at(8);
    if !are_same_eight(front, other_front) {
        return false;
    }
    are_same_three(back, other_back)
}

/// Whether two texts are the same eight bytes, which are compared as numbers.
fn are_same_eight(one: &[u8], other: &[u8]) -> bool
    ensures value { IsTrue result → one.now ≡ other.now }
{
    let Some(number) = number_of_eight(one) else {
        return false;
    };
    let Some(second) = number_of_eight(other) else {
        return false;
    };
    number == second
}

/// The number that eight bytes are, the lowest first. None for all other texts.
fn number_of_eight(text: &[u8]) -> Option<u64>
    ensures value { IfSome result (λ number. to_le_bytes w64 number ≡ text.now) }
{
    let bytes = text.as_array::<8>()?;
    Some(u64::from_le_bytes(*bytes))
}

/// Whether two texts are the same three bytes.
fn are_same_three(one: &[u8], other: &[u8]) -> bool
    ensures value { IsTrue result → one.now ≡ other.now }
{
    let [first, second, third] = one else {
        return false;
    };
    let [first_other, second_other, third_other] = other else {
        return false;
    };
    *first == *first_other && *second == *second_other && *third == *third_other
}

/// The moment of a second of the day of a moment.
fn moment_in_day(moment: Moment, second: u32) -> Option<Moment>
    requires in_day { second < 86_400 }
    ensures range { IfSome result (λ found. IsMoment found) }
    ensures written { IfSome result (λ found.
        written_moment found ≡ take 11 (written_moment moment) ++ written_time second) }
{
    let since_midnight = seconds_after_first(moment) % 86_400;
    moved(moment, since_midnight, second)
}

/// The moment so many seconds back, and then so many forth.
fn moved(moment: Moment, back: u64, forth: u32) -> Option<Moment>
    requires back { back < 86_400 }
    requires forth { forth < 86_400 }
    ensures value { result ≡ moment_at (moment -ℤ pos back +ℤ pos forth) }
    ensures range { IfSome result (λ found. IsMoment found) }
{
    Moment::make(moment.seconds() - back as i64 + forth as i64)
}

/// The seconds from the first moment, 0001-01-01T00:00:00.
fn seconds_after_first(moment: Moment) -> u64
    ensures value { result ≡ after_first moment }
    ensures known { IsMoment moment }
{
    (moment.seconds() + 62_135_596_800) as u64
}

/// The second of a day that a text is written as, `hh:mm:ss`. None for all other texts.
fn second_of_day(text: &[u8]) -> Option<u32>
    ensures in_day { IfSome result (λ second. second < 86_400) }
    ensures written { IfSome result (λ second. written_time second ≡ text.now) }
{
    let [a, b, c, d, e, f, g, h] = text else {
        return None;
    };
    if *c != b':' {
        return None;
    }
    if *f != b':' {
        return None;
    }
    let hour = number_below(*a, *b, 24)?;
    let minute = number_below(*d, *e, 60)?;
    let second = number_below(*g, *h, 60)?;
    Some(3_600 * hour + 60 * minute + second)
}

/// The number that two digits write, if it is below a limit of at most 100.
#[tactic(auto, unfolding(num_text::specs::Written::places))]
fn number_below(tens: u8, ones: u8, limit: u32) -> Option<u32>
    ensures below { IfSome result (λ number. number < limit) }
    ensures written { IfSome result (λ number. places 2 number ≡ tens ∷ ones ∷ []) }
{
    if !tens.is_ascii_digit() {
        return None;
    }
    if !ones.is_ascii_digit() {
        return None;
    }
    let number = (tens - b'0') as u32 * 10 + (ones - b'0') as u32;
    if number >= limit {
        return None;
    }
    Some(number)
}
