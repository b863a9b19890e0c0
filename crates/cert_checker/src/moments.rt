//! The moments of a box that is split at a moment.
ghost use Rattle.std.specs.Prelude.{◌≡◌, ◌&&◌, pos, ◌-ℤ◌, int_le, false, MatchOption};

use exact_fraction::moment::Moment;

/// Whether a moment lies between a first and a last one.
pub(crate) fn lies_between(first: &Moment, moment: &Moment, last: &Moment) -> bool
    ensures value { result
        ≡ (int_le first.now moment.now && int_le moment.now last.now) }
{
    (first.seconds() <= moment.seconds()) & (moment.seconds() <= last.seconds())
}

/// The second before a moment, or None where that lies before a first one.
pub(crate) fn second_before(first: &Moment, moment: &Moment) -> Option<Moment>
    ensures before { MatchOption result (int_le first.now (moment.now -ℤ pos 1) ≡ false)
        (λ last. last ≡ moment.now -ℤ pos 1) }
{
    if moment.seconds() <= first.seconds() {
        return None;
    }
    Moment::make(number_before(moment))
}

/// The number of the second before a moment.
fn number_before(moment: &Moment) -> i64
    ensures value { result ≡ moment.now -ℤ pos 1 }
{
    moment.seconds() - 1
}

/// Whether a moment is before another or is that one.
pub(crate) fn is_in_order(first: &Moment, last: &Moment) -> bool
    ensures value { result ≡ int_le first.now last.now }
{
    first.seconds() <= last.seconds()
}
