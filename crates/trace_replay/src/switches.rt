//! The switches of links.
ghost use Rattle.std.specs.Prelude.{◌≡◌, Some, if◌then◌else◌};
ghost use Rattle.rule_meaning.specs.Replay.{is_switch as switched};

use exact_fraction::frac::Frac;
use exact_fraction::moment::Moment;

/// Notes a moment as that of the last switch of a link where its setting switches it: the setting is
/// above 0 and was 0, or it is 0 and was above 0.
pub(crate) fn note_switch(switch: &mut Option<Moment>, was: &Frac, now: &Frac, moment: Moment)
    ensures { switch.new ≡ (if switched was.now now.now then Some moment else switch.old) }
{
    if is_switch(was, now) {
        *switch = Some(moment);
    }
}

/// Whether a link is switched.
fn is_switch(was: &Frac, now: &Frac) -> bool
    ensures { result ≡ switched was.now now.now }
{
    if was.is_zero() {
        return Frac::zero().is_less(now);
    }
    if now.is_zero() {
        return Frac::zero().is_less(was);
    }
    false
}
