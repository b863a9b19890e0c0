//! The timers of links.
ghost use Rattle.std.specs.Prelude.{◌≡◌, length};
ghost use Rattle.rule_meaning.specs.History.{stayed};
ghost use Rattle.rule_meaning.specs.Replay.{counted_from as begins, timer_at, links_at};

use crate::hours::KnownHours;
use exact_fraction::frac::Frac;
use exact_fraction::moment::Moment;
use rule_types::LinkState;

/// Sets the timer of each link to the hours since its last switch, or since the start where it was
/// not switched yet; settings and targets stay. It takes no memory, and divides only seconds that are
/// not known in hours.
pub(crate) fn set_timers(
    links: &mut [LinkState],
    switches: &[Option<Moment>],
    known: &mut KnownHours,
    start: Moment,
    moment: Moment,
)
    requires each { length switches.now ≡ length links.old }
    ensures links { links.new ≡ links_at start moment (stayed links.old) switches.now }
{
    for at in (0..links.len()).rev() {
        let timer = timer_of(known, switches[at], start, moment);
        links[at].timer = timer;
    }
}

/// The timer of a link.
fn timer_of(known: &mut KnownHours, switch: Option<Moment>, start: Moment, moment: Moment) -> Frac
    ensures { result ≡ timer_at start switch moment }
{
    known.hours_of(moment.seconds() - counted_from(start, switch).seconds())
}

/// The moment from which a timer counts.
fn counted_from(start: Moment, switch: Option<Moment>) -> Moment
    ensures { result ≡ begins start switch }
{
    match switch {
        Some(switch) => switch,
        None => start,
    }
}
