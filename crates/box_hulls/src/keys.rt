//! What keys can be worth in a box.
ghost use Rattle.std.specs.Prelude.{◌≡◌, option_copied};
ghost use Rattle.rule_types.specs.declared.key.Key.TheVariants.{Object};
ghost use Rattle.verdict_meaning.specs.Reaches.{closed_reach, is_point_zero, is_zero_end, key_reach};
ghost use Rattle.verdict_meaning.specs.Reaches.{open_reach, piece_in, present, timer_reach};

use crate::clock::clock_hull;
use crate::operations::step_reach;
use exact_fraction::frac::Frac;
use exact_fraction::moment::Moment;
use exact_fraction::relation::Relation;
use interval_sets::{Bound, Interval};
use rule_types::{Attr, Key, ObjectNo};
use verdict_meaning::{Cell, Reach};

/// What a key can be worth at the states of a box, in a simulation that begins at `start`: nothing
/// is known of a key that the box does not have. It takes no memory, and time by the number of keys
/// of the box (SWMM 5.2 manual, [CONTROLS]).
#[tactic(auto, unfolding(verdict_meaning::specs::Reaches::key_reach))]
pub fn key_reach(start: &Moment, cell: &Cell, key: &Key) -> Reach
    ensures value { result ≡ key_reach start.now cell.now key.now }
{
    match key {
        Key::Object(object, attribute) => object_reach(start, cell, object, attribute),
        Key::Clock(attribute) => Reach::Within(true, clock_hull(attribute, start, &cell.moments)),
    }
}

/// The interval of a key in a list of keys with their intervals: that of the first entry with the
/// key, or None.
#[tactic(auto, unfolding(verdict_meaning::specs::Reaches::piece_in))]
pub fn piece_in(key: &Key, keys: &[(Key, Interval)]) -> Option<Interval>
    ensures value { result ≡ piece_in key.now keys.now }
{
    let mut rest = keys;
    'entries: while let Some((entry, more)) = rest.split_first() {
        if *key == entry.0 {
            return Some(entry.1);
        }
        rest = more;
    }
    None
}

/// What an attribute of an object can be worth.
#[tactic(auto, unfolding(verdict_meaning::specs::Reaches::key_reach))]
fn object_reach(start: &Moment, cell: &Cell, object: &ObjectNo, attribute: &Attr) -> Reach
    ensures value { result ≡ key_reach start.now cell.now (Object object.now attribute.now) }
{
    let keys = cell.keys.as_slice();
    match attribute {
        Attr::Status => step_reach(&present(piece_of(object, Attr::Setting, keys))),
        Attr::TimeOpen => open_reach(
            piece_of(object, Attr::Setting, keys),
            piece_of(object, Attr::TimeOpen, keys),
        ),
        Attr::TimeClosed => closed_reach(
            piece_of(object, Attr::Setting, keys),
            piece_of(object, Attr::TimeClosed, keys),
        ),
        other => present(piece_of(object, *other, keys)),
    }
}

/// The interval of an attribute of an object.
fn piece_of(object: &ObjectNo, attribute: Attr, keys: &[(Key, Interval)]) -> Option<Interval>
    ensures value { result ≡ piece_in (Object object.now attribute) keys.now }
{
    piece_in(&Key::Object(*object, attribute), keys)
}

/// What a key is that each state has.
fn present(piece: Option<Interval>) -> Reach
    ensures value { result ≡ present piece }
{
    match piece {
        None => Reach::Within(false, Interval::whole()),
        Some(piece) => Reach::Within(true, piece),
    }
}

/// TIMEOPEN, by the interval of SETTING.
fn open_reach(setting: Option<Interval>, timer: Option<Interval>) -> Reach
    ensures value { result ≡ open_reach setting timer }
{
    match setting {
        None => timer_reach(false, false, timer),
        Some(setting) => timer_reach(
            is_point_zero(&setting),
            !setting.holds(&Frac::zero()),
            timer,
        ),
    }
}

/// TIMECLOSED, by the interval of SETTING.
fn closed_reach(setting: Option<Interval>, timer: Option<Interval>) -> Reach
    ensures value { result ≡ closed_reach setting timer }
{
    match setting {
        None => timer_reach(false, false, timer),
        Some(setting) => timer_reach(
            !setting.holds(&Frac::zero()),
            is_point_zero(&setting),
            timer,
        ),
    }
}

/// A timer that is missing at every setting of the box, or present at every one, or neither.
fn timer_reach(missing: bool, sure: bool, timer: Option<Interval>) -> Reach
    ensures value { result ≡ timer_reach missing sure timer }
{
    if missing {
        return Reach::Missing;
    }
    match timer {
        None => Reach::Within(false, Interval::whole()),
        Some(piece) => Reach::Within(sure, piece),
    }
}

/// Whether an interval is the point 0.
fn is_point_zero(piece: &Interval) -> bool
    ensures value { result ≡ is_point_zero piece.now }
{
    is_zero_end(&piece.low) & is_zero_end(&piece.high)
}

/// Whether an end is 0 and not left out.
fn is_zero_end(at: &Bound) -> bool
    ensures value { result ≡ is_zero_end at.now }
{
    match at {
        Bound::Bound(p, false) => Relation::Eq.holds(p, &Frac::zero()),
        _ => false,
    }
}
