//! Whether a state lies in ranges.
ghost use Rattle.std.specs.Prelude.{◌≡◌, ◌↔◌, IsTrue};
ghost use Rattle.std.specs.List.{list_all};
ghost use Rattle.rule_types.specs.Fitting.{FitsRules};
ghost use Rattle.rule_types.specs.WellFormed.{WellFormed};
ghost use Rattle.state_checker.specs.Inside.{LiesInside, entry_fits, is_target_in};
ghost use Rattle.state_checker.specs.Inside.{is_timer, value_fits};

use crate::clock::{has_step, is_in_moments};
use crate::links::link_state;
use crate::values::key_value;
use exact_fraction::frac::Frac;
use interval_sets::Interval;
use rule_types::{Attr, Key, Rules, State};
use verdict_meaning::Cell;

/// Whether a state is one of the ranges whose first box this is.
pub(crate) fn is_in_ranges(rules: &Rules, cell: &Cell, state: &State) -> bool
    requires formed { WellFormed rules.now }
    requires fits { FitsRules rules.now state.now }
    ensures exact { IsTrue result ↔ LiesInside rules.now cell.now state.now }
{
    let step = has_step(rules, state);
    let moments = is_in_moments(rules, cell, state);
    let entries = entries_fit(rules, cell.keys.as_slice(), state);
    (step & moments) & entries
}

/// Whether a state has each key, unless it is a timer, and its value and the target of its link lie
/// in the range of the key.
fn entries_fit(rules: &Rules, keys: &[(Key, Interval)], state: &State) -> bool
    requires formed { WellFormed rules.now }
    requires fits { FitsRules rules.now state.now }
    ensures value { result ≡ list_all (entry_fits rules.now state.now) keys.now }
{
    let mut rest = keys;
    'keys: while let Some((entry, more)) = rest.split_first() {
        if !entry_fits(rules, entry, state) {
            return false;
        }
        rest = more;
    }
    true
}

/// The same of one key.
#[tactic(auto, unfolding(crate::specs::Inside::entry_fits))]
fn entry_fits(rules: &Rules, entry: &(Key, Interval), state: &State) -> bool
    requires formed { WellFormed rules.now }
    requires fits { FitsRules rules.now state.now }
    ensures value { result ≡ entry_fits rules.now state.now entry.now }
{
    let value = key_value(rules, state, &entry.0);
    value_fits(is_timer(&entry.0), &entry.1, &value)
        & is_target_in(rules, state, &entry.1, &entry.0)
}

/// Whether a key is a timer, which can be missing.
fn is_timer(key: &Key) -> bool
    ensures value { result ≡ is_timer key.now }
{
    match key {
        Key::Object(_, Attr::TimeOpen) => true,
        Key::Object(_, Attr::TimeClosed) => true,
        _ => false,
    }
}

/// Whether a value lies in a range, or is missing and can be.
fn value_fits(optional: bool, range: &Interval, value: &Option<Frac>) -> bool
    ensures value { result ≡ value_fits optional range.now value.now }
{
    match value {
        None => optional,
        Some(q) => range.holds(q),
    }
}

/// Whether the target of a link lies in the range of its SETTING.
fn is_target_in(rules: &Rules, state: &State, range: &Interval, key: &Key) -> bool
    requires formed { WellFormed rules.now }
    requires fits { FitsRules rules.now state.now }
    ensures value { result ≡ is_target_in rules.now state.now range.now key.now }
{
    match key {
        Key::Object(object, Attr::Setting) => match link_state(rules, state, object.index) {
            Some(link) => range.holds(&link.target),
            None => true,
        },
        _ => true,
    }
}
