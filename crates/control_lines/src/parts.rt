//! The parts of control lines: keys, sides of conditions, relations and values.
ghost use Rattle.std.specs.Prelude.{◌≡◌, option_map};
ghost use Rattle.control_lines.specs.Statements.{begins_key as opens_key, object_key, clock_key};
ghost use Rattle.control_lines.specs.Statements.{key_at, side_at, relation_at, past_equals, single};
ghost use Rattle.control_lines.specs.Statements.{table_value, pid_value, value_of};
ghost use Rattle.control_lines.specs.Views.{table_now, pid_now, value_now, texts};
ghost use Rattle.control_lines.specs.internal.Cuts.{key_cut, side_cut, relation_cut};

use crate::statement::{KeyText, ObjectAttribute, PidText, SideText, TableText, ValueText};
use exact_fraction::relation::Relation;
use key_words::{is_simulation, read_object_word, read_relation};
use rule_types::ObjectWord;

/// A key, and the items behind it.
#[derive(Clone, Copy)]
pub(crate) struct KeyCut<'a> {
    pub(crate) key: KeyText<'a>,
    pub(crate) rest: &'a [&'a [u8]],
}

/// A side of a condition, and the items behind it.
#[derive(Clone, Copy)]
pub(crate) struct SideCut<'a> {
    pub(crate) side: SideText<'a>,
    pub(crate) rest: &'a [&'a [u8]],
}

/// A relation, and the items behind it.
#[derive(Clone, Copy)]
pub(crate) struct RelationCut<'a> {
    pub(crate) relation: Relation,
    pub(crate) rest: &'a [&'a [u8]],
}

/// Whether an item begins a key: it is the word of an object or SIMULATION.
fn begins_key(item: &[u8]) -> bool
    ensures { result ≡ opens_key item.now }
{
    read_object_word(item).is_some() || is_simulation(item)
}

/// The key of an object, behind the object's word.
fn object_key<'a>(word: ObjectWord, items: &'a [&'a [u8]]) -> Option<KeyCut<'a>>
    ensures { option_map key_cut result ≡ object_key word (texts items.now) }
{
    let [name, attribute, rest @ ..] = items else {
        return None;
    };
    let key = KeyText::Object(ObjectAttribute {
        word,
        name,
        attribute,
    });
    Some(KeyCut { key, rest })
}

/// The key of SIMULATION, behind this word.
fn clock_key<'a>(items: &'a [&'a [u8]]) -> Option<KeyCut<'a>>
    ensures { option_map key_cut result ≡ clock_key (texts items.now) }
{
    let [attribute, rest @ ..] = items else {
        return None;
    };
    Some(KeyCut {
        key: KeyText::Clock(attribute),
        rest,
    })
}

/// The key that a part of a line begins with.
#[tactic(auto, unfolding(crate::specs::Statements::key_at))]
pub(crate) fn key<'a>(items: &'a [&'a [u8]]) -> Option<KeyCut<'a>>
    ensures { option_map key_cut result ≡ key_at (texts items.now) }
{
    let [item, later @ ..] = items else {
        return None;
    };
    match read_object_word(item) {
        Some(word) => object_key(word, later),
        None => {
            if is_simulation(item) {
                clock_key(later)
            } else {
                None
            }
        }
    }
}

/// The side of a condition that a part of a line begins with.
#[tactic(auto, unfolding(crate::specs::Statements::side_at))]
pub(crate) fn side<'a>(items: &'a [&'a [u8]]) -> Option<SideCut<'a>>
    ensures { option_map side_cut result ≡ side_at (texts items.now) }
{
    let [item, rest @ ..] = items else {
        return None;
    };
    if begins_key(item) {
        let cut = key(items)?;
        return Some(SideCut {
            side: SideText::Key(cut.key),
            rest: cut.rest,
        });
    }
    Some(SideCut {
        side: SideText::Single(item),
        rest,
    })
}

/// The relation that a part of a line begins with.
pub(crate) fn relation<'a>(items: &'a [&'a [u8]]) -> Option<RelationCut<'a>>
    ensures { option_map relation_cut result ≡ relation_at (texts items.now) }
{
    let [item, rest @ ..] = items else {
        return None;
    };
    let relation = read_relation(item)?;
    Some(RelationCut { relation, rest })
}

/// What is behind the sign `=`.
pub(crate) fn past_equals<'a>(items: &'a [&'a [u8]]) -> Option<&'a [&'a [u8]]>
    ensures { option_map (λ rest. texts rest.now) result ≡ past_equals (texts items.now) }
{
    let [item, rest @ ..] = items else {
        return None;
    };
    if item.eq_ignore_ascii_case(b"=") {
        Some(rest)
    } else {
        None
    }
}

/// The one item of a part of a line.
pub(crate) fn single<'a>(items: &'a [&'a [u8]]) -> Option<&'a [u8]>
    ensures { option_map (λ item. item.now) result ≡ single (texts items.now) }
{
    match items {
        [item] => Some(item),
        _ => None,
    }
}

/// The value of an action that all of these items are.
#[tactic(auto, unfolding(crate::specs::Statements::value_of))]
pub(crate) fn value<'a>(items: &'a [&'a [u8]]) -> Option<ValueText<'a>>
    ensures { option_map value_now result ≡ value_of (texts items.now) }
{
    match items {
        [item] => Some(ValueText::Plain(item)),
        [word, name] => table(TableText { word, name }),
        [word, gain, integral, derivative] => pid(PidText {
            word,
            gain,
            integral,
            derivative,
        }),
        _ => None,
    }
}

/// A curve or a series, where the word is the one of curves or of series.
fn table(table: TableText<'_>) -> Option<ValueText<'_>>
    ensures { option_map value_now result ≡ table_value (table_now table.entry) }
{
    if table.word.eq_ignore_ascii_case(b"CURVE") {
        return Some(ValueText::Curve(table));
    }
    if table.word.eq_ignore_ascii_case(b"TIMESERIES") {
        return Some(ValueText::Series(table));
    }
    None
}

/// A PID controller, where the word is the one of these.
fn pid(pid: PidText<'_>) -> Option<ValueText<'_>>
    ensures { option_map value_now result ≡ pid_value (pid_now pid.entry) }
{
    if pid.word.eq_ignore_ascii_case(b"PID") {
        Some(ValueText::Pid(pid))
    } else {
        None
    }
}
