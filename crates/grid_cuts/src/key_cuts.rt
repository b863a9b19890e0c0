//! The cuts of the keys of a box.
ghost use Rattle.std.specs.Prelude.{◌≡◌, ◌++◌, ◌∷◌, [], OnOk, IfOk, All, if◌then◌else◌};
ghost use Rattle.rule_types.specs.Fitting.{IsStep};
ghost use Rattle.rule_types.specs.WellFormed.{RuleFits};
ghost use Rattle.verdict_meaning.specs.Grids.{cuts_of, end_numbers, limit_cuts};
ghost use Rattle.verdict_meaning.specs.Questions.{asked_numbers, setting_key};
ghost use Rattle.verdict_meaning.specs.Reaches.{same_key};
ghost use Rattle.grid_cuts.specs.internal.Additions.{Adds, within};
ghost use Rattle.grid_cuts.specs.internal.Gridded.{AreAxesOf, IsCutWhole, axis_of};

use crate::conditions::{add, add_asked_cuts, add_both, is_same};
use crate::key_range::KeyRange;
use crate::rising_numbers::rising;
use byte_edge::NoMemory;
use exact_fraction::frac::Frac;
use grid_blocks::KeyCuts;
use interval_sets::{Bound, Interval};
use list_types::Items;
use rule_types::{Attr, Key, ObjectNo, Rules, Space};
use std::alloc::Global;
use verdict_meaning::Question;

/// The keys of a box with their cuts, where `asked` are the numbers of the question's rules. It
/// takes time by the number of keys times the conditions of these rules, as one look at each
/// condition in the box does. NoMemory is the one error.
pub(crate) fn axes_of(
    alloc: Global,
    rules: &Rules,
    question: &Question,
    asked: &[u32],
    entries: &[(Key, Interval)],
) -> Result<Vec<KeyCuts>, NoMemory>
    requires step { IsStep rules.now.routing_step }
    requires fit { All (RuleFits rules.now.names) rules.now.rules }
    requires asked { asked.now ≡ asked_numbers rules.now question.now }
    ensures axes { IfOk result (λ axes. AreAxesOf rules.now question.now entries.now axes.items) }
{
    let mut axes = Vec::new(alloc);
    for entry in entries {
        axes.push(axis_of(alloc, rules, question, asked, entry)?)?;
    }
    Ok(axes)
}

/// A key with its cuts.
fn axis_of(
    alloc: Global,
    rules: &Rules,
    question: &Question,
    asked: &[u32],
    entry: &(Key, Interval),
) -> Result<KeyCuts, NoMemory>
    requires step { IsStep rules.now.routing_step }
    requires fit { All (RuleFits rules.now.names) rules.now.rules }
    requires asked { asked.now ≡ asked_numbers rules.now question.now }
    ensures value { IfOk result (λ axis. axis ≡ axis_of rules.now question.now entry.now) }
    ensures whole { IfOk result (λ axis. IsCutWhole rules.now question.now entry.now) }
{
    let wanted = KeyRange {
        key: entry.0,
        range: entry.1,
        step: rules.routing_step,
    };
    let cuts = cuts_of(alloc, rules, question, asked, &wanted)?;
    Ok(KeyCuts {
        key: entry.0,
        cuts: Items::from_vec(cuts),
    })
}

/// The cuts of a key in its range.
fn cuts_of(
    alloc: Global,
    rules: &Rules,
    question: &Question,
    asked: &[u32],
    wanted: &KeyRange,
) -> Result<Vec<Frac>, NoMemory>
    requires step { IsStep wanted.now.step }
    requires step_is { wanted.now.step ≡ rules.now.routing_step }
    requires fit { All (RuleFits rules.now.names) rules.now.rules }
    requires asked { asked.now ≡ asked_numbers rules.now question.now }
    ensures value { IfOk result (λ cuts.
        cuts.items ≡ cuts_of rules.now question.now wanted.now.key wanted.now.range) }
    ensures whole { IfOk result (λ cuts.
        IsCutWhole rules.now question.now (wanted.now.key, wanted.now.range)) }
{
    let mut list = Vec::new(alloc);
    add_ends(&mut list, &wanted.range)?;
    add_limit(&mut list, wanted, question)?;
    add_asked_cuts(&mut list, wanted, rules, asked)?;
    rising(alloc, list.as_slice())
}

/// Adds the ends of a range.
#[tactic(auto, using(crate::proofs::AddedCuts::additions))]
fn add_ends(list: &mut Vec<Frac>, range: &Interval) -> Result<(), NoMemory>
    ensures adds { OnOk result (Adds list.old.items list.new.items
        (end_numbers range.now.low ++ end_numbers range.now.high)) }
{
    add_end(list, &range.low)?;
    add_end(list, &range.high)
}

/// Adds an end of a range.
#[tactic(auto, using(crate::proofs::AddedCuts::additions))]
fn add_end(list: &mut Vec<Frac>, end: &Bound) -> Result<(), NoMemory>
    ensures adds { OnOk result (Adds list.old.items list.new.items (end_numbers end.now)) }
{
    match end {
        Bound::NoBound => Ok(()),
        Bound::Bound(number, _) => add(list, number),
    }
}

/// Adds the two numbers of a limit, where the key is the SETTING of its link.
#[tactic(auto, using(crate::proofs::AddedCuts::additions))]
fn add_limit(list: &mut Vec<Frac>, wanted: &KeyRange, question: &Question) -> Result<(), NoMemory>
    ensures adds { OnOk result (Adds list.old.items list.new.items
        (within wanted.now (limit_cuts wanted.now.key question.now))) }
{
    match question {
        Question::Conflict(_, _, _) => Ok(()),
        Question::Dead(_) => Ok(()),
        Question::Limit(link, low, high) => add_limit_of(list, wanted, *link, low, high),
    }
}

/// Adds the two numbers of a limit of a link, where the key is its SETTING.
#[tactic(auto, using(crate::proofs::AddedCuts::additions))]
fn add_limit_of(
    list: &mut Vec<Frac>,
    wanted: &KeyRange,
    link: u32,
    low: &Frac,
    high: &Frac,
) -> Result<(), NoMemory>
    ensures adds { OnOk result (Adds list.old.items list.new.items (within wanted.now
        (if same_key wanted.now.key (setting_key link) then low.now ∷ high.now ∷ [] else []))) }
{
    if is_same(&wanted.key, &setting_of(link)) {
        return add_both(list, wanted, low, high);
    }
    Ok(())
}

/// The SETTING of a link.
fn setting_of(link: u32) -> Key
    ensures value { result ≡ setting_key link }
{
    let object = ObjectNo {
        space: Space::Links,
        index: link,
    };
    Key::Object(object, Attr::Setting)
}
