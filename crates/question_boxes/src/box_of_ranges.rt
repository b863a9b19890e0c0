//! The first box of a question over ranges.
ghost use Rattle.std.specs.Prelude.{◌≡◌, IfOk, None, map, if◌then◌else◌};
ghost use Rattle.verdict_meaning.specs.Boxes.{first_box as box_of, range_or};
ghost use Rattle.verdict_meaning.specs.Reaches.{piece_in};

use crate::order::{grid_keys, has_moments};
use box_hulls::piece_in;
use byte_edge::NoMemory;
use exact_fraction::frac::Frac;
use exact_fraction::moment::Moment;
use interval_sets::{Bound, Interval};
use list_types::Items;
use rule_types::{Key, Rules};
use std::alloc::Global;
use std::collections::BTreeSet;
use verdict_meaning::{Cell, Question, Ranges};

/// The first box of a question over ranges: the range of each key of the question's grid, 0 to 1 for
/// a SETTING without one, and the moments where the grid has them. NoMemory is the one error. It
/// takes time by the number of keys times that of the ranges.
#[tactic(auto, unfolding(verdict_meaning::specs::Boxes::first_box))]
pub fn first_box(
    alloc: Global,
    rules: &Rules,
    question: &Question,
    ranges: &Ranges,
) -> Result<Cell, NoMemory>
    ensures value { IfOk result (λ cell. cell ≡ box_of rules.now question.now ranges.now) }
{
    let wanted = has_moments(alloc, rules, question)?;
    let keys = grid_keys(alloc, rules, question)?;
    let pieces = ranges_of(alloc, &keys, ranges.keys.as_slice())?;
    Ok(Cell {
        keys: Items::from_vec(pieces),
        moments: moments_of(wanted, ranges),
    })
}

/// The moments of ranges, where they are wanted.
fn moments_of(wanted: bool, ranges: &Ranges) -> Option<(Moment, Moment)>
    ensures value { result ≡ (if wanted then ranges.now.moments else None) }
{
    if wanted {
        return ranges.moments;
    }
    None
}

/// The range of each key.
fn ranges_of(
    alloc: Global,
    keys: &BTreeSet<Key>,
    ranges: &[(Key, Interval)],
) -> Result<Vec<(Key, Interval)>, NoMemory>
    ensures value { IfOk result (λ list.
        list.items ≡ map (λ key. (key, range_or (piece_in key ranges.now))) keys.now.keys) }
{
    let mut list = Vec::new(alloc);
    for key in keys.iter() {
        list.push((*key, range_of(key, ranges)))?;
    }
    Ok(list)
}

/// The range of a key: from 0 to 1 where it has none.
fn range_of(key: &Key, ranges: &[(Key, Interval)]) -> Interval
    ensures value { result ≡ range_or (piece_in key.now ranges.now) }
{
    match piece_in(key, ranges) {
        Some(range) => range,
        None => Interval {
            low: Bound::Bound(Frac::zero(), false),
            high: Bound::Bound(Frac::one(), false),
        },
    }
}
