//! What the sides of conditions can be worth in a box.
ghost use Rattle.std.specs.Prelude.{◌≡◌, slice_get};
ghost use Rattle.verdict_meaning.specs.Reaches.{kind_reach, left_reach, named_reach, right_reach};

use crate::formula::formula_reach;
use crate::keys::key_reach;
use exact_fraction::moment::Moment;
use interval_sets::Interval;
use list_types::Items;
use rule_types::{NameDef, NameKind, Right, Side};
use verdict_meaning::{Cell, Reach};

/// What the left side of a condition over these names can be worth at the states of a box, in a
/// simulation that begins at `start` (SWMM 5.2 manual, [CONTROLS]).
#[tactic(auto, unfolding(verdict_meaning::specs::Reaches::left_reach))]
pub fn left_reach(names: &Items<NameDef>, start: &Moment, cell: &Cell, side: &Side) -> Reach
    ensures value { result ≡ left_reach names.now start.now cell.now side.now }
{
    match side {
        Side::Key(key) => key_reach(start, cell, key),
        Side::Expr(name) => named_reach(names.as_slice(), start, cell, *name),
    }
}

/// What the right side of a condition can be worth at the states of a box, in a simulation that
/// begins at `start` (SWMM 5.2 manual, [CONTROLS]).
#[tactic(auto, unfolding(verdict_meaning::specs::Reaches::right_reach))]
pub fn right_reach(start: &Moment, cell: &Cell, side: &Right) -> Reach
    ensures value { result ≡ right_reach start.now cell.now side.now }
{
    match side {
        Right::Key(key) => key_reach(start, cell, key),
        Right::Value(q) => Reach::Within(true, Interval::point(*q)),
    }
}

/// What the name of a place can be worth.
#[tactic(auto, unfolding(verdict_meaning::specs::Reaches::named_reach))]
fn named_reach(names: &[NameDef], start: &Moment, cell: &Cell, name: u32) -> Reach
    ensures value { result ≡ named_reach names.now start.now cell.now (slice_get names.now name) }
{
    match names.get(name as usize) {
        Some(named) => kind_reach(names, start, cell, &named.stands_for),
        None => Reach::Missing,
    }
}

/// What the thing that a name stands for can be worth.
#[tactic(auto, unfolding(verdict_meaning::specs::Reaches::kind_reach))]
fn kind_reach(names: &[NameDef], start: &Moment, cell: &Cell, kind: &NameKind) -> Reach
    ensures value { result ≡ kind_reach names.now start.now cell.now kind.now }
{
    match kind {
        NameKind::Variable(key) => key_reach(start, cell, key),
        NameKind::Formula(formula) => formula_reach(names, start, cell, formula),
    }
}
