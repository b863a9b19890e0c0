//! Relations of all members of two intervals.
ghost use Rattle.std.specs.Prelude.{◌≡◌};
ghost use Rattle.verdict_meaning.specs.Truths.{all_relate, contrary};

use crate::ends::{ends_at_most, ends_below};
use exact_fraction::relation::Relation;
use interval_sets::Interval;

/// Whether each member of an interval stands in a relation to each member of another.
#[tactic(auto, unfolding(verdict_meaning::specs::Truths::all_relate))]
pub(crate) fn all_relate(relation: &Relation, a: &Interval, b: &Interval) -> bool
    ensures value { result ≡ all_relate relation.now a.now b.now }
{
    match relation {
        Relation::Eq => ends_at_most(&a.high, &b.low) & ends_at_most(&b.high, &a.low),
        Relation::Ne => ends_below(&a.high, &b.low) | ends_below(&b.high, &a.low),
        Relation::Lt => ends_below(&a.high, &b.low),
        Relation::Le => ends_at_most(&a.high, &b.low),
        Relation::Gt => ends_below(&b.high, &a.low),
        Relation::Ge => ends_at_most(&b.high, &a.low),
    }
}

/// The relation of the pairs that do not stand in a relation.
pub(crate) fn contrary(relation: &Relation) -> Relation
    ensures value { result ≡ contrary relation.now }
{
    match relation {
        Relation::Eq => Relation::Ne,
        Relation::Ne => Relation::Eq,
        Relation::Lt => Relation::Ge,
        Relation::Le => Relation::Gt,
        Relation::Gt => Relation::Le,
        Relation::Ge => Relation::Lt,
    }
}
