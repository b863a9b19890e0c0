//! The conditions of a rule's premise.
ghost use Rattle.std.specs.Prelude.{◌≡◌, ◌↔◌, IsTrue};
ghost use Rattle.rule_types.specs.WellFormed.{is_equality as equates};
ghost use Rattle.rule_types.specs.WellFormed.{takes_half_step as is_half_step};

use crate::key::Key;
use exact_fraction::frac::Frac;
use exact_fraction::relation::Relation;

/// The left side of a condition (SWMM 5.2 manual, [CONTROLS]).
#[derive(Clone, Copy, Debug, PartialEq, Eq)]
pub enum Side {
    /// A key, by itself or through a variable.
    Key(Key),
    /// The name at this place among the names: the value of an expression, or of a variable's key.
    Expr(u32),
}

impl Side {
    ghost use Rattle.rule_types.specs.WellFormed.{is_time_side};

    /// Whether the side is a key whose value is a time in hours: TIME, CLOCKTIME, TIMEOPEN or
    /// TIMECLOSED.
    pub fn is_time(&self) -> bool
        ensures value { result ≡ is_time_side self.now }
    {
        match self {
            Side::Key(key) => key.is_time(),
            Side::Expr(_) => false,
        }
    }

    /// Whether the two are the same side.
    #[tactic(auto, using(crate::proofs::Equal::sames))]
    pub fn is_same(&self, other: &Side) -> bool
        ensures value { IsTrue result ↔ (self.now ≡ other.now) }
    {
        self == other
    }
}

/// The right side of a condition (SWMM 5.2 manual, [CONTROLS]).
#[derive(Clone, Copy, PartialEq, Eq)]
pub enum Right {
    /// A key, by itself or through a variable.
    Key(Key),
    /// A number: hours for times, a day number for dates.
    Value(Frac),
}

/// A condition of a rule's premise (SWMM 5.2 manual, [CONTROLS]).
#[derive(Clone, Copy, PartialEq, Eq)]
pub struct Condition {
    pub left: Side,
    pub rel: Relation,
    pub right: Right,
    /// The relation is read within half a step of the time on the right: `=` holds from half a
    /// step before that time to just before half a step after it, and `<>` elsewhere.
    pub half_step: bool,
    /// The condition begins a group: the first one of a rule does, and each one after AND.
    pub joined_by_and: bool,
}

/// Whether a relation is `=` or `<>`.
pub fn is_equality(relation: &Relation) -> bool
    ensures value { result ≡ equates relation.now }
{
    match relation {
        Relation::Eq | Relation::Ne => true,
        _ => false,
    }
}

/// Whether a condition of this left side and this relation is a half-step condition where its right
/// side is a time value: it asks whether a time is, or is not, that value.
pub fn takes_half_step(left: &Side, relation: &Relation) -> bool
    ensures value { result ≡ is_half_step left.now relation.now }
{
    left.is_time() && is_equality(relation)
}
