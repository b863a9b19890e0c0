//! Rules.
ghost use Rattle.std.specs.Prelude.{◌≡◌};

use crate::action::{Action, Branch};
use crate::condition::Condition;
use exact_fraction::frac::Frac;
use list_types::{Bytes, Items};

/// A control rule (SWMM 5.2 manual, [CONTROLS]).
#[derive(Drop)]
pub struct Rule {
    pub id: Bytes,
    pub conditions: Items<Condition>,
    pub then_actions: Items<Action>,
    pub else_actions: Items<Action>,
    /// None ranks below every number.
    pub priority: Option<Frac>,
}

impl Rule {
    ghost use Rattle.rule_types.specs.Reading.{branch_actions};

    /// The actions of one of the rule's branches.
    pub fn actions(&self, branch: Branch) -> &Items<Action>
        ensures value { result.now ≡ branch_actions self.now branch }
    {
        match branch {
            Branch::Then => &self.then_actions,
            Branch::Otherwise => &self.else_actions,
        }
    }
}
