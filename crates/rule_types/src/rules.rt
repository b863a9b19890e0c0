//! All rules of a file.
ghost use Rattle.std.specs.Prelude.{◌≡◌};
ghost use Rattle.std.specs.Option.{option_copied};

use crate::action::{Action, ActionAt};
use crate::key::Key;
use crate::names::NameDef;
use crate::rule::Rule;
use exact_fraction::frac::Frac;
use exact_fraction::moment::Moment;
use list_types::Items;

/// The rules of a file with their names, and the keys and links that they read and act on.
#[derive(Drop)]
pub struct Rules {
    /// The rules in the order of the file.
    pub rules: Items<Rule>,
    /// The variables and expressions in the order of the file.
    pub names: Items<NameDef>,
    /// The keys that are read from the trace, in key order.
    pub input_keys: Items<Key>,
    /// The links that an action acts on, or whose setting, status or timers are read, in link
    /// order.
    pub tracked: Items<u32>,
    /// The links that an action acts on, in link order.
    pub controlled: Items<u32>,
    /// For each controlled link whether it is a pump.
    pub pumps: Items<bool>,
    /// The initial setting of each tracked link.
    pub initial: Items<Frac>,
    /// The hours that each tracked link takes to open or close fully, 0 where it moves at once.
    pub rates: Items<Frac>,
    /// The moment of START_DATE and START_TIME; None without START_DATE.
    pub start: Option<Moment>,
    /// ROUTING_STEP in seconds.
    pub routing_step: Frac,
    /// RULE_STEP in seconds.
    pub rule_step: Frac,
}

impl Rules {
    ghost use Rattle.rule_types.specs.Reading.{action_at as action_of};

    /// The action at a place, or None where there is no such action.
    #[tactic(auto, unfolding(crate::specs::Reading::action_at))]
    pub fn action_at(&self, at: &ActionAt) -> Option<&Action>
        ensures value { option_copied result ≡ action_of self.now.rules at.now }
    {
        let rule = self.rules.get(at.rule as usize)?;
        rule.actions(at.branch).get(at.action as usize)
    }
}
