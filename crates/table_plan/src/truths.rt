//! Who tells whether conditions hold.
ghost use Rattle.std.specs.Prelude.{◌≡◌};

use rule_types::ActionAt;

/// Tells at a reading whether the conditions hold that tables name by their places.
pub trait Truths {
    ghost use Rattle.std.specs.Prelude.{ℕ, Bool};
    ghost use Rattle.rule_types.specs.declared.action.ActionAt.{ActionAt};

    /// Whether the condition at a place, from 0, of the rule of an action holds.
    ghost truth: { Self → ActionAt → ℕ → Bool };

    /// Whether the condition at a place, from 0, of the rule of an action holds.
    fn holds(&self, at: &ActionAt, place: u32) -> bool
        ensures value { result ≡ truth self.now at.now place };
}
