//! Who tells a plan of tables whether the conditions of rules hold.
ghost use Rattle.std.specs.Prelude.{◌≡◌, Some, slice_get};
ghost use Rattle.rule_meaning.specs.Reading.{conditions_at};
ghost use Rattle.action_values.specs.Links.{IsSound};
ghost use Rattle.table_compiler.specs.Meaning.{condition_holds};

use premise_eval::{Values, condition};
use rule_types::{ActionAt, Rule, Rules, State};
use std::marker::Model;
use table_plan::Truths;

/// The conditions of rules at a state, over values that were made of it.
#[derive(Drop)]
pub(crate) struct StateConditions<'a> {
    rules: &'a Rules,
    state: &'a State,
    values: &'a Values,
}

impl<'a> Model for StateConditions<'a> {
    ghost use Rattle.action_values.specs.Links.{IsSound};
    ghost use Rattle.rule_types.specs.contracts.expr.Expr as expr;
    ghost use Rattle.std.specs.Coded.{codes};
    ghost use Rattle.table_run.specs.internal.Truths.{StateOfRules};

    ghost Value = { StateOfRules };

    ghost coded = { Prim.hlevel (codes, expr.the_row.coded) };

    ghost view = { λ c. record { rules = c.rules.now; state = c.state.now } };

    ghost invariant = { λ c. IsSound c.rules.now c.state.now c.values.now };
}

impl<'a> StateConditions<'a> {
    /// The conditions of these rules at this state.
    pub(crate) fn new(rules: &'a Rules, state: &'a State, values: &'a Values) -> StateConditions<'a>
        requires sound { IsSound rules.now state.now values.now }
        ensures rules { result.rules ≡ rules.now }
        ensures state { result.state ≡ state.now }
    {
        StateConditions {
            rules,
            state,
            values,
        }
    }
}

impl Truths for StateConditions<'_> {
    ghost use Rattle.std.specs.Prelude.{slice_get};
    ghost use Rattle.rule_meaning.specs.Reading.{conditions_at};
    ghost use Rattle.table_compiler.specs.Meaning.{condition_holds};

    ghost truth = { λ c at place. condition_holds c.rules c.state
        (slice_get (conditions_at c.rules.rules at) place) };

    fn holds(&self, at: &ActionAt, place: u32) -> bool {
        holds_at(self.rules, self.state, self.values, at, place)
    }
}

/// Whether the condition at a place of an action's rule holds, if there is one.
#[tactic(auto, unfolding(rule_meaning::specs::Reading::conditions_at))]
fn holds_at(rules: &Rules, state: &State, values: &Values, at: &ActionAt, place: u32) -> bool
    requires sound { IsSound rules.now state.now values.now }
    ensures value { result ≡ condition_holds rules.now state.now
        (slice_get (conditions_at rules.now.rules at.now) place) }
{
    match rules.rules.get(at.rule as usize) {
        Some(row) => condition_of(rules, state, values, row, at.rule, place),
        None => false,
    }
}

/// Whether the condition at a place of a rule holds, if there is one.
fn condition_of(
    rules: &Rules,
    state: &State,
    values: &Values,
    row: &Rule,
    rule: u32,
    place: u32,
) -> bool
    requires sound { IsSound rules.now state.now values.now }
    requires row { slice_get rules.now.rules rule ≡ Some row.now }
    ensures value { result
        ≡ condition_holds rules.now state.now (slice_get row.now.conditions place) }
{
    let _moment = state.moment;
    if (place as usize) < row.conditions.len() {
        return condition(rules, values, rule, place);
    }
    false
}

/// Conditions of which none holds.
#[derive(Drop)]
pub(crate) struct NoConditions {
    pub(crate) holds: bool,
}

impl Truths for NoConditions {
    ghost truth = { λ c at place. c.holds };

    fn holds(&self, _at: &ActionAt, _place: u32) -> bool {
        self.holds
    }
}
