//! Which rules are a question's.
ghost use Rattle.std.specs.Prelude.{◌≡◌, ◌==◌, slice_get};
ghost use Rattle.std.specs.List.{list_any};
ghost use Rattle.rule_meaning.specs.SomeRules.{rule_acts_on};
ghost use Rattle.rule_types.specs.declared.rule.Rule.{Rule as AnyRule};
ghost use Rattle.verdict_meaning.specs.Questions.{acts_there, is_asked, share_link};
ghost use Rattle.std.specs.Prelude.{Some};

use rule_types::{Action, Rule, Rules};
use verdict_meaning::Question;

/// Whether the rule of a number, from 0, is a question's: the two rules of a conflict; for a dead
/// rule itself and each rule that acts on a link on which it acts; for a limit each rule that acts
/// on the link. It takes no memory, and time by the actions of the two rules.
#[tactic(auto, unfolding(verdict_meaning::specs::Questions::is_asked))]
pub fn is_asked(rules: &Rules, question: &Question, number: usize) -> bool
    ensures value { result ≡ is_asked rules.now question.now number }
{
    match question {
        Question::Conflict(first, second, _) => {
            (number == *first as usize) | (number == *second as usize)
        }
        Question::Dead(rule) => {
            (number == *rule as usize) | share_link(rules, *rule as usize, number)
        }
        Question::Limit(link, _, _) => acts_there(rules, *link, number),
    }
}

/// Whether two rules act on one link.
fn share_link(rules: &Rules, number: usize, other: usize) -> bool
    ensures value { result
        ≡ share_link (slice_get rules.now.rules number) (slice_get rules.now.rules other) }
{
    let Some(second) = rules.rules.get(other) else {
        return false;
    };
    let Some(first) = rules.rules.get(number) else {
        return false;
    };
    rules_share_link(first, second)
}

/// Whether a rule acts on a link on which another one acts.
fn rules_share_link(first: &Rule, second: &Rule) -> bool
    ensures value { result ≡ share_link (Some first.now) (Some second.now) }
{
    actions_share_link(first.then_actions.as_slice(), second)
        | actions_share_link(first.else_actions.as_slice(), second)
}

/// Whether one of some actions is on a link on which a rule acts.
fn actions_share_link(actions: &[Action], rule: &Rule) -> bool
    ensures value { result
        ≡ list_any (λ action. rule_acts_on action.link rule.now) actions.now }
{
    let mut rest = actions;
    'actions: while let Some((action, more)) = rest.split_first() {
        if rule_acts_on(rule, action.link) {
            return true;
        }
        rest = more;
    }
    false
}

/// Whether the rule of a number acts on a link.
fn acts_there(rules: &Rules, link: u32, number: usize) -> bool
    ensures value { result ≡ acts_there link (slice_get rules.now.rules number) }
{
    match rules.rules.get(number) {
        Some(rule) => rule_acts_on(rule, link),
        None => false,
    }
}

/// Whether a rule acts on a link, in either branch.
#[tactic(auto, using(crate::proofs::Folds::either_list))]
fn rule_acts_on(rule: &Rule, link: u32) -> bool
    ensures value { result ≡ rule_acts_on link rule.now }
{
    acts_on(rule.then_actions.as_slice(), link) | acts_on(rule.else_actions.as_slice(), link)
}

/// Whether one of some actions acts on a link.
fn acts_on(actions: &[Action], link: u32) -> bool
    ensures value { result ≡ list_any (λ action. action.link == link) actions.now }
{
    let mut rest = actions;
    'actions: while let Some((action, more)) = rest.split_first() {
        if action.link == link {
            return true;
        }
        rest = more;
    }
    false
}
