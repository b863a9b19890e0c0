//! Whether a rule is shown to be dead.
ghost use Rattle.std.specs.Prelude.{◌≡◌, ◌||◌, slice_get};
ghost use Rattle.std.specs.List.{list_all};
ghost use Rattle.verdict_meaning.specs.Shown.{actions_in, dead_branch, dead_shown, is_preceded};
ghost use Rattle.verdict_meaning.specs.Shown.{is_unlisted};
ghost use Rattle.box_eval.specs.internal.Known.{known_of};

use crate::known::is_unlisted;
use crate::ranks::{comes_after, first_acting};
use rule_types::{Action, Branch, Rules};
use verdict_meaning::Truth;

/// Whether each branch of a rule is not listed, or on each link on which it acts a preceding rule
/// surely acts.
#[tactic(auto, unfolding(verdict_meaning::specs::Shown::dead_shown))]
pub(crate) fn dead_shown(rules: &Rules, truths: &[Truth], number: usize) -> bool
    ensures value { result ≡ dead_shown rules.now (known_of truths.now) number }
{
    dead_branch(rules, truths, number, Branch::Then)
        & dead_branch(rules, truths, number, Branch::Otherwise)
}

/// The same of one branch.
#[tactic(auto, unfolding(verdict_meaning::specs::Shown::dead_branch))]
fn dead_branch(rules: &Rules, truths: &[Truth], number: usize, branch: Branch) -> bool
    ensures value { result ≡ dead_branch rules.now (known_of truths.now) number branch }
{
    match rules.rules.get(number) {
        Some(rule) => {
            let actions = rule.actions(branch).as_slice();
            none_settled(rules, truths, number, branch, actions)
        }
        None => true,
    }
}

/// The same of these actions of a branch.
fn none_settled(
    rules: &Rules,
    truths: &[Truth],
    number: usize,
    branch: Branch,
    actions: &[Action],
) -> bool
    ensures value { result ≡ list_all (λ action.
        is_unlisted (known_of truths.now) number branch
        || is_preceded rules.now (known_of truths.now) number action.link) actions.now }
{
    let mut rest = actions;
    'actions: while let Some((action, more)) = rest.split_first() {
        if !is_beaten(rules, truths, number, branch, action.link) {
            return false;
        }
        rest = more;
    }
    true
}

/// Whether a branch of a rule is not listed, or a preceding rule surely acts on a link.
fn is_beaten(rules: &Rules, truths: &[Truth], number: usize, branch: Branch, link: u32) -> bool
    ensures value { result ≡ (is_unlisted (known_of truths.now) number branch
        || is_preceded rules.now (known_of truths.now) number link) }
{
    if is_unlisted(truths, number, branch) {
        return true;
    }
    let first = first_acting(rules, truths, link);
    comes_after(rules, &first, number)
}
