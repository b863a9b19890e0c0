//! The candidates of branches on links.
ghost use Rattle.std.specs.Prelude.{◌≡◌, ◌==◌, option_copied};
ghost use Rattle.std.specs.List.{find};
ghost use Rattle.rule_types.specs.declared.action.Action.{Action as AnyAction};
ghost use Rattle.verdict_meaning.specs.Events.{candidate, first_on};
ghost use Rattle.verdict_meaning.specs.Shown.{has_candidate, surely_acts};
ghost use Rattle.box_eval.specs.internal.Known.{known_of};

use crate::known::{is_no, is_yes, told};
use rule_types::{Action, Branch, Rules};
use verdict_meaning::Truth;

/// The candidate of a branch of a rule on a link: its first action there, if there is one.
#[tactic(auto, unfolding(verdict_meaning::specs::Events::candidate))]
pub(crate) fn candidate(rules: &Rules, number: usize, branch: Branch, link: u32) -> Option<&Action>
    ensures value { option_copied result ≡ candidate rules.now.rules number branch link }
{
    let rule = rules.rules.get(number)?;
    first_on(rule.actions(branch).as_slice(), link)
}

/// The first of some actions that acts on a link.
fn first_on(actions: &[Action], link: u32) -> Option<&Action>
    ensures value { option_copied result ≡ first_on link actions.now }
{
    let mut rest = actions;
    'actions: while let Some((action, more)) = rest.split_first() {
        if action.link == link {
            return Some(action);
        }
        rest = more;
    }
    None
}

/// Whether a branch of a rule has a candidate on a link.
fn has_candidate(rules: &Rules, number: usize, branch: Branch, link: u32) -> bool
    ensures value { result ≡ has_candidate rules.now number branch link }
{
    match candidate(rules, number, branch, link) {
        Some(_) => true,
        None => false,
    }
}

/// Whether a rule surely acts on a link: THEN is listed and has a candidate there, or ELSE is and
/// has one, or both have one.
#[tactic(auto, unfolding(verdict_meaning::specs::Shown::surely_acts))]
pub(crate) fn surely_acts(rules: &Rules, truths: &[Truth], number: usize, link: u32) -> bool
    ensures value { result ≡ surely_acts rules.now (known_of truths.now) number link }
{
    let first = has_candidate(rules, number, Branch::Then, link);
    let second = has_candidate(rules, number, Branch::Otherwise, link);
    let truth = told(truths, number);
    ((first & is_yes(truth)) | (second & is_no(truth))) | (first & second)
}
