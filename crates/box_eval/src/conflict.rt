//! Whether two rules are shown to have no conflict.
ghost use Rattle.std.specs.Prelude.{◌≡◌, ◌&&◌};
ghost use Rattle.rule_types.specs.WellFormed.{WellFormed};
ghost use Rattle.rule_types.specs.declared.action.Branch.TheVariants.{Otherwise, Then};
ghost use Rattle.verdict_meaning.specs.Shown.{conflict_shown, pair_shown};
ghost use Rattle.box_eval.specs.internal.Known.{known_of};

use crate::agreement::{BranchAt, disagree};
use crate::known::is_unlisted;
use crate::ranks::are_level;
use rule_types::{Branch, Rules};
use verdict_meaning::Truth;

/// Whether the ranks of two rules differ, or of each two branches whose candidates on a link
/// disagree one is not listed.
#[tactic(auto, unfolding(verdict_meaning::specs::Shown::conflict_shown))]
pub(crate) fn conflict_shown(
    rules: &Rules,
    truths: &[Truth],
    first: usize,
    second: usize,
    link: u32,
) -> bool
    requires formed { WellFormed rules.now }
    ensures value { result ≡ conflict_shown rules.now (known_of truths.now) first second link }
{
    if !are_level(rules, first, second) {
        return true;
    }
    let then = BranchAt {
        number: first,
        branch: Branch::Then,
    };
    let otherwise = BranchAt {
        number: first,
        branch: Branch::Otherwise,
    };
    pairs_shown(rules, truths, &then, second, link)
        & pairs_shown(rules, truths, &otherwise, second, link)
}

/// The same of one branch of the first rule.
fn pairs_shown(rules: &Rules, truths: &[Truth], at: &BranchAt, second: usize, link: u32) -> bool
    requires formed { WellFormed rules.now }
    ensures value { result
        ≡ (pair_shown rules.now (known_of truths.now) at.now.number at.now.branch second Then link
        && pair_shown rules.now (known_of truths.now) at.now.number at.now.branch second Otherwise
        link) }
{
    let then = BranchAt {
        number: second,
        branch: Branch::Then,
    };
    let otherwise = BranchAt {
        number: second,
        branch: Branch::Otherwise,
    };
    pair_shown(rules, truths, at, &then, link) & pair_shown(rules, truths, at, &otherwise, link)
}

/// Whether the candidates of two branches do not disagree, or one of the branches is not listed.
fn pair_shown(rules: &Rules, truths: &[Truth], at: &BranchAt, other: &BranchAt, link: u32) -> bool
    requires formed { WellFormed rules.now }
    ensures value { result ≡ pair_shown rules.now (known_of truths.now) at.now.number
        at.now.branch other.now.number other.now.branch link }
{
    !disagree(rules, at, other, link)
        | (is_unlisted(truths, at.number, at.branch)
            | is_unlisted(truths, other.number, other.branch))
}
