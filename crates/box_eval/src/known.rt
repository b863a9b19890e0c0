//! What a list of truths tells of the premises of the rules.
ghost use Rattle.std.specs.Prelude.{◌≡◌};
ghost use Rattle.verdict_meaning.specs.Shown.{is_no, is_unlisted, is_yes};
ghost use Rattle.box_eval.specs.internal.Known.{known_of, told};

use rule_types::Branch;
use verdict_meaning::Truth;

/// What is told of the premise of a rule: nothing past the end of the list.
#[tactic(auto, unfolding(crate::specs::internal::Known::told))]
pub(crate) fn told(truths: &[Truth], number: usize) -> Truth
    ensures value { result ≡ told truths.now number }
{
    match truths.get(number) {
        Some(truth) => *truth,
        None => Truth::Open,
    }
}

/// Whether a premise is known to hold.
pub(crate) fn is_yes(truth: Truth) -> bool
    ensures value { result ≡ is_yes truth }
{
    match truth {
        Truth::Yes => true,
        Truth::No => false,
        Truth::Open => false,
    }
}

/// Whether a premise is known not to hold.
pub(crate) fn is_no(truth: Truth) -> bool
    ensures value { result ≡ is_no truth }
{
    match truth {
        Truth::Yes => false,
        Truth::No => true,
        Truth::Open => false,
    }
}

/// Whether a rule is known not to list a branch.
pub(crate) fn is_unlisted(truths: &[Truth], number: usize, branch: Branch) -> bool
    ensures value { result ≡ is_unlisted (known_of truths.now) number branch }
{
    match branch {
        Branch::Then => is_no(told(truths, number)),
        Branch::Otherwise => is_yes(told(truths, number)),
    }
}
