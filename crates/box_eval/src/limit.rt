//! Whether a limit is shown to be kept.
ghost use Rattle.std.specs.Prelude.{◌≡◌, ◌&&◌};
ghost use Rattle.rule_types.specs.Tables.{HoldsTables};
ghost use Rattle.rule_types.specs.WellFormed.{WellFormed};
ghost use Rattle.rule_types.specs.declared.action.Branch.TheVariants.{Otherwise, Then};
ghost use Rattle.verdict_meaning.specs.Questions.{all_numbers, setting_key};
ghost use Rattle.std.specs.List.{list_all};
ghost use Rattle.verdict_meaning.specs.Reaches.{piece_in};
ghost use Rattle.verdict_meaning.specs.Shown.{branch_safe, limit_shown, meets_limit};
ghost use Rattle.box_truths.specs.Times.{AreTimesOf};
ghost use Rattle.box_eval.specs.internal.Known.{known_of};
ghost use Rattle.box_eval.specs.internal.Preceding.{IsFirstActing};

use crate::actions::{Limit, stays_within};
use crate::agreement::conditions_of;
use crate::candidates::candidate;
use crate::hulls::closed;
use crate::known::is_unlisted;
use crate::ranks::{comes_after, first_acting};
use box_hulls::piece_in;
use box_truths::Times;
use curves_series::Tables;
use rule_types::{Attr, Branch, Key, ObjectNo, Rules, Space};
use verdict_meaning::{Cell, Truth};

/// Whether a link's setting does not lie within a limit in a box, or each branch with a candidate
/// on the link is safe. It takes time by the number of actions of the rules.
#[tactic(auto, unfolding(verdict_meaning::specs::Shown::limit_shown))]
pub(crate) fn limit_shown(
    rules: &Rules,
    times: &Times,
    tables: &Tables,
    cell: &Cell,
    truths: &[Truth],
    limit: &Limit,
) -> bool
    requires formed { WellFormed rules.now }
    requires times { AreTimesOf rules.now times.now }
    requires tables { HoldsTables tables.now rules.now.rules }
    ensures value { result ≡ limit_shown rules.now tables.now cell.now (known_of truths.now)
        limit.now.link limit.now.lo limit.now.hi }
{
    if !meets_limit(cell, limit) {
        return true;
    }
    rules_safe(rules, times, tables, cell, truths, limit)
}

/// Whether a link's setting can lie within a limit in a box.
fn meets_limit(cell: &Cell, limit: &Limit) -> bool
    ensures value { result ≡ meets_limit limit.now.lo limit.now.hi
        (piece_in (setting_key limit.now.link) cell.now.keys) }
{
    match piece_in(&setting_key(limit.link), cell.keys.as_slice()) {
        None => true,
        Some(piece) => !piece.meet(&closed(&limit.lo, &limit.hi)).is_empty(),
    }
}

/// The SETTING of a link.
fn setting_key(link: u32) -> Key
    ensures value { result ≡ setting_key link }
{
    let object = ObjectNo {
        space: Space::Links,
        index: link,
    };
    Key::Object(object, Attr::Setting)
}

/// Whether each branch with a candidate on a limit's link is safe.
fn rules_safe(
    rules: &Rules,
    times: &Times,
    tables: &Tables,
    cell: &Cell,
    truths: &[Truth],
    limit: &Limit,
) -> bool
    requires formed { WellFormed rules.now }
    requires times { AreTimesOf rules.now times.now }
    requires tables { HoldsTables tables.now rules.now.rules }
    ensures value { result ≡ list_all (λ number.
        branch_safe rules.now tables.now cell.now (known_of truths.now) limit.now.link
        limit.now.lo limit.now.hi number Then
        && branch_safe rules.now tables.now cell.now (known_of truths.now) limit.now.link
        limit.now.lo limit.now.hi number Otherwise) (all_numbers rules.now) }
{
    let first = first_acting(rules, truths, limit.link);
    for number in 0..rules.rules.len() {
        if !branches_safe(rules, times, tables, cell, truths, limit, &first, number) {
            return false;
        }
    }
    true
}

/// Whether both branches of a rule are safe.
fn branches_safe(
    rules: &Rules,
    times: &Times,
    tables: &Tables,
    cell: &Cell,
    truths: &[Truth],
    limit: &Limit,
    first: &Option<usize>,
    number: usize,
) -> bool
    requires formed { WellFormed rules.now }
    requires times { AreTimesOf rules.now times.now }
    requires tables { HoldsTables tables.now rules.now.rules }
    requires first { IsFirstActing rules.now (known_of truths.now) limit.now.link first.now }
    ensures value { result
        ≡ (branch_safe rules.now tables.now cell.now (known_of truths.now) limit.now.link
        limit.now.lo limit.now.hi number Then
        && branch_safe rules.now tables.now cell.now (known_of truths.now) limit.now.link
        limit.now.lo limit.now.hi number Otherwise) }
{
    if !branch_safe(
        rules,
        times,
        tables,
        cell,
        truths,
        limit,
        first,
        number,
        Branch::Then,
    ) {
        return false;
    }
    branch_safe(
        rules,
        times,
        tables,
        cell,
        truths,
        limit,
        first,
        number,
        Branch::Otherwise,
    )
}

/// Whether a branch of a rule has no candidate on a limit's link, or is not listed, or a preceding
/// rule surely acts on the link, or the candidate orders a number within the limit.
#[tactic(auto, unfolding(verdict_meaning::specs::Shown::branch_safe))]
fn branch_safe(
    rules: &Rules,
    times: &Times,
    tables: &Tables,
    cell: &Cell,
    truths: &[Truth],
    limit: &Limit,
    first: &Option<usize>,
    number: usize,
    branch: Branch,
) -> bool
    requires formed { WellFormed rules.now }
    requires times { AreTimesOf rules.now times.now }
    requires tables { HoldsTables tables.now rules.now.rules }
    requires first { IsFirstActing rules.now (known_of truths.now) limit.now.link first.now }
    ensures value { result ≡ branch_safe rules.now tables.now cell.now (known_of truths.now)
        limit.now.link limit.now.lo limit.now.hi number branch }
{
    let Some(action) = candidate(rules, number, branch, limit.link) else {
        return true;
    };
    if is_unlisted(truths, number, branch) {
        return true;
    }
    if comes_after(rules, first, number) {
        return true;
    }
    let conditions = conditions_of(rules, number);
    stays_within(rules, times, tables, cell, conditions, limit, &action.what)
}
