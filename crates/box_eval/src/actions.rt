//! Whether actions stay within a limit.
ghost use Rattle.std.specs.Prelude.{◌≡◌, option_copied};
ghost use Rattle.rule_types.specs.Tables.{HoldsTableOf};
ghost use Rattle.rule_types.specs.WellFormed.{WellFormed};
ghost use Rattle.verdict_meaning.specs.ActionHulls.{can_keep, is_missing, keeps_target};
ghost use Rattle.verdict_meaning.specs.ActionHulls.{stays_within};
ghost use Rattle.box_truths.specs.Times.{AreTimesOf};

use crate::hulls::{controller_reach, is_part_of, set_point_reach, worth_hull};
use crate::links::rate_of;
use box_truths::Times;
use curves_series::Tables;
use exact_fraction::frac::Frac;
use rule_types::{Condition, Rules, What};
use verdict_meaning::{Cell, Reach};

/// A link and the settings between which it stands.
#[derive(Clone, Copy)]
pub(crate) struct Limit {
    pub(crate) link: u32,
    pub(crate) lo: Frac,
    pub(crate) hi: Frac,
}

/// Whether an action of a rule with these conditions orders a number within a limit on the limit's
/// link, whose target is such a number.
#[tactic(auto, unfolding(verdict_meaning::specs::ActionHulls::stays_within))]
pub(crate) fn stays_within(
    rules: &Rules,
    times: &Times,
    tables: &Tables,
    cell: &Cell,
    conditions: &[Condition],
    limit: &Limit,
    what: &What,
) -> bool
    requires formed { WellFormed rules.now }
    requires times { AreTimesOf rules.now times.now }
    requires held { HoldsTableOf tables.now what.now }
    ensures value { result ≡ stays_within rules.now tables.now cell.now conditions.now
        limit.now.link limit.now.lo limit.now.hi what.now }
{
    let hull = worth_hull(rules, times, tables, cell, conditions, limit.link, what);
    if is_part_of(&hull, &limit.lo, &limit.hi) {
        return true;
    }
    let rate = rate_of(rules, limit.link);
    can_keep(&rate, &limit.lo) & keeps_target(rules, times, cell, conditions, what)
}

/// Whether an old target of at least lo is ordered as such a number: on a link with a rate at most
/// 1 is ordered.
#[tactic(auto, unfolding(verdict_meaning::specs::ActionHulls::can_keep))]
fn can_keep(rate: &Frac, lo: &Frac) -> bool
    ensures value { result ≡ can_keep rate.now lo.now }
{
    !Frac::zero().is_less(rate) | !Frac::one().is_less(lo)
}

/// Whether an action surely orders the old target: it is a curve or a PID without a controller, or
/// a PID without a set point.
#[tactic(auto, unfolding(verdict_meaning::specs::ActionHulls::keeps_target))]
fn keeps_target(
    rules: &Rules,
    times: &Times,
    cell: &Cell,
    conditions: &[Condition],
    what: &What,
) -> bool
    requires times { AreTimesOf rules.now times.now }
    ensures value { result ≡ keeps_target rules.now cell.now conditions.now what.now }
{
    match what {
        What::Constant(_) => false,
        What::Series(_) => false,
        What::Curve(_) => is_missing(&controller_reach(rules, times, cell, conditions)),
        What::Pid(_, _) => {
            is_missing(&controller_reach(rules, times, cell, conditions))
                | is_missing(&set_point_reach(rules, times, cell, conditions))
        }
    }
}

/// Whether a side is surely missing.
fn is_missing(reach: &Reach) -> bool
    ensures value { result ≡ is_missing reach.now }
{
    match reach {
        Reach::Missing => true,
        Reach::Within(_, _) => false,
    }
}
