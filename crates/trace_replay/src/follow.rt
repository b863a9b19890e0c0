//! Links that follow their targets.
ghost use Rattle.std.specs.Prelude.{◌≡◌, true, false, Some, if◌then◌else◌, length, map};
ghost use Rattle.std.specs.List.Sorted.{IsStrictlyIncreasing};
ghost use Rattle.exact_fraction.specs.Number.{zero};
ghost use Rattle.exact_fraction.specs.Order.{◌≤ℚ◌};
ghost use Rattle.rule_types.specs.WellFormed.{IsRate};
ghost use Rattle.rule_meaning.specs.History.{all_moved, stayed};
ghost use Rattle.rule_meaning.specs.Movement.{moved as setting_moved};
ghost use Rattle.rule_meaning.specs.Replay.{is_switch as switched, switches_after};
ghost use Rattle.trace_replay.specs.internal.Moving.{CanMove, IsOnItsWay};

use crate::movement::moved;
use crate::switches::note_switch;
use crate::targets::{from_link, target_of};
use exact_fraction::frac::Frac;
use exact_fraction::moment::Moment;
use rule_types::{LinkState, Order};

/// Moves each link after orders and a gap: it gets its new target, and its setting is moved towards
/// it. Notes the moment as that of the last switch of each link that is switched so. False only where
/// all links stay as they were. Links and orders rise, so that one walk serves both. It takes no
/// memory.
pub(crate) fn follow(
    gap: &Frac,
    orders: &[Order],
    tracked: &[u32],
    rates: &[Frac],
    links: &mut [LinkState],
    switches: &mut [Option<Moment>],
    moment: Moment,
) -> bool
    requires each_rate { length rates.now ≡ length tracked.now }
    requires each_link { length links.old ≡ length tracked.now }
    requires each_switch { length switches.old ≡ length tracked.now }
    requires rising { IsStrictlyIncreasing tracked.now }
    requires in_order { IsStrictlyIncreasing (map (λ order. order.link) orders.now) }
    requires gap { zero ≤ℚ gap.now }
    requires can_move { CanMove orders.now tracked.now rates.now links.old }
    ensures links { stayed links.new
        ≡ all_moved gap.now orders.now tracked.now rates.now links.old }
    ensures switches { switches.new ≡ switches_after moment links.old
        (all_moved gap.now orders.now tracked.now rates.now links.old) switches.old }
    ensures unchanged { result ≡ false → links.new ≡ links.old }
{
    let mut rest = orders;
    let mut changed = false;
    for at in 0..tracked.len() {
        rest = from_link(rest, tracked[at]);
        let target = target_of(rest, tracked[at], &links[at].target);
        let moves = follow_one(
            &rates[at],
            gap,
            &target,
            &mut links[at],
            &mut switches[at],
            moment,
        );
        changed = changed | moves;
    }
    changed
}

/// Moves a link that gets a target, and notes the moment where it is switched so. False only where
/// it stays as it was, which it does where it stands at the target.
fn follow_one(
    rate: &Frac,
    gap: &Frac,
    target: &Frac,
    link: &mut LinkState,
    switch: &mut Option<Moment>,
    moment: Moment,
) -> bool
    requires rate { IsRate rate.now }
    requires gap { zero ≤ℚ gap.now }
    requires on_its_way { IsOnItsWay rate.now link.old.setting target.now }
    ensures setting { link.new.setting
        ≡ setting_moved rate.now gap.now link.old.setting target.now }
    ensures target { link.new.target ≡ target.now }
    ensures switch { switch.new
        ≡ (if switched link.old.setting link.new.setting then Some moment else switch.old) }
    ensures unchanged { result ≡ false → link.new ≡ link.old }
{
    if is_at(link, target) {
        return false;
    }
    let setting = moved(rate, gap, &link.setting, target);
    note_switch(switch, &link.setting, &setting, moment);
    link.setting = setting;
    link.target = *target;
    true
}

/// Whether a link stands at a target, which is its target too.
#[tactic(auto, using(crate::proofs::LinkSwitches::number_tests))]
fn is_at(link: &LinkState, target: &Frac) -> bool
    ensures setting { result ≡ true → link.now.setting ≡ target.now }
    ensures target { result ≡ true → link.now.target ≡ target.now }
{
    if link.target != *target {
        return false;
    }
    link.setting == *target
}
