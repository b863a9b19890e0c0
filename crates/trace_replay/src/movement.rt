//! Links on their way to their targets.
ghost use Rattle.std.specs.Prelude.{◌≡◌, ◌<◌, ◌^◌, ◌*◌, ◌≤ℤ◌, pos, unsigned_abs};
ghost use Rattle.exact_fraction.specs.Number.{zero, one, ratio};
ghost use Rattle.exact_fraction.specs.Operations.{sum_of, difference_of, round9_of};
ghost use Rattle.exact_fraction.specs.Order.{◌≤ℚ◌, ◌<ℚ◌, greater_of, lesser_of};
ghost use Rattle.rule_types.specs.WellFormed.{IsRate};
ghost use Rattle.rule_meaning.specs.Movement.{moved as setting_moved, towards as going};
ghost use Rattle.rule_meaning.specs.Movement.{reach as far};
ghost use Rattle.trace_replay.specs.internal.Moving.{IsOnItsWay, IsReach, billionths_of};

use exact_fraction::frac::Frac;

/// The denominator of a reach: 10^9.
const BILLION: i128 = 1_000_000_000;

/// The new setting of a link: its target, or on a link with a rate where it comes in the gap (SWMM
/// 5.2 manual, [ORIFICES]). Setting and target of a link with a rate are at most 1.
#[tactic(auto, unfolding(rule_meaning::specs::Movement::moved))]
pub(crate) fn moved(rate: &Frac, gap: &Frac, setting: &Frac, target: &Frac) -> Frac
    requires rate { IsRate rate.now }
    requires gap { zero ≤ℚ gap.now }
    requires on_its_way { IsOnItsWay rate.now setting.now target.now }
    ensures { result ≡ setting_moved rate.now gap.now setting.now target.now }
{
    if rate.is_zero() {
        return *target;
    }
    if !Frac::zero().is_less(rate) {
        return *target;
    }
    // a target in lowest terms is the number that is reached
    let _held = target.num();
    if !gap.is_less(rate) {
        return *target;
    }
    towards(setting, target, reach(gap, rate))
}

/// How far a link moves in a gap that is shorter than its rate: the gap over the rate, with nine
/// decimals.
fn reach(gap: &Frac, rate: &Frac) -> Frac
    requires rate { IsRate rate.now }
    requires takes_time { zero <ℚ rate.now }
    requires least { zero ≤ℚ gap.now }
    requires below { gap.now <ℚ rate.now }
    ensures value { result ≡ far gap.now rate.now }
    ensures reach { IsReach result }
{
    let part = times(gap.num(), rate.den());
    let whole = times(gap.den(), rate.num());
    billionths(nearest_billionths(part, whole))
}

/// So many billionths, at most 1.
fn billionths(count: i128) -> Frac
    requires least { pos 0 ≤ℤ count }
    requires most { count ≤ℤ pos 1000000000 }
    ensures { result ≡ ratio count 1000000000 }
{
    match Frac::make(count, BILLION) {
        Some(number) => number,
        None => Frac::zero(),
    }
}

/// Where a setting comes that moves so far towards a target: not back, and not past the target.
#[tactic(auto, unfolding(rule_meaning::specs::Movement::towards))]
fn towards(setting: &Frac, target: &Frac, reach: Frac) -> Frac
    requires least { zero ≤ℚ setting.now }
    requires most { setting.now ≤ℚ one }
    requires reach { IsReach reach }
    ensures { result ≡ going setting.now target.now reach }
{
    if setting.is_less(target) {
        return up(setting, reach).min(*target);
    }
    if target.is_less(setting) {
        return down(setting, reach).max(*target);
    }
    *target
}

/// A setting and so much more, and not less than it was.
fn up(setting: &Frac, reach: Frac) -> Frac
    requires least { zero ≤ℚ setting.now }
    requires most { setting.now ≤ℚ one }
    requires reach { IsReach reach }
    ensures { result ≡ greater_of setting.now (sum_of (round9_of setting.now) reach) }
{
    let Ok(rounded) = setting.round9() else {
        return *setting;
    };
    match rounded.add(reach) {
        Ok(sum) => setting.max(sum),
        Err(_) => *setting,
    }
}

/// A setting and so much less, and not more than it was.
fn down(setting: &Frac, reach: Frac) -> Frac
    requires least { zero ≤ℚ setting.now }
    requires most { setting.now ≤ℚ one }
    requires reach { IsReach reach }
    ensures { result ≡ lesser_of setting.now (difference_of (round9_of setting.now) reach) }
{
    let Ok(rounded) = setting.round9() else {
        return *setting;
    };
    match rounded.sub(reach) {
        Ok(difference) => setting.min(difference),
        Err(_) => *setting,
    }
}

/// The product of two numbers.
fn times(a: i64, b: i64) -> u128
    requires left { pos 0 ≤ℤ a }
    requires right { pos 0 ≤ℤ b }
    ensures { result ≡ unsigned_abs a * unsigned_abs b }
{
    a.unsigned_abs() as u128 * b.unsigned_abs() as u128
}

/// The nearest whole number of billionths to `part / whole`, half upward.
fn nearest_billionths(part: u128, whole: u128) -> i128
    requires size { part < 2 ^ 95 }
    requires positive { 0 < whole }
    requires small { whole < 2 ^ 126 }
    ensures { result ≡ pos (billionths_of part whole) }
{
    ((2 * (part * 1_000_000_000) + whole) / (2 * whole)) as i128
}
