//! The step of a PID action: from the error of its controller to the new value of its link.
#![tactic(auto)]

ghost use Rattle.std.specs.Prelude.{◌≡◌, false, pos, Some, IfOk};
ghost use Rattle.exact_fraction.specs.Number.{ratio, whole, zero, IsNumber};
ghost use Rattle.exact_fraction.specs.Order.{◌<ℚ◌};
ghost use Rattle.exact_fraction.specs.Operations.{quotient_of};
ghost use Rattle.exact_fraction.specs.Checked.{checked, is_zero};
ghost use Rattle.rule_meaning.specs.Formula.{size_of};
ghost use Rattle.rule_meaning.specs.Worth.{value_stepped};
ghost use Rattle.rule_meaning.specs.History.{memory_left};
ghost use Rattle.rule_meaning.specs.Pid.{is_tiny, relative_error, error_of, unstuck, integral_part};
ghost use Rattle.rule_meaning.specs.Pid.{derivative_part, change_of, bounded, IsPidValue, pid_step};

use exact_fraction::error::Overflow;
use exact_fraction::frac::Frac;
use exact_fraction::relation::Relation;
use rule_types::{PidMemory, PidSet};

/// One step of a PID action on a link with the target `old`, whose controller is `x`, `minutes`
/// after the step before: the new value of the link, with nine decimals, and the errors in `memory`
/// moved on by one.
///
/// Overflow where a result on the way does not fit; the errors then stay. A step is about 20
/// operations on numbers, and allocates nothing (SWMM 5.2 manual, modulated controls).
#[tactic(auto, using(crate::proofs::Steps::above_divides), unfolding(rule_meaning::specs::Pid::pid_step),)]
pub fn pid_step(
    set: PidSet,
    set_point: Frac,
    x: Frac,
    old: Frac,
    minutes: Frac,
    pump: bool,
    memory: &mut PidMemory,
) -> Result<Frac, Overflow>
    requires positive { zero <ℚ minutes }
    ensures value { result ≡ value_stepped (pid_step set set_point x old minutes pump memory.old) }
    ensures memory { memory.new
        ≡ memory_left memory.old (Some (pid_step set set_point x old minutes pump memory.old)) }

    ensures number { IfOk result IsNumber }
    ensures bounds { IfOk result (IsPidValue pump) }
{
    let error = error_of(set_point, x)?;
    let kept = unstuck(error, *memory)?;
    let change = change_of(set, error, kept, minutes)?;
    let rounded = old.add(change)?.round9()?;
    *memory = PidMemory {
        e1: error,
        e2: kept.e1,
    };
    Ok(bounded(pump, rounded))
}

/// The error of a controller `x`: 0 at the set point, -1 where the set point is 0, else the
/// relative error.
#[tactic(auto, unfolding(rule_meaning::specs::Pid::error_of))]
fn error_of(set_point: Frac, x: Frac) -> Result<Frac, Overflow>
    ensures value { result ≡ error_of set_point x }
{
    if Relation::Eq.holds(&x, &set_point) {
        return Ok(Frac::zero());
    }
    if is_zero(set_point) {
        return Ok(Frac::one().neg());
    }
    relative_error(set_point, x)
}

/// The relative error, with nine decimals.
#[tactic(auto, unfolding(rule_meaning::specs::Pid::relative_error))]
fn relative_error(set_point: Frac, x: Frac) -> Result<Frac, Overflow>
    requires divides { is_zero set_point ≡ false }
    ensures value { result ≡ relative_error set_point x }
{
    let gap = set_point.sub(x)?;
    quotient(gap, set_point)?.round9()
}

/// The errors that count: where the error has hardly moved the controller is stuck, and they are 0.
#[tactic(auto, unfolding(rule_meaning::specs::Pid::unstuck))]
fn unstuck(error: Frac, memory: PidMemory) -> Result<PidMemory, Overflow>
    ensures value { result ≡ unstuck error memory }
{
    let moved = error.sub(memory.e1)?;
    if is_tiny(moved) {
        return Ok(PidMemory {
            e1: Frac::zero(),
            e2: Frac::zero(),
        });
    }
    Ok(memory)
}

/// The integral part of the change: 0 where the integral time is 0.
#[tactic(auto, unfolding(rule_meaning::specs::Pid::integral_part))]
fn integral_part(set: PidSet, error: Frac, minutes: Frac) -> Result<Frac, Overflow>
    ensures value { result ≡ integral_part set error minutes }
{
    if is_zero(set.integral) {
        return Ok(Frac::zero());
    }
    let area = error.mul(minutes)?;
    quotient(area, set.integral)
}

/// The derivative part of the change.
#[tactic(auto, unfolding(rule_meaning::specs::Pid::derivative_part))]
fn derivative_part(
    set: PidSet,
    error: Frac,
    memory: PidMemory,
    minutes: Frac,
) -> Result<Frac, Overflow>
    requires divides { is_zero minutes ≡ false }
    ensures value { result ≡ derivative_part set error memory minutes }
{
    let twice = two().mul(memory.e1)?;
    let bend = error.sub(twice)?.add(memory.e2)?;
    let product = set.derivative.mul(bend)?;
    quotient(product, minutes)
}

/// The change of the setting: the gain times the proportional, integral and derivative parts, and 0
/// where that is small.
#[tactic(auto, unfolding(rule_meaning::specs::Pid::change_of))]
fn change_of(set: PidSet, error: Frac, memory: PidMemory, minutes: Frac) -> Result<Frac, Overflow>
    requires divides { is_zero minutes ≡ false }
    ensures value { result ≡ change_of set error memory minutes }
{
    let proportional = error.sub(memory.e1)?;
    let integral = integral_part(set, error, minutes)?;
    let derivative = derivative_part(set, error, memory, minutes)?;
    let parts = proportional.add(integral)?.add(derivative)?;
    let change = set.gain.mul(parts)?;
    if is_tiny(change) {
        return Ok(Frac::zero());
    }
    Ok(change)
}

/// The setting in its bounds: at least 0, and at most 1 unless the link is a pump.
#[tactic(auto, unfolding(rule_meaning::specs::Pid::bounded))]
fn bounded(pump: bool, q: Frac) -> Frac
    ensures value { result ≡ bounded pump q }
{
    let least = Frac::zero().max(q);
    if pump { least } else { Frac::one().min(least) }
}

/// Whether a number lies closer to 0 than 0.0001.
#[tactic(auto, unfolding(rule_meaning::specs::Pid::is_tiny))]
fn is_tiny(q: Frac) -> bool
    ensures value { result ≡ is_tiny q }
{
    Relation::Lt.holds(&size_of(q), &ten_thousandth())
}

/// The number without its sign.
#[tactic(auto, unfolding(rule_meaning::specs::Formula::size_of))]
fn size_of(q: Frac) -> Frac
    ensures value { result ≡ size_of q }
{
    if Relation::Lt.holds(&q, &Frac::zero()) {
        q.neg()
    } else {
        q
    }
}

/// Whether a number is 0.
#[tactic(auto, unfolding(exact_fraction::specs::Checked::is_zero))]
fn is_zero(q: Frac) -> bool
    ensures value { result ≡ is_zero q }
{
    q.num().unsigned_abs() == 0
}

/// The quotient by a number that is not 0.
#[tactic(auto, unfolding(exact_fraction::specs::Checked::checked_quotient, exact_fraction::specs::Checked::checked),)]
fn quotient(p: Frac, q: Frac) -> Result<Frac, Overflow>
    requires divides { is_zero q ≡ false }
    ensures value { result ≡ checked (quotient_of p q) }
{
    match p.div(q) {
        Ok(quotient) => Ok(quotient),
        Err(_) => Err(Overflow),
    }
}

/// The number 2.
#[tactic(auto, using(crate::proofs::Steps::two_made))]
fn two() -> Frac
    ensures value { result ≡ whole (pos 2) }
{
    match Frac::make(2, 1) {
        Some(number) => number,
        None => Frac::one(),
    }
}

/// The number 0.0001.
#[tactic(auto, using(crate::proofs::Steps::ten_thousandth_made))]
fn ten_thousandth() -> Frac
    ensures value { result ≡ ratio (pos 1) 10000 }
{
    match Frac::make(1, 10_000) {
        Some(number) => number,
        None => Frac::zero(),
    }
}

#[cfg(test)]
mod tests {
    use super::*;
    use std::test::Fail;

    fn number(n: i8, d: i8) -> Result<Frac, &'static str> {
        Frac::make(i128::from(n), i128::from(d)).ok_or("a quotient of small numbers")
    }

    /// Worked by hand: the error is (2 - 4) / 2, and the change 0.1 * (-1 - 1 / 10).
    #[tactic(auto, using(crate::proofs::Steps::one_above))]
    #[test]
    fn worked_example(rt: HostRuntime) -> Result<(), Fail> {
        let none = number(0, 1)?;
        let set = PidSet {
            gain: number(1, 10)?,
            integral: number(10, 1)?,
            derivative: none,
        };
        let (set_point, controller) = (number(2, 1)?, number(4, 1)?);
        let mut memory = PidMemory { e1: none, e2: none };
        let value = pid_step(
            set,
            set_point,
            controller,
            Frac::one(),
            Frac::one(),
            false,
            &mut memory,
        );
        assert!(rt; value == Ok(number(89, 100)?));
        assert!(rt; memory.e1 == number(-1, 1)? && memory.e2 == none);
        Ok(())
    }
}
