//! The values of formulas.
ghost use Rattle.std.specs.Prelude.{◌≡◌, Ok, Some, if◌then◌else◌};
ghost use Rattle.exact_fraction.specs.Number.{zero, one};
ghost use Rattle.exact_fraction.specs.Order.{less};
ghost use Rattle.exact_fraction.specs.Operations.{sum_of, difference_of, product_of, negation_of};
ghost use Rattle.rule_meaning.specs.Formula.{fitted, on_number, on_numbers, divided, power};
ghost use Rattle.rule_meaning.specs.Formula.{sign_of};
ghost use Rattle.rule_meaning.specs.Formula.{size_of, step_of};
ghost use Rattle.premise_eval.specs.internal.FormulaReading.{variable_read, formula_read};

use crate::place::{Place, value_at};
use exact_fraction::error::DivFault;
use exact_fraction::frac::Frac;
use rule_types::{Expr, State, StopCause};

/// What a formula gives: a number, None where an operand is missing, or a stop.
pub(crate) type Derived = Result<Option<Frac>, StopCause>;

/// The value of a formula at a state, whose variables have these places: from the left to the
/// right, the first operand that is missing or stops is the result.
#[tactic(auto, unfolding(crate::specs::internal::FormulaReading::formula_read, rule_meaning::specs::Formula::worked_step),)]
pub(crate) fn formula_read(state: &State, places: &[Place], formula: &Expr) -> Derived
    ensures value { result ≡ formula_read state.now places.now formula.now }
{
    match formula {
        Expr::Number(q) => Ok(Some(*q)),
        Expr::Name(n) => variable_read(state, places, *n),
        Expr::Neg(a) => negated(formula_read(state, places, a.get())),
        Expr::Abs(a) => sized(formula_read(state, places, a.get())),
        Expr::Sgn(a) => signed(formula_read(state, places, a.get())),
        Expr::Step(a) => stepped(formula_read(state, places, a.get())),
        Expr::Add(a, b) => {
            let left = formula_read(state, places, a.get());
            let right = formula_read(state, places, b.get());
            added(left, right)
        }
        Expr::Sub(a, b) => {
            let left = formula_read(state, places, a.get());
            let right = formula_read(state, places, b.get());
            subtracted(left, right)
        }
        Expr::Mul(a, b) => {
            let left = formula_read(state, places, a.get());
            let right = formula_read(state, places, b.get());
            multiplied(left, right)
        }
        Expr::Div(a, b) => {
            let left = formula_read(state, places, a.get());
            let right = formula_read(state, places, b.get());
            divided_by(left, right)
        }
        Expr::Pow(a, n) => raised(formula_read(state, places, a.get()), *n),
    }
}

/// The value of the variable of a place among the names.
#[tactic(auto, unfolding(crate::specs::internal::FormulaReading::variable_read))]
fn variable_read(state: &State, places: &[Place], n: u32) -> Derived
    ensures value { result ≡ variable_read state.now places.now n }
{
    match places.get(n as usize) {
        Some(place) => Ok(value_at(state, place)),
        None => Ok(None),
    }
}

/// The negation of an operand.
fn negated(a: Derived) -> Derived
    ensures value { result ≡ on_number a (λ p. Ok (Some (negation_of p))) }
{
    let Some(p) = a? else {
        return Ok(None);
    };
    Ok(Some(p.neg()))
}

/// An operand without its sign.
fn sized(a: Derived) -> Derived
    ensures value { result ≡ on_number a (λ p. Ok (Some (size_of p))) }
{
    let Some(p) = a? else {
        return Ok(None);
    };
    Ok(Some(size_of(p)))
}

/// The sign of an operand.
fn signed(a: Derived) -> Derived
    ensures value { result ≡ on_number a (λ p. Ok (Some (sign_of p))) }
{
    let Some(p) = a? else {
        return Ok(None);
    };
    Ok(Some(sign_of(p)))
}

/// 0 where an operand is at most 0, else 1.
fn stepped(a: Derived) -> Derived
    ensures value { result ≡ on_number a (λ p. Ok (Some (step_of p))) }
{
    let Some(p) = a? else {
        return Ok(None);
    };
    Ok(Some(step_of(p)))
}

/// The sum of two operands.
fn added(a: Derived, b: Derived) -> Derived
    ensures value { result ≡ on_numbers a b (λ p q. fitted (sum_of p q)) }
{
    let Some(p) = a? else {
        return Ok(None);
    };
    let Some(q) = b? else {
        return Ok(None);
    };
    sum_fitted(p, q)
}

/// The difference of two operands.
fn subtracted(a: Derived, b: Derived) -> Derived
    ensures value { result ≡ on_numbers a b (λ p q. fitted (difference_of p q)) }
{
    let Some(p) = a? else {
        return Ok(None);
    };
    let Some(q) = b? else {
        return Ok(None);
    };
    difference_fitted(p, q)
}

/// The product of two operands.
fn multiplied(a: Derived, b: Derived) -> Derived
    ensures value { result ≡ on_numbers a b (λ p q. fitted (product_of p q)) }
{
    let Some(p) = a? else {
        return Ok(None);
    };
    let Some(q) = b? else {
        return Ok(None);
    };
    product_fitted(p, q)
}

/// The quotient of two operands.
fn divided_by(a: Derived, b: Derived) -> Derived
    ensures value { result ≡ on_numbers a b divided }
{
    let Some(p) = a? else {
        return Ok(None);
    };
    let Some(q) = b? else {
        return Ok(None);
    };
    quotient_fitted(p, q)
}

/// An operand to a power.
fn raised(a: Derived, n: u8) -> Derived
    ensures value { result ≡ on_number a (λ p. power p n) }
{
    let Some(p) = a? else {
        return Ok(None);
    };
    power(&p, n)
}

/// The sum, where it fits.
#[tactic(auto, unfolding(rule_meaning::specs::Formula::fitted, exact_fraction::specs::Checked::checked),)]
fn sum_fitted(p: Frac, q: Frac) -> Derived
    ensures value { result ≡ fitted (sum_of p q) }
{
    match p.add(q) {
        Ok(sum) => Ok(Some(sum)),
        Err(_) => Err(StopCause::Overflow),
    }
}

/// The difference, where it fits.
#[tactic(auto, unfolding(rule_meaning::specs::Formula::fitted, exact_fraction::specs::Checked::checked),)]
fn difference_fitted(p: Frac, q: Frac) -> Derived
    ensures value { result ≡ fitted (difference_of p q) }
{
    match p.sub(q) {
        Ok(difference) => Ok(Some(difference)),
        Err(_) => Err(StopCause::Overflow),
    }
}

/// The product, where it fits.
#[tactic(auto, unfolding(rule_meaning::specs::Formula::fitted, exact_fraction::specs::Checked::checked),)]
fn product_fitted(p: Frac, q: Frac) -> Derived
    ensures value { result ≡ fitted (product_of p q) }
{
    match p.mul(q) {
        Ok(product) => Ok(Some(product)),
        Err(_) => Err(StopCause::Overflow),
    }
}

/// The quotient, where the divisor is not 0 and it fits.
#[tactic(auto, unfolding(rule_meaning::specs::Formula::divided, rule_meaning::specs::Formula::fitted, exact_fraction::specs::Checked::checked_quotient,),)]
fn quotient_fitted(p: Frac, q: Frac) -> Derived
    ensures value { result ≡ divided p q }
{
    match p.div(q) {
        Ok(quotient) => Ok(Some(quotient)),
        Err(DivFault::Zero) => Err(StopCause::ZeroDivisor),
        Err(DivFault::Overflow) => Err(StopCause::Overflow),
    }
}

/// A number to a power: it fits where each product on the way does.
#[tactic(auto, unfolding(rule_meaning::specs::Formula::power))]
fn power(p: &Frac, n: u8) -> Derived
    ensures value { result ≡ power p.now n }
{
    let mut found = Ok(Some(Frac::one()));
    for _k in 0..n {
        found = multiplied(found, Ok(Some(*p)));
    }
    found
}

/// The number without its sign.
#[tactic(auto, unfolding(rule_meaning::specs::Formula::size_of))]
fn size_of(p: Frac) -> Frac
    ensures value { result ≡ size_of p }
{
    if p.is_less(&Frac::zero()) {
        return p.neg();
    }
    p
}

/// -1, 0 or 1 by the sign.
#[tactic(auto, unfolding(rule_meaning::specs::Formula::sign_of))]
fn sign_of(p: Frac) -> Frac
    ensures value { result ≡ sign_of p }
{
    if p.is_less(&Frac::zero()) {
        return Frac::one().neg();
    }
    step_from_zero(p)
}

/// 1 where the number is above 0, else 0.
fn step_from_zero(p: Frac) -> Frac
    ensures value { result ≡ (if less zero p then one else zero) }
{
    if Frac::zero().is_less(&p) {
        return Frac::one();
    }
    Frac::zero()
}

/// 0 where the number is at most 0, else 1.
#[tactic(auto, unfolding(rule_meaning::specs::Formula::step_of))]
fn step_of(p: Frac) -> Frac
    ensures value { result ≡ step_of p }
{
    step_from_zero(p)
}
