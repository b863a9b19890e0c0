//! Formulas with their levels.
ghost use Rattle.std.specs.Prelude.{◌≡◌, IfOk, max};
ghost use Rattle.expr_parser.specs.Formulas as spec;

use crate::function::Function;
use crate::source::SourceText;
use crate::token::{Token, TokenKind};
use exact_fraction::frac::Frac;
use list_types::Boxed;
use rule_types::Expr;
use std::alloc::{AllocError, Global};

/// The most levels that a formula may have.
pub(crate) const MOST_LEVELS: usize = 64;

/// A formula, in a box as other formulas hold it, and the count of its levels: a number, a name, an
/// operator, a sign, a power, a function and a pair of parentheses are one level each.
#[derive(Drop)]
pub struct Built {
    pub formula: Boxed<Expr>,
    pub levels: usize,
}

/// An operator between two operands.
#[derive(Clone, Copy, PartialEq, Eq)]
pub enum Operator {
    Add,
    Subtract,
    Multiply,
    Divide,
}

/// One level more, counted up to one more than a formula may have.
#[tactic(auto, unfolding(crate::specs::Formulas::deeper))]
fn deeper(levels: usize) -> usize
    ensures { result ≡ spec.deeper levels }
{
    if levels <= MOST_LEVELS {
        levels + 1
    } else {
        MOST_LEVELS + 1
    }
}

/// A formula of so many levels.
fn built_of(alloc: Global, formula: Expr, levels: usize) -> Result<Built, AllocError>
    ensures { IfOk result (λ built. built ≡ record { formula = formula; levels = levels }) }
{
    Ok(Built {
        formula: Boxed::new(alloc, formula)?,
        levels,
    })
}

/// The formula of a name.
#[tactic(auto, unfolding(crate::specs::Formulas::variable))]
pub(crate) fn variable(
    alloc: Global,
    source: &SourceText<'_>,
    token: Token,
) -> Result<Built, AllocError>
    ensures { IfOk result (λ built. built ≡ spec.variable source.now token) }
{
    let place = match source.variable_of(token) {
        Some(place) => place,
        None => 0,
    };
    built_of(alloc, Expr::Name(place), 1)
}

/// The formula of a number.
#[tactic(auto, unfolding(crate::specs::Formulas::constant))]
pub(crate) fn constant(
    alloc: Global,
    source: &SourceText<'_>,
    token: Token,
) -> Result<Built, AllocError>
    ensures { IfOk result (λ built. built ≡ spec.constant source.now token) }
{
    let value = match source.number_of(token) {
        Some(value) => value,
        None => Frac::zero(),
    };
    built_of(alloc, Expr::Number(value), 1)
}

/// One level above a formula, which makes no part of it.
#[tactic(auto, unfolding(crate::specs::Formulas::enclosed))]
pub(crate) fn enclosed(a: Built) -> Built
    ensures { result ≡ spec.enclosed a }
{
    let Built { formula, levels } = a;
    Built {
        formula,
        levels: deeper(levels),
    }
}

/// A formula with a minus before it.
#[tactic(auto, unfolding(crate::specs::Formulas::negated))]
pub(crate) fn negated(alloc: Global, a: Built) -> Result<Built, AllocError>
    ensures { IfOk result (λ built. built ≡ spec.negated a) }
{
    let Built { formula, levels } = a;
    built_of(alloc, Expr::Neg(formula), deeper(levels))
}

/// A power of a formula.
#[tactic(auto, unfolding(crate::specs::Formulas::raised))]
pub(crate) fn raised(alloc: Global, a: Built, power: u8) -> Result<Built, AllocError>
    ensures { IfOk result (λ built. built ≡ spec.raised a power) }
{
    let Built { formula, levels } = a;
    built_of(alloc, Expr::Pow(formula, power), deeper(levels))
}

/// A function of a formula.
#[tactic(auto, unfolding(crate::specs::Formulas::applied))]
pub(crate) fn applied(alloc: Global, function: Function, a: Built) -> Result<Built, AllocError>
    ensures { IfOk result (λ built. built ≡ spec.applied function a) }
{
    let Built { formula, levels } = a;
    let whole = match function {
        Function::Abs => Expr::Abs(formula),
        Function::Sgn => Expr::Sgn(formula),
        Function::Step => Expr::Step(formula),
    };
    built_of(alloc, whole, deeper(levels))
}

/// Two formulas with an operator between them. Past the most levels it keeps no tree, so that none
/// nests as deep as a text is long.
#[tactic(auto, unfolding(crate::specs::Formulas::joined))]
pub(crate) fn joined(
    alloc: Global,
    operator: Operator,
    a: Built,
    b: Built,
) -> Result<Built, AllocError>
    ensures { IfOk result (λ built. built ≡ spec.joined operator a b) }
{
    let levels = deeper(a.levels.max(b.levels));
    if levels > MOST_LEVELS {
        return refused(alloc, levels);
    }
    let Built { formula: left, .. } = a;
    let Built { formula: right, .. } = b;
    built_of(alloc, operation(operator, left, right), levels)
}

/// What stands in the place of a formula of too many levels.
fn refused(alloc: Global, levels: usize) -> Result<Built, AllocError>
    ensures { IfOk result (λ built. built
        ≡ record { formula = spec.refused_formula; levels = levels }) }
{
    built_of(alloc, Expr::Number(Frac::zero()), levels)
}

/// The formula of an operator.
fn operation(operator: Operator, left: Boxed<Expr>, right: Boxed<Expr>) -> Expr
    ensures { result ≡ spec.operator_formula operator left right }
{
    match operator {
        Operator::Add => Expr::Add(left, right),
        Operator::Subtract => Expr::Sub(left, right),
        Operator::Multiply => Expr::Mul(left, right),
        Operator::Divide => Expr::Div(left, right),
    }
}

/// The operator between the parts of a sum that a token is.
pub(crate) fn sum_operator(kind: TokenKind) -> Option<Operator>
    ensures { result ≡ spec.sum_operator kind }
{
    match kind {
        TokenKind::Plus => Some(Operator::Add),
        TokenKind::Minus => Some(Operator::Subtract),
        _ => None,
    }
}

/// The operator between the parts of a product that a token is.
pub(crate) fn product_operator(kind: TokenKind) -> Option<Operator>
    ensures { result ≡ spec.product_operator kind }
{
    match kind {
        TokenKind::Star => Some(Operator::Multiply),
        TokenKind::Slash => Some(Operator::Divide),
        _ => None,
    }
}
