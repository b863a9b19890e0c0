//! The rules of the grammar, each with the count of parentheses that may still enclose one another.
ghost use Rattle.std.specs.Prelude.{◌≡◌};
ghost use Rattle.expr_parser.specs.Formulas as spec;
ghost use Rattle.expr_parser.specs.Parsers.{Reads};

use crate::built::{
    Built, applied, constant, enclosed, joined, negated, product_operator, raised, sum_operator,
    variable,
};
use crate::cursor::{Cursor, is_close};
use crate::failure::Failure;
use crate::source::SourceText;
use crate::token::{Token, TokenKind};
use std::alloc::Global;

/// A sum with at most `nesting` parentheses in one another.
#[cycle(sum)]
#[tactic(auto, unfolding(crate::specs::Formulas::sum))]
pub(crate) fn sum(
    alloc: Global,
    source: &SourceText<'_>,
    tokens: &mut Cursor<'_>,
    nesting: usize,
) -> Result<Built, Failure>
    ensures { Reads (spec.sum source.now nesting tokens.old) result tokens.new }
{
    if nesting == 0 {
        return Err(Failure::Grammar);
    }
    products(alloc, source, tokens, nesting - 1)
}

#[cycle(sum)]
#[tactic(auto, unfolding(crate::specs::Formulas::products, crate::specs::Formulas::operations))]
fn products(
    alloc: Global,
    source: &SourceText<'_>,
    tokens: &mut Cursor<'_>,
    nesting: usize,
) -> Result<Built, Failure>
    ensures { Reads (spec.products source.now (spec.sum source.now nesting) tokens.old)
        result tokens.new }
{
    let mut left = product(alloc, source, tokens, nesting)?;
    for _turn in 0..tokens.left() {
        let Some(operator) = sum_operator(tokens.peek()) else {
            return Ok(left);
        };
        tokens.take()?;
        let right = product(alloc, source, tokens, nesting)?;
        left = joined(alloc, operator, left, right)?;
    }
    Ok(left)
}

#[cycle(sum)]
#[tactic(auto, unfolding(crate::specs::Formulas::product, crate::specs::Formulas::operations))]
fn product(
    alloc: Global,
    source: &SourceText<'_>,
    tokens: &mut Cursor<'_>,
    nesting: usize,
) -> Result<Built, Failure>
    ensures { Reads (spec.product source.now (spec.sum source.now nesting) tokens.old)
        result tokens.new }
{
    let mut left = signed(alloc, source, tokens, nesting)?;
    for _turn in 0..tokens.left() {
        let Some(operator) = product_operator(tokens.peek()) else {
            return Ok(left);
        };
        tokens.take()?;
        let right = signed(alloc, source, tokens, nesting)?;
        left = joined(alloc, operator, left, right)?;
    }
    Ok(left)
}

#[cycle(sum)]
#[tactic(auto, unfolding(crate::specs::Formulas::signed))]
fn signed(
    alloc: Global,
    source: &SourceText<'_>,
    tokens: &mut Cursor<'_>,
    nesting: usize,
) -> Result<Built, Failure>
    ensures { Reads (spec.signed source.now (spec.sum source.now nesting) tokens.old)
        result tokens.new }
{
    match tokens.peek() {
        TokenKind::Plus => {
            tokens.take()?;
            Ok(enclosed(power(alloc, source, tokens, nesting)?))
        }
        TokenKind::Minus => {
            tokens.take()?;
            Ok(negated(alloc, power(alloc, source, tokens, nesting)?)?)
        }
        _ => power(alloc, source, tokens, nesting),
    }
}

#[cycle(sum)]
#[tactic(auto, unfolding(crate::specs::Formulas::power))]
fn power(
    alloc: Global,
    source: &SourceText<'_>,
    tokens: &mut Cursor<'_>,
    nesting: usize,
) -> Result<Built, Failure>
    ensures { Reads (spec.power source.now (spec.sum source.now nesting) tokens.old)
        result tokens.new }
{
    let base = atom(alloc, source, tokens, nesting)?;
    to_power(alloc, source, tokens, base)
}

/// What stands behind the atom of a power.
#[tactic(auto, unfolding(crate::specs::Formulas::to_power))]
fn to_power(
    alloc: Global,
    source: &SourceText<'_>,
    tokens: &mut Cursor<'_>,
    base: Built,
) -> Result<Built, Failure>
    ensures { Reads (spec.to_power source.now base tokens.old) result tokens.new }
{
    match tokens.peek() {
        TokenKind::Caret => {
            tokens.take()?;
            exponent(alloc, source, tokens, base)
        }
        _ => Ok(base),
    }
}

/// What stands behind `^`.
#[tactic(auto, unfolding(crate::specs::Formulas::exponent))]
fn exponent(
    alloc: Global,
    source: &SourceText<'_>,
    tokens: &mut Cursor<'_>,
    base: Built,
) -> Result<Built, Failure>
    ensures { Reads (spec.exponent source.now base tokens.old) result tokens.new }
{
    match tokens.peek() {
        TokenKind::Number => {
            let token = tokens.take()?;
            match source.digit_of(token) {
                Some(power) => Ok(raised(alloc, base, power)?),
                None => Err(Failure::Grammar),
            }
        }
        _ => Err(Failure::Grammar),
    }
}

#[cycle(sum)]
#[tactic(auto, unfolding(crate::specs::Formulas::atom))]
fn atom(
    alloc: Global,
    source: &SourceText<'_>,
    tokens: &mut Cursor<'_>,
    nesting: usize,
) -> Result<Built, Failure>
    ensures { Reads (spec.atom source.now (spec.sum source.now nesting) tokens.old)
        result tokens.new }
{
    match tokens.peek() {
        TokenKind::Name => {
            let token = tokens.take()?;
            named(alloc, source, tokens, nesting, token)
        }
        TokenKind::Number => {
            let token = tokens.take()?;
            Ok(constant(alloc, source, token)?)
        }
        TokenKind::Open => Ok(enclosed(group(alloc, source, tokens, nesting)?)),
        _ => Err(Failure::Grammar),
    }
}

/// What a name is, by the token behind it.
#[cycle(sum)]
#[tactic(auto, unfolding(crate::specs::Formulas::named))]
fn named(
    alloc: Global,
    source: &SourceText<'_>,
    tokens: &mut Cursor<'_>,
    nesting: usize,
    token: Token,
) -> Result<Built, Failure>
    ensures { Reads (spec.named source.now (spec.sum source.now nesting) token tokens.old)
        result tokens.new }
{
    match tokens.peek() {
        TokenKind::Open => match source.function_of(token) {
            Some(function) => {
                let operand = group(alloc, source, tokens, nesting)?;
                Ok(applied(alloc, function, operand)?)
            }
            None => Err(Failure::Grammar),
        },
        _ => Ok(variable(alloc, source, token)?),
    }
}

/// What parentheses enclose, from `(` on.
#[cycle(sum)]
#[tactic(auto, unfolding(crate::specs::Formulas::group))]
fn group(
    alloc: Global,
    source: &SourceText<'_>,
    tokens: &mut Cursor<'_>,
    nesting: usize,
) -> Result<Built, Failure>
    ensures { Reads (spec.group source.now (spec.sum source.now nesting) tokens.old)
        result tokens.new }
{
    tokens.take()?;
    let inner = sum(alloc, source, tokens, nesting)?;
    closed(tokens, inner)
}

/// `)`, behind what it encloses.
#[tactic(auto, unfolding(crate::specs::Formulas::closed))]
fn closed(tokens: &mut Cursor<'_>, inner: Built) -> Result<Built, Failure>
    ensures { Reads (spec.closed inner tokens.old) result tokens.new }
{
    if !is_close(tokens.peek()) {
        return Err(Failure::Grammar);
    }
    tokens.take()?;
    Ok(inner)
}
