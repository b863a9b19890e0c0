//! The reading of formulas.
ghost use Rattle.std.specs.Prelude.{◌≡◌, true, Err};
ghost use Rattle.expr_parser.specs.declared.acceptance.Stage.TheVariants.{Operand};
ghost use Rattle.expr_parser.specs.declared.fault.ExprFault.TheVariants.{Fault};
ghost use Rattle.expr_parser.specs.declared.token.TokenKind.{TokenKind};
ghost use Rattle.expr_parser.specs.Formulas.{formula_in};
ghost use Rattle.expr_parser.specs.internal.Acceptance.{accepts};
ghost use Rattle.expr_parser.specs.Reading as spec;
ghost use Rattle.expr_parser.specs.Reading.{Reports};

use crate::acceptance::is_formula;
use crate::built::{Built, MOST_LEVELS};
use crate::cursor::{Cursor, kind_at};
use crate::failure::Failure;
use crate::fault::{ExprCause, ExprFault};
use crate::grammar::sum;
use crate::lex::tokens;
use crate::name_index::NameIndex;
use crate::source::SourceText;
use crate::token::{Token, TokenKind};
use inp_text::Span;
use rule_types::Expr;
use std::alloc::Global;

/// The formula that a text is, over the names that were added as variables (SWMM 5.2 manual,
/// [CONTROLS]). A formula is built of numbers without a sign, of variables, of `+`, `-`, `*`, `/`,
/// of `^` and a digit from 0 to 8, of the functions abs, sgn and step, and of parentheses, with
/// spaces where wanted. The fault is the first of these that there is: UnknownName at the first
/// name without `(` behind it that is no variable; OutsideFunction at the first name with `(`
/// behind it that is no function; BadExpression of the whole text where it is not in the grammar;
/// NumberTooLarge at the first number past the bounds; TooDeep of the whole text where the formula
/// has more than 64 levels. Names and functions are looked for up to the first byte that begins no
/// token. NoMemory comes only where memory is out.
///
/// It takes time in proportion to the text and, for each name in it, to the number of names. Its
/// recursion is bounded by the 64 levels, whatever the text is.
#[tactic(auto, unfolding(crate::specs::Reading::expr_in))]
pub fn read_expr(alloc: Global, text: &[u8], names: &NameIndex) -> Result<Expr, ExprFault>
    ensures value { Reports (spec.expr_in names.now text.now) result }
{
    match tokens(alloc, text) {
        Ok(found) => read_tokens(alloc, &SourceText::new(text, names), found.as_slice()),
        Err(_) => Err(ExprFault::NoMemory),
    }
}

/// The formula that tokens are.
#[tactic(auto, unfolding(crate::specs::Reading::formula_of))]
fn read_tokens(alloc: Global, source: &SourceText<'_>, tokens: &[Token]) -> Result<Expr, ExprFault>
    ensures { Reports (spec.formula_of source.now tokens.now) result }
{
    if let Some(token) = first_unknown(source, tokens) {
        return at_token(ExprCause::UnknownName, token);
    }
    if let Some(token) = first_outside(source, tokens) {
        return at_token(ExprCause::OutsideFunction, token);
    }
    if !is_formula(source, tokens) {
        return of_whole(ExprCause::BadExpression, source.len());
    }
    read_formula(alloc, source, tokens)
}

/// The formula that tokens of the grammar are.
fn read_formula(alloc: Global, source: &SourceText<'_>, tokens: &[Token]) -> Result<Expr, ExprFault>
    requires accepted { accepts source.now Operand 0 tokens.now ≡ true }
    ensures { Reports (spec.built_or_fault source.now tokens.now (formula_in source.now tokens.now))
        result }
{
    if let Some(token) = first_too_large(source, tokens) {
        return at_token(ExprCause::NumberTooLarge, token);
    }
    let mut ahead = Cursor::new(tokens);
    match sum(alloc, source, &mut ahead, MOST_LEVELS + 1) {
        Ok(built) => if_shallow(source, built),
        Err(Failure::Grammar) => of_whole(ExprCause::TooDeep, source.len()),
        Err(Failure::NoMemory) => Err(ExprFault::NoMemory),
    }
}

/// A formula that is not too deep.
#[tactic(auto, unfolding(crate::specs::Reading::if_shallow))]
fn if_shallow(source: &SourceText<'_>, built: Built) -> Result<Expr, ExprFault>
    ensures { Reports (spec.if_shallow source.now.text built) result }
{
    let Built { formula, levels } = built;
    if levels <= MOST_LEVELS {
        Ok(formula.into_inner())
    } else {
        of_whole(ExprCause::TooDeep, source.len())
    }
}

/// A fault at a token.
fn at_token(cause: ExprCause, token: Token) -> Result<Expr, ExprFault>
    ensures { result ≡ Err (Fault cause token.span) }
{
    Err(ExprFault::Fault {
        cause,
        span: token.span,
    })
}

/// A fault of a whole text of so many bytes.
fn of_whole(cause: ExprCause, end: usize) -> Result<Expr, ExprFault>
    ensures { result ≡ Err (Fault cause (record { start = 0; end = end })) }
{
    Err(ExprFault::Fault {
        cause,
        span: Span { start: 0, end },
    })
}

/// The first name that is no variable.
fn first_unknown(source: &SourceText<'_>, tokens: &[Token]) -> Option<Token>
    ensures { result ≡ spec.first_token (spec.is_unknown source.now) tokens.now }
{
    for i in 0..tokens.len() {
        if is_unknown(source, tokens[i], kind_at(tokens, i + 1)) {
            return Some(tokens[i]);
        }
    }
    None
}

/// The first function that there is not.
fn first_outside(source: &SourceText<'_>, tokens: &[Token]) -> Option<Token>
    ensures { result ≡ spec.first_token (spec.is_outside source.now) tokens.now }
{
    for i in 0..tokens.len() {
        if is_outside(source, tokens[i], kind_at(tokens, i + 1)) {
            return Some(tokens[i]);
        }
    }
    None
}

/// The first number past the bounds.
fn first_too_large(source: &SourceText<'_>, tokens: &[Token]) -> Option<Token>
    ensures { result ≡ spec.first_token (spec.is_too_large source.now) tokens.now }
{
    for i in 0..tokens.len() {
        if is_too_large(source, tokens[i]) {
            return Some(tokens[i]);
        }
    }
    None
}

/// Whether a token, before one of some kind, is a name that is no variable.
#[tactic(auto, unfolding(crate::specs::Reading::is_unknown))]
fn is_unknown(source: &SourceText<'_>, token: Token, next: TokenKind) -> bool
    ensures { result ≡ spec.is_unknown source.now token next }
{
    is_name(token.kind) && !is_open(next) && source.variable_of(token).is_none()
}

/// Whether a token, before one of some kind, is a function that there is not.
#[tactic(auto, unfolding(crate::specs::Reading::is_outside))]
fn is_outside(source: &SourceText<'_>, token: Token, next: TokenKind) -> bool
    ensures { result ≡ spec.is_outside source.now token next }
{
    is_name(token.kind) && is_open(next) && source.function_of(token).is_none()
}

/// Whether a token is a number past the bounds.
#[tactic(auto, unfolding(crate::specs::Reading::is_too_large))]
fn is_too_large(source: &SourceText<'_>, token: Token) -> bool
    ensures { (next : TokenKind) → result ≡ spec.is_too_large source.now token next }
{
    is_number(token.kind) && source.number_of(token).is_none()
}

/// Whether a kind is that of names.
fn is_name(kind: TokenKind) -> bool
    ensures { result ≡ spec.is_name kind }
{
    matches!(kind, TokenKind::Name)
}

/// Whether a kind is that of numbers.
fn is_number(kind: TokenKind) -> bool
    ensures { result ≡ spec.is_number kind }
{
    matches!(kind, TokenKind::Number)
}

/// Whether a kind is that of `(`.
fn is_open(kind: TokenKind) -> bool
    ensures { result ≡ spec.is_open kind }
{
    matches!(kind, TokenKind::Open)
}
