//! Whether tokens are in the grammar, decided without recursion.
ghost use Rattle.std.specs.Prelude.{◌≡◌, is_some};
ghost use Rattle.expr_parser.specs.declared.acceptance.Stage.TheVariants.{Operand};
ghost use Rattle.expr_parser.specs.internal.Acceptance as spec;

use crate::source::SourceText;
use crate::token::{Token, TokenKind};

/// What may come next in a formula.
#[derive(Clone, Copy, PartialEq, Eq)]
pub enum Stage {
    /// An operand, with a sign or without.
    Operand,
    /// An operand without a sign.
    Signed,
    /// What may come behind an atom, or `(`.
    Function,
    /// `^`, or what may come behind a power.
    Atom,
    /// A digit.
    Exponent,
    /// An operator, `)` or the end.
    Power,
}

/// What a token does.
#[derive(Clone, Copy, PartialEq, Eq)]
pub enum Move {
    /// It may not come here.
    Stop,
    To(Stage),
    /// It opens a parenthesis.
    Opens,
    /// It closes one.
    Closes,
}

/// Whether tokens are in the grammar of formulas. It takes no memory, and time in proportion to the
/// tokens, however deep the parentheses are nested.
pub(crate) fn is_formula(source: &SourceText<'_>, tokens: &[Token]) -> bool
    ensures value { result ≡ spec.accepts source.now Operand 0 tokens.now }
{
    let mut stage = Stage::Operand;
    let mut open: usize = 0;
    for i in 0..tokens.len() {
        match next_move(source, stage, tokens[i]) {
            Move::Stop => return false,
            Move::To(next) => stage = next,
            Move::Opens => {
                stage = Stage::Operand;
                open += 1;
            }
            Move::Closes => {
                if open == 0 {
                    return false;
                }
                stage = Stage::Atom;
                open -= 1;
            }
        }
    }
    may_end(stage) && open == 0
}

/// What a token does behind the tokens before it.
#[tactic(auto, unfolding(crate::specs::internal::Acceptance::next_move))]
fn next_move(source: &SourceText<'_>, stage: Stage, token: Token) -> Move
    ensures { result ≡ spec.next_move source.now stage token }
{
    match stage {
        Stage::Operand => signed_move(source.function_of(token).is_some(), token.kind),
        Stage::Signed => operand_move(source.function_of(token).is_some(), token.kind),
        Stage::Function => function_move(token.kind),
        Stage::Atom => atom_move(token.kind),
        Stage::Exponent => exponent_move(source.digit_of(token).is_some(), token.kind),
        Stage::Power => power_move(token.kind),
    }
}

fn signed_move(is_function: bool, kind: TokenKind) -> Move
    ensures { result ≡ spec.signed_move is_function kind }
{
    match kind {
        TokenKind::Plus | TokenKind::Minus => Move::To(Stage::Signed),
        _ => operand_move(is_function, kind),
    }
}

fn operand_move(is_function: bool, kind: TokenKind) -> Move
    ensures { result ≡ spec.operand_move is_function kind }
{
    match kind {
        TokenKind::Name => {
            if is_function {
                Move::To(Stage::Function)
            } else {
                Move::To(Stage::Atom)
            }
        }
        TokenKind::Number => Move::To(Stage::Atom),
        TokenKind::Open => Move::Opens,
        _ => Move::Stop,
    }
}

fn function_move(kind: TokenKind) -> Move
    ensures { result ≡ spec.function_move kind }
{
    match kind {
        TokenKind::Open => Move::Opens,
        _ => atom_move(kind),
    }
}

fn atom_move(kind: TokenKind) -> Move
    ensures { result ≡ spec.atom_move kind }
{
    match kind {
        TokenKind::Caret => Move::To(Stage::Exponent),
        _ => power_move(kind),
    }
}

fn exponent_move(is_digit: bool, kind: TokenKind) -> Move
    ensures { result ≡ spec.exponent_move is_digit kind }
{
    match kind {
        TokenKind::Number => {
            if is_digit {
                Move::To(Stage::Power)
            } else {
                Move::Stop
            }
        }
        _ => Move::Stop,
    }
}

fn power_move(kind: TokenKind) -> Move
    ensures { result ≡ spec.power_move kind }
{
    match kind {
        TokenKind::Plus | TokenKind::Minus | TokenKind::Star | TokenKind::Slash => {
            Move::To(Stage::Operand)
        }
        TokenKind::Close => Move::Closes,
        _ => Move::Stop,
    }
}

fn may_end(stage: Stage) -> bool
    ensures { result ≡ spec.may_end stage }
{
    matches!(stage, Stage::Function | Stage::Atom | Stage::Power)
}
