//! The formulas of expressions.
ghost use Rattle.std.specs.Prelude.{◌≡◌, ◌++◌, option_map, IfOk, OnOk};
ghost use Rattle.inp_text.specs.Items.{text_at};
ghost use Rattle.control_lines.specs.Views.{checked_now, fault_now, texts, statement_now};
ghost use Rattle.expr_parser.specs.Reading.{expr_in};
ghost use Rattle.rule_parser.specs.Formulas.{joined as joins, fault_by as told_by, formula_from};
ghost use Rattle.rule_parser.specs.internal.Views.{formula_text as text_of};

use byte_edge::NoMemory;
use control_lines::{Fault, Statement};
use expr_parser::{ExprCause, ExprFault, NameIndex, read_expr};
use inp_text::Span;
use rule_types::{Cause, Expr};
use std::alloc::Global;

/// The text of the formula of an expression, and of no other statement.
pub(crate) fn formula_text(
    alloc: Global,
    statement: &Option<Statement<'_>>,
) -> Result<Vec<u8>, NoMemory>
    ensures { IfOk result (λ text. text.items ≡ text_of (option_map statement_now statement.now)) }
{
    match statement {
        Some(Statement::Expression(_, formula)) => joined(alloc, formula),
        _ => Ok(Vec::new(alloc)),
    }
}

/// Items joined by single spaces.
fn joined(alloc: Global, items: &[&[u8]]) -> Result<Vec<u8>, NoMemory>
    ensures { IfOk result (λ text. text.items ≡ joins (texts items.now)) }
{
    let mut text = Vec::new(alloc);
    let [first, later @ ..] = items else {
        return Ok(text);
    };
    push_text(&mut text, first)?;
    for item in later {
        push_text(&mut text, b" ")?;
        push_text(&mut text, item)?;
    }
    Ok(text)
}

/// Adds some bytes to a text.
fn push_text(text: &mut Vec<u8>, bytes: &[u8]) -> Result<(), NoMemory>
    ensures { OnOk result (text.new.items ≡ text.old.items ++ bytes.now) }
{
    match text.extend_from_slice(bytes) {
        Ok(()) => Ok(()),
        Err(_) => Err(NoMemory),
    }
}

/// The formula that a declared name stands for, from its text.
pub(crate) fn read_formula<'a>(
    alloc: Global,
    declared: &NameIndex,
    name: &'a [u8],
    text: &'a [u8],
) -> Result<Result<Expr, Fault<'a>>, NoMemory>
    ensures { IfOk result (λ found. checked_now found
        ≡ formula_from name.now text.now (expr_in declared.now text.now)) }
{
    match read_expr(alloc, text, declared) {
        Ok(formula) => Ok(Ok(formula)),
        Err(ExprFault::NoMemory) => Err(NoMemory),
        Err(ExprFault::Fault { cause, span }) => Ok(Err(fault_by(
            cause,
            name,
            bytes_at(text, span),
        ))),
    }
}

/// The bytes of a text at a place.
fn bytes_at(text: &[u8], place: Span) -> &[u8]
    ensures { result.now ≡ text_at text.now place }
{
    let end = place.end.min(text.len());
    let start = place.start.min(end);
    &text[start..end]
}

/// What is reported of a formula.
fn fault_by<'a>(cause: ExprCause, name: &'a [u8], token: &'a [u8]) -> Fault<'a>
    ensures { fault_now result ≡ told_by cause name.now token.now }
{
    match cause {
        ExprCause::UnknownName => Fault {
            cause: Cause::UnknownName,
            token,
        },
        ExprCause::OutsideFunction => Fault {
            cause: Cause::OutsideFunction,
            token,
        },
        ExprCause::BadExpression => Fault {
            cause: Cause::BadExpression,
            token: name,
        },
        ExprCause::NumberTooLarge => Fault {
            cause: Cause::NumberTooLarge,
            token,
        },
        ExprCause::TooDeep => Fault {
            cause: Cause::TooMany,
            token: b"depth",
        },
    }
}
