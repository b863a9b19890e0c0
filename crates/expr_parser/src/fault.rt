//! Why a text is not read as a formula.
use inp_text::Span;

/// Why a text is not read as a formula. The causes are looked for in this order.
#[derive(Clone, Copy, PartialEq, Eq)]
pub enum ExprCause {
    /// A name without `(` behind it is no variable.
    UnknownName,
    /// A name with `(` behind it is no function of formulas: abs, sgn or step.
    OutsideFunction,
    /// The text is not in the grammar of formulas.
    BadExpression,
    /// A number is past the bounds of numbers.
    NumberTooLarge,
    /// The formula has more than 64 levels.
    TooDeep,
}

/// Why a text is not read as a formula, and where: the first name or number at fault, and the whole
/// text for BadExpression and TooDeep. NoMemory where memory is out.
#[derive(Clone, Copy, PartialEq, Eq)]
pub enum ExprFault {
    Fault { cause: ExprCause, span: Span },
    NoMemory,
}
