//! Formulas.
use exact_fraction::frac::Frac;
use list_types::Boxed;

/// The formula of an expression (SWMM 5.2 manual, [CONTROLS]). A sign `+` and parentheses make no
/// part of it.
#[cycle(expr)]
#[derive(Drop)]
pub enum Expr {
    Number(Frac),
    /// The variable of this place among the names.
    Name(u32),
    Neg(Boxed<Expr>),
    Abs(Boxed<Expr>),
    /// The sign: -1, 0 or 1.
    Sgn(Boxed<Expr>),
    /// 0 where the operand is at most 0, else 1.
    Step(Boxed<Expr>),
    Add(Boxed<Expr>, Boxed<Expr>),
    Sub(Boxed<Expr>, Boxed<Expr>),
    Mul(Boxed<Expr>, Boxed<Expr>),
    Div(Boxed<Expr>, Boxed<Expr>),
    Pow(Boxed<Expr>, u8),
}
