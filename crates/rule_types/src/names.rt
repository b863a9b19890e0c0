//! Variables and expressions.
use crate::expr::Expr;
use crate::key::Key;
use list_types::Bytes;

/// What a name stands for (SWMM 5.2 manual, [CONTROLS]).
#[derive(Drop)]
pub enum NameKind {
    /// A key, declared by VARIABLE.
    Variable(Key),
    /// A formula over variables that are declared on earlier lines, declared by EXPRESSION.
    Formula(Expr),
}

/// A declared name (SWMM 5.2 manual, [CONTROLS]).
#[derive(Drop)]
pub struct NameDef {
    pub name: Bytes,
    pub stands_for: NameKind,
}
