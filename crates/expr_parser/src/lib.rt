//! The formulas of EXPRESSION lines (SWMM 5.2 manual, [CONTROLS]): the names that are declared, and
//! the reading of a formula over them.
#![tactic(auto)]

mod acceptance;
mod built;
mod cursor;
pub mod examples;
mod failure;
mod fault;
mod function;
mod grammar;
pub mod laws;
mod lex;
mod name_index;
mod numbers;
mod read;
mod source;
mod token;

pub use fault::{ExprCause, ExprFault};
pub use name_index::{DeclaredName, NameIndex};
pub use read::read_expr;
