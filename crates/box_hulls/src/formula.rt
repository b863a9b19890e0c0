//! What formulas can be worth in a box.
ghost use Rattle.std.specs.Prelude.{◌≡◌, slice_get};
ghost use Rattle.verdict_meaning.specs.Reaches.{formula_reach, variable_kind_reach, variable_reach};

use crate::keys::key_reach;
use crate::operations::{
    difference_reach, negation_reach, power_reach, product_reach, quotient_reach, sign_reach,
    size_reach, step_reach, sum_reach,
};
use exact_fraction::moment::Moment;
use interval_sets::Interval;
use rule_types::{Expr, NameDef, NameKind};
use verdict_meaning::{Cell, Reach};

/// What a formula over these names can be worth at the states of a box. It takes no memory, and
/// time by the nodes of the formula times the keys of the box.
#[tactic(auto, unfolding(verdict_meaning::specs::Reaches::formula_reach, verdict_meaning::specs::Reaches::reach_step))]
pub(crate) fn formula_reach(names: &[NameDef], start: &Moment, cell: &Cell, formula: &Expr) -> Reach
    ensures value { result ≡ formula_reach names.now start.now cell.now formula.now }
{
    match formula {
        Expr::Number(q) => Reach::Within(true, Interval::point(*q)),
        Expr::Name(n) => variable_reach(names, start, cell, *n),
        Expr::Neg(a) => negation_reach(&formula_reach(names, start, cell, a.get())),
        Expr::Abs(a) => size_reach(&formula_reach(names, start, cell, a.get())),
        Expr::Sgn(a) => sign_reach(&formula_reach(names, start, cell, a.get())),
        Expr::Step(a) => step_reach(&formula_reach(names, start, cell, a.get())),
        Expr::Add(a, b) => {
            let left = formula_reach(names, start, cell, a.get());
            let right = formula_reach(names, start, cell, b.get());
            sum_reach(&left, &right)
        }
        Expr::Sub(a, b) => {
            let left = formula_reach(names, start, cell, a.get());
            let right = formula_reach(names, start, cell, b.get());
            difference_reach(&left, &right)
        }
        Expr::Mul(a, b) => {
            let left = formula_reach(names, start, cell, a.get());
            let right = formula_reach(names, start, cell, b.get());
            product_reach(&left, &right)
        }
        Expr::Div(a, b) => {
            let left = formula_reach(names, start, cell, a.get());
            let right = formula_reach(names, start, cell, b.get());
            quotient_reach(&left, &right)
        }
        Expr::Pow(a, n) => power_reach(&formula_reach(names, start, cell, a.get()), *n),
    }
}

/// What the variable of a place can be worth.
#[tactic(auto, unfolding(verdict_meaning::specs::Reaches::variable_reach))]
fn variable_reach(names: &[NameDef], start: &Moment, cell: &Cell, n: u32) -> Reach
    ensures value { result ≡ variable_reach start.now cell.now (slice_get names.now n) }
{
    match names.get(n as usize) {
        Some(named) => variable_kind_reach(start, cell, &named.stands_for),
        None => Reach::Missing,
    }
}

/// What a variable that stands for this can be worth.
fn variable_kind_reach(start: &Moment, cell: &Cell, kind: &NameKind) -> Reach
    ensures value { result ≡ variable_kind_reach start.now cell.now kind.now }
{
    match kind {
        NameKind::Variable(key) => key_reach(start, cell, key),
        NameKind::Formula(_) => Reach::Missing,
    }
}
