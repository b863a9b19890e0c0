//! The relations of conditions.
ghost use Rattle.std.specs.Prelude.{◌≡◌};

use crate::frac::Frac;

/// A relation of a condition: `=`, `<>`, `<`, `<=`, `>` and `>=` (SWMM 5.2 manual, control rules).
#[derive(Clone, Copy, Debug, PartialEq, Eq)]
pub enum Relation {
    /// The two are the same number.
    Eq,
    /// The two are different numbers.
    Ne,
    /// The left is below the right.
    Lt,
    /// The left is at most the right.
    Le,
    /// The left is above the right.
    Gt,
    /// The left is at least the right.
    Ge,
}

impl Relation {
    ghost use Rattle.exact_fraction.specs.Relations.{relates};

    /// Whether `left` stands in the relation to `right`.
    #[tactic(auto, using(crate::proofs::Tells::order_tests))]
    pub fn holds(self, left: &Frac, right: &Frac) -> bool
        ensures value { result ≡ relates self left.now right.now }
    {
        let order = left.cmp(right);
        match self {
            Relation::Eq => order.is_eq(),
            Relation::Ne => order.is_ne(),
            Relation::Lt => order.is_lt(),
            Relation::Le => order.is_le(),
            Relation::Gt => order.is_gt(),
            Relation::Ge => order.is_ge(),
        }
    }
}
