//! What accepts facts.
ghost use Rattle.std.specs.Prelude.{◌≡◌, true, IfOk, List, ℕ, Bool, ◌++◌, ◌∷◌};

use byte_edge::NoMemory;
use list_types::Items;
use std::alloc::Global;

/// A judge of facts: numbers of rules with what is known of their premises.
pub trait Judge {
    // Whether facts are accepted.
    ghost accepts: { Self → List (ℕ × Bool) → Bool };

    // What has to hold of the judge.
    ghost is_ready: { Self → Type 0 };

    // Which facts the judge may be asked about.
    ghost fits: { Self → List (ℕ × Bool) → Type 0 };

    /// Whether facts are accepted. NoMemory is the only error.
    fn is_accepted(&self, alloc: Global, facts: &Items<(u32, bool)>) -> Result<bool, NoMemory>
        requires ready { is_ready self.now }
        requires fits { fits self.now facts.now }
        ensures value { IfOk result (λ accepted. accepted ≡ accepts self.now facts.now) };

    // Facts that are accepted are accepted with one more fact among them.
    ghost grows: { (x : Self) (xs ys : List (ℕ × Bool)) (fact : ℕ × Bool) → is_ready x
        → accepts x (xs ++ ys) ≡ true → accepts x (xs ++ fact ∷ ys) ≡ true };

    // Facts that the judge may be asked about stay so without one of them.
    ghost fewer: { (x : Self) (xs ys : List (ℕ × Bool)) (fact : ℕ × Bool) → is_ready x
        → fits x (xs ++ fact ∷ ys) → fits x (xs ++ ys) };
}
