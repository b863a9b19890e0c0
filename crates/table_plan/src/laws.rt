//! Laws of plans. Each function here does nothing: its contract states laws, for the proofs of the
//! crates above.
ghost use Rattle.std.specs.Prelude.{◌≡◌, ℕ, ◌+◌, ◌*◌, ◌≤◌, List, Some, length, nat_lt, slice_get};
ghost use Rattle.exact_fraction.specs.Number.{Rational};
ghost use Rattle.exact_fraction.specs.Order.{less};
ghost use Rattle.interval_sets.specs.Cuts.{IsRising};
ghost use Rattle.rule_types.specs.declared.rules.Rules.{Rules};
ghost use Rattle.rule_types.specs.declared.state.State.{State};
ghost use Rattle.table_compiler.specs.declared.table.TableRow.{TableRow};
ghost use Rattle.table_compiler.specs.Meaning.{ordered_by};
ghost use Rattle.table_plan.specs.Pieces.{piece, IsCut};
ghost use Rattle.table_plan.specs.Told.{ordered_told, told_at};

/// What rows order at a state is what they order by what a reading of that state tells.
pub fn told()
    ensures ordered { (x : Rules) (s : State) (rows : List TableRow)
        → ordered_by x s rows ≡ ordered_told (told_at x s) rows }
{}

/// Cuts that rise have the odd pieces, in their order, and a number is below or above a cut where
/// its piece is.
pub fn pieces()
    ensures cut { (cuts : List Rational) (i : ℕ) (p : Rational) → IsRising cuts
        → slice_get cuts i ≡ Some p → piece cuts p ≡ 2 * i + 1 }
    ensures below { (cuts : List Rational) (p x : Rational) → IsCut cuts p
        → less x p ≡ nat_lt (piece cuts x) (piece cuts p) }
    ensures above { (cuts : List Rational) (p x : Rational) → IsCut cuts p
        → less p x ≡ nat_lt (piece cuts p) (piece cuts x) }
    ensures most { (cuts : List Rational) (x : Rational) → piece cuts x ≤ 2 * length cuts }
{}
