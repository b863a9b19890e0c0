//! Laws of the columns. The function here does nothing: its contract states what holds, for the
//! proofs of the crates above, which cite a clause by the term of its name in
//! proofs/PublicLaws.antt.
ghost use Rattle.std.specs.Prelude.{◌≡◌, ℕ, List, Some, slice_get};
ghost use Rattle.std.specs.Prelude.{Contains};
ghost use Rattle.rule_types.specs.declared.condition.Condition.{Condition};
ghost use Rattle.rule_types.specs.declared.condition.Side.{Side};
ghost use Rattle.rule_types.specs.declared.rule.Rule.{Rule};
ghost use Rattle.rule_types.specs.declared.rules.Rules.{Rules};
ghost use Rattle.rule_types.specs.declared.state.State.{State};
ghost use Rattle.rule_meaning.specs.Condition.{left_value};
ghost use Rattle.rule_meaning.specs.Formula.{is_used};
ghost use Rattle.premise_eval.specs.Columns.{IsColumn, SideAsked};
ghost use Rattle.premise_eval.specs.Kept.{Kept, IsMade};

/// The column of a side has the value of that side at the state that the values were made of, where
/// the side is asked for; and the left sides of the conditions of the rules that values were made
/// for are asked for.
pub fn columns()
    ensures made { (x : Rules) (only : List Rule) (s : State) (kept : Kept) (at : ℕ) (side : Side)
        → IsMade x only s kept → IsColumn kept.columns at side → SideAsked (is_used x only) side
        → slice_get kept.values at ≡ Some (left_value x s side) }
    ensures asked { (x : Rules) (only : List Rule) (row : Rule) (j : ℕ) (c : Condition)
        → Contains only row → slice_get row.conditions j ≡ Some c
        → SideAsked (is_used x only) c.left }
{}
