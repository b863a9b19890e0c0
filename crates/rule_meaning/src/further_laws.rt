//! Further laws of premises, memories and tables. Each function here does nothing: its contract
//! states laws for the proofs of the crates above.
ghost use Rattle.std.specs.Prelude.{◌≡◌, ℕ, suc, ◌↔◌, ◌<◌, Bool, true, false, Some, IsTrue};
ghost use Rattle.std.specs.Prelude.{IsSomeAnd, is_ok, List, [], ◌∷◌, length, slice_get, All};
ghost use Rattle.exact_fraction.specs.Number.{Rational};
ghost use Rattle.rule_types.specs.declared.condition.Condition.{Condition};
ghost use Rattle.rule_types.specs.declared.rules.Rules.{Rules};
ghost use Rattle.rule_types.specs.declared.state.State.{State};
ghost use Rattle.rule_types.specs.declared.table.Point.{Point};
ghost use Rattle.rule_types.specs.Tables.{TableSet, IsPointList};
ghost use Rattle.rule_meaning.specs.History.{is_pid_action, memory};
ghost use Rattle.rule_meaning.specs.LineSteps.{TableStepsFit};
ghost use Rattle.rule_meaning.specs.StraightLines.{line_value, IsTableValue};
ghost use Rattle.rule_meaning.specs.Premise.{groups, listed};
ghost use Rattle.rule_meaning.specs.Settled.{action_at};

/// No group of a premise is empty. A condition that begins a group is at the head of each group
/// after the first one, and nowhere else in a group (SWMM 5.2 manual, [CONTROLS], premises).
pub fn premise_groups()
    ensures some_condition { (begins : Condition → Bool) (cs : List Condition) (place : ℕ)
        (group : List Condition) → slice_get (groups begins cs) place ≡ Some group
        → 0 < length group }
    ensures at_head { (begins : Condition → Bool) (cs : List Condition) (place : ℕ)
        (group : List Condition) → slice_get (groups begins cs) (suc place) ≡ Some group
        → IsSomeAnd (slice_get group 0) (λ c. begins c ≡ true) }
    ensures not_inside { (begins : Condition → Bool) (cs : List Condition) (place : ℕ)
        (group : List Condition) (at : ℕ) (c : Condition)
        → slice_get (groups begins cs) place ≡ Some group → slice_get group (suc at) ≡ Some c
        → begins c ≡ false }
{}

/// A PID action that is not listed at a row keeps its memory, also where the row is due (SWMM 5.2
/// manual, modulated controls).
pub fn unlisted_pids()
    ensures keep { (x : Rules) (tables : TableSet) (older : List State) (s : State) (number : ℕ)
        → All (λ at. is_pid_action number (action_at x.rules at) ≡ false) (listed x s)
        → memory x tables (s ∷ older) number ≡ memory x tables older number }
{}

/// A table has exactly one value at each x. It is computed without overflow exactly where the steps
/// of the straight line there fit (SWMM 5.2 manual, [CURVES] and [TIMESERIES]).
pub fn table_values()
    ensures some_value { (points : List Point) (x : Rational) → IsPointList points
        → (y : Rational) × IsTableValue points x y }
    ensures one_value { (points : List Point) (x y z : Rational) → IsPointList points
        → IsTableValue points x y → IsTableValue points x z → y ≡ z }
    ensures fits { (points : List Point) (x : Rational) → IsPointList points
        → (IsTrue (is_ok (line_value points x)) ↔ TableStepsFit points x) }
{}
