//! Laws of hulls, of boxes that are shown and of certificates. Each function here does nothing: its
//! contract states laws for the proofs of the crates above.
ghost use Rattle.std.specs.Prelude.{◌≡◌, ℕ, Bool, true, Option, Some, None, Ok, List, ◌∷◌, ◌++◌};
ghost use Rattle.std.specs.Prelude.{All, IsTrue, slice_get};
ghost use Rattle.std.specs.List.{list_all, list_any};
ghost use Rattle.exact_fraction.specs.Number.{Rational};
ghost use Rattle.exact_fraction.specs.Operations.{sum_of, difference_of, negation_of, product_of};
ghost use Rattle.exact_fraction.specs.Operations.{quotient_of};
ghost use Rattle.interval_sets.specs.declared.interval.Interval.{Interval};
ghost use Rattle.interval_sets.specs.Intervals.{lies_in};
ghost use Rattle.rule_types.specs.declared.action.PidMemory.{PidMemory};
ghost use Rattle.rule_types.specs.declared.condition.Condition.{Condition};
ghost use Rattle.rule_types.specs.declared.expr.Expr.{Expr};
ghost use Rattle.rule_types.specs.declared.key.Key.{Key};
ghost use Rattle.rule_types.specs.declared.rule.Rule.{Rule};
ghost use Rattle.rule_types.specs.declared.rules.Rules.{Rules};
ghost use Rattle.rule_types.specs.declared.state.State.{State};
ghost use Rattle.rule_types.specs.Tables.{HoldsTables, TableSet};
ghost use Rattle.rule_meaning.specs.Condition.{both_meet};
ghost use Rattle.rule_meaning.specs.Formula.{formula_value, names_stop_for, power, sign_of, size_of};
ghost use Rattle.rule_meaning.specs.Formula.{step_of};
ghost use Rattle.rule_meaning.specs.Premise.{groups, premise_by, premise_holds};
ghost use Rattle.rule_meaning.specs.State.{value};
ghost use Rattle.verdict_meaning.specs.declared.cell.Cell.{Cell};
ghost use Rattle.verdict_meaning.specs.declared.cert.Cert.{Cert};
ghost use Rattle.verdict_meaning.specs.declared.question.Question.{Question};
ghost use Rattle.verdict_meaning.specs.declared.question.Question.TheVariants.{Conflict, Dead};
ghost use Rattle.verdict_meaning.specs.declared.ranges.Ranges.{Ranges};
ghost use Rattle.verdict_meaning.specs.declared.truth.Reach.{Reach};
ghost use Rattle.verdict_meaning.specs.declared.truth.Truth.{Truth};
ghost use Rattle.verdict_meaning.specs.Boxes.{IsInRanges, IsStateIn};
ghost use Rattle.verdict_meaning.specs.Certificates.{Judge, RefusesState, cert_judged, checked_cert};
ghost use Rattle.verdict_meaning.specs.Certificates.{facts_fit, facts_hold};
ghost use Rattle.verdict_meaning.specs.Events.{has_event};
ghost use Rattle.verdict_meaning.specs.Hulls.{sum_hull, difference_hull, negation_hull, power_hull};
ghost use Rattle.verdict_meaning.specs.Hulls.{product_hull, quotient_hull, sign_hull, size_hull};
ghost use Rattle.verdict_meaning.specs.Hulls.{step_hull};
ghost use Rattle.verdict_meaning.specs.Premises.{Tells, premise_truth_by, rule_truth, start_of};
ghost use Rattle.verdict_meaning.specs.Questions.{asked_rules, is_asked};
ghost use Rattle.verdict_meaning.specs.Reaches.{IsReached, formula_reach, key_reach};
ghost use Rattle.verdict_meaning.specs.Shown.{KnownPremises, IsMoreKnown, IsKnownAt, shown_with};
ghost use Rattle.verdict_meaning.specs.Shown.{is_no, is_yes, known_in, shown, shown_by};
ghost use Rattle.verdict_meaning.specs.Truths.{reach_truth};

/// The result of an operation on members of intervals lies in the operation's hull.
pub fn hulls()
    ensures sum { (a b : Interval) (p q : Rational) → IsTrue (lies_in a p) → IsTrue (lies_in b q)
        → IsTrue (lies_in (sum_hull a b) (sum_of p q)) }
    ensures difference { (a b : Interval) (p q : Rational) → IsTrue (lies_in a p)
        → IsTrue (lies_in b q)
        → IsTrue (lies_in (difference_hull a b) (difference_of p q)) }
    ensures negation { (a : Interval) (p : Rational) → IsTrue (lies_in a p)
        → IsTrue (lies_in (negation_hull a) (negation_of p)) }
    ensures size { (a : Interval) (p : Rational) → IsTrue (lies_in a p)
        → IsTrue (lies_in (size_hull a) (size_of p)) }
    ensures sign { (a : Interval) (p : Rational) → IsTrue (lies_in a p)
        → IsTrue (lies_in (sign_hull a) (sign_of p)) }
    ensures step { (a : Interval) (p : Rational) → IsTrue (lies_in a p)
        → IsTrue (lies_in (step_hull a) (step_of p)) }
    ensures product { (a b : Interval) (p q : Rational) → IsTrue (lies_in a p)
        → IsTrue (lies_in b q)
        → IsTrue (lies_in (product_hull a b) (product_of p q)) }
    ensures quotient { (a b : Interval) (p q : Rational) → IsTrue (lies_in a p)
        → IsTrue (lies_in b q)
        → IsTrue (lies_in (quotient_hull a b) (quotient_of p q)) }
    ensures power { (a : Interval) (p q : Rational) (n : ℕ) → IsTrue (lies_in a p)
        → power p n ≡ Ok (Some q) → IsTrue (lies_in (power_hull a n) q) }
{}

/// At a state of a box each key and each formula that does not stop is worth what it can be there.
pub fn reaches()
    ensures key { (x : Rules) (s : State) (cell : Cell) → IsStateIn x cell s → (key : Key)
        → IsReached (key_reach (start_of x) cell key) (value x s key) }
    ensures formula { (x : Rules) (s : State) (cell : Cell) → IsStateIn x cell s → (e : Expr)
        (found : Option Rational) → formula_value x s e ≡ Ok found
        → IsReached (formula_reach x.names (start_of x) cell e) found }
{}

/// What is known of a condition by its sides is so, and what is known of a premise is so where what
/// is known of each of its conditions is.
pub fn truths()
    ensures sides { (c : Condition) (step : Rational) (left right : Reach) (o r : Option Rational)
        → IsReached left o → IsReached right r
        → Tells (reach_truth c step left right) (both_meet c step o r) }
    ensures premise { (truth : Condition → Truth) (test : Condition → Bool) (cs : List Condition)
        → All (λ c. Tells (truth c) (test c)) cs
        → Tells (premise_truth_by truth cs) (premise_by test cs) }
{}

/// A premise is Yes exactly where each group has a condition that is, and No exactly where all
/// conditions of some group are.
pub fn premises()
    ensures is_yes { (truth : Condition → Truth) (cs : List Condition)
        → is_yes (premise_truth_by truth cs)
        ≡ list_all (list_any (λ c. is_yes (truth c))) (groups (λ c. c.joined_by_and) cs) }
    ensures is_no { (truth : Condition → Truth) (cs : List Condition)
        → is_no (premise_truth_by truth cs)
        ≡ list_any (list_all (λ c. is_no (truth c))) (groups (λ c. c.joined_by_and) cs) }
{}

/// At a state of a box at which no name of a question's rules stops, what the box tells of the
/// premises of these rules is so.
pub fn boxes()
    ensures premise { (x : Rules) (s : State) (cell : Cell) (question : Question) (number : ℕ)
        (rule : Rule) → IsStateIn x cell s → names_stop_for x (asked_rules x question) s ≡ None
        → slice_get x.rules number ≡ Some rule → is_asked x question number ≡ true
        → Tells (rule_truth x cell number) (premise_holds x s rule) }
    ensures known { (x : Rules) (s : State) (cell : Cell) (question : Question)
        → IsStateIn x cell s → names_stop_for x (asked_rules x question) s ≡ None
        → IsKnownAt x s (known_in x question cell) }
{}

/// A box that is shown has no state with the question's event. It stays shown where more is known
/// of the premises, and so with one more fact. A box that facts show alone is shown, where they fit
/// the question and hold in the box.
pub fn shown_boxes()
    ensures no_event { (x : Rules) (tables : TableSet) (memory : ℕ → PidMemory) (s : State)
        (cell : Cell) (question : Question) → HoldsTables tables x.rules → IsStateIn x cell s
        → shown x tables question cell ≡ true → has_event x tables memory s question ≡ true → ⊥ }
    ensures more_known { (x : Rules) (tables : TableSet) (cell : Cell) (known more : KnownPremises)
        (question : Question) → IsMoreKnown known more
        → shown_with x tables cell known question ≡ true
        → shown_with x tables cell more question ≡ true }
    ensures one_more_fact { (x : Rules) (tables : TableSet) (question : Question) (cell : Cell)
        (xs ys : List (ℕ × Bool)) (fact : ℕ × Bool)
        → shown_by x tables question cell (xs ++ ys) ≡ true
        → shown_by x tables question cell (xs ++ (fact ∷ ys)) ≡ true }
    ensures by_facts { (x : Rules) (tables : TableSet) (question : Question) (cell : Cell)
        (facts : List (ℕ × Bool)) → facts_fit x question facts ≡ true
        → facts_hold x cell facts ≡ true → shown_by x tables question cell facts ≡ true
        → shown x tables question cell ≡ true }
{}

/// Where what is known of the premises is so at a state, and shows that two rules have no conflict
/// or that a rule is dead, the state does not have that event.
pub fn known_premises()
    ensures no_conflict { (x : Rules) (tables : TableSet) (memory : ℕ → PidMemory) (s : State)
        (cell : Cell) (known : KnownPremises) (first second link : ℕ) → IsKnownAt x s known
        → shown_with x tables cell known (Conflict first second link) ≡ true
        → has_event x tables memory s (Conflict first second link) ≡ true → ⊥ }
    ensures not_alive { (x : Rules) (tables : TableSet) (memory : ℕ → PidMemory) (s : State)
        (cell : Cell) (known : KnownPremises) (number : ℕ) → IsKnownAt x s known
        → shown_with x tables cell known (Dead number) ≡ true
        → has_event x tables memory s (Dead number) ≡ true → ⊥ }
{}

/// Where a judge accepts no reason in a box in which a state is, no certificate that gives no fault
/// over a box has the state in it. So a certificate of a question that is accepted leaves no state
/// of the ranges with the question's event.
pub fn certificates()
    ensures refused { (x : Rules) (s : State) (judge : Judge) → RefusesState x s judge
        → (cert : Cert) (depth : ℕ) (cell : Cell) (place n : ℕ)
        → cert_judged judge cert depth (Some cell) place ≡ Ok n → IsStateIn x cell s → ⊥ }
    ensures no_state { (x : Rules) (tables : TableSet) (memory : ℕ → PidMemory) (s : State)
        (question : Question) (ranges : Ranges) (cert : Cert) (n : ℕ)
        → HoldsTables tables x.rules → checked_cert x tables ranges question cert ≡ Ok n
        → IsInRanges x question ranges memory s → has_event x tables memory s question ≡ true
        → ⊥ }
{}
