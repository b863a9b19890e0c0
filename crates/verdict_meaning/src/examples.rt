//! Examples of the definitions, with values that were worked out by hand.
#![tactic(auto, unfolding(crate::proofs::ExampleWords::example_words))]

ghost use Rattle.std.specs.Prelude.{◌≡◌, true, false, Some, None, Ok, Err, [], ◌∷◌, pos, ◌+ℤ◌};
ghost use Rattle.exact_fraction.specs.Number.{zero, one};
ghost use Rattle.verdict_meaning.specs.declared.question.Question.TheVariants.{Conflict, Dead};
ghost use Rattle.verdict_meaning.specs.declared.question.Question.TheVariants.{Limit};
ghost use Rattle.rule_meaning.specs.Examples.{number, decimal, depth, no_tables};
ghost use Rattle.verdict_meaning.specs.Certificates.{checked_cert};
ghost use Rattle.verdict_meaning.specs.Events.{has_event};
ghost use Rattle.verdict_meaning.specs.Examples.{gate_rules, gate_ranges, gate_state, leaf_of};
ghost use Rattle.verdict_meaning.specs.Examples.{fact, gate_tree, shape, not_shown};
ghost use Rattle.verdict_meaning.specs.declared.cert.Reason.TheVariants.{Whole};
ghost use Rattle.verdict_meaning.specs.Examples.{fails, no_facts, two_facts};
ghost use Rattle.verdict_meaning.specs.Grids.{sample_memory, cell_count};
ghost use Rattle.verdict_meaning.specs.Questions.{grid_keys, asked_numbers};
ghost use Rattle.verdict_meaning.specs.Verdicts.{first_event, is_lean};

/// Two rules of one rank order different settings at depth 16 and flow 250, and at flow 150 one of
/// them is not listed. Two rules that order one setting agree.
pub fn conflicts()
    ensures both_listed { has_event gate_rules no_tables sample_memory
        (gate_state (number 16) (number 250)) (Conflict 0 1 0) ≡ true }
    ensures one_listed { has_event gate_rules no_tables sample_memory
        (gate_state (number 16) (number 150)) (Conflict 0 1 0) ≡ false }
    ensures one_rule { has_event gate_rules no_tables sample_memory
        (gate_state (number 16) (number 250)) (Conflict 0 0 0) ≡ false }
{}

/// The rule that half opens the orifice is settled wherever both premises hold; the rule that opens
/// it is then beaten, and dead.
pub fn dead_rules()
    ensures alive { has_event gate_rules no_tables sample_memory
        (gate_state (number 16) (number 250)) (Dead 0) ≡ true }
    ensures beaten { has_event gate_rules no_tables sample_memory
        (gate_state (number 16) (number 250)) (Dead 1) ≡ false }
    ensures unlisted { has_event gate_rules no_tables sample_memory
        (gate_state (number 16) (number 250)) (Dead 2) ≡ false }
{}

/// From setting 0.6 on link 0 goes to 0.5, which lies past a limit from 0.55 to 1 and not past one
/// from 0 to 1. A setting outside the limit is no event.
pub fn limits()
    ensures past { has_event gate_rules no_tables sample_memory
        (gate_state (number 16) (number 250)) (Limit 0 (decimal 11 20) one) ≡ true }
    ensures within { has_event gate_rules no_tables sample_memory
        (gate_state (number 16) (number 250)) (Limit 0 zero one) ≡ false }
    ensures outside { has_event gate_rules no_tables sample_memory
        (gate_state (number 16) (number 250)) (Limit 0 zero (decimal 3 5)) ≡ false }
{}

/// The rules and the keys of a question.
pub fn asked()
    ensures of_conflict { asked_numbers gate_rules (Conflict 0 2 0) ≡ 0 ∷ 2 ∷ [] }
    ensures of_dead { asked_numbers gate_rules (Dead 1) ≡ 0 ∷ 1 ∷ 2 ∷ [] }
{}

/// The certificates of three questions, cut at depth 12 and at flow 100 or 200.
pub fn certificates()
    ensures conflict { checked_cert gate_rules no_tables gate_ranges (Conflict 0 2 0)
        (gate_tree (number 100) Whole Whole Whole Whole Whole) ≡ Ok 7 }
    ensures dead { checked_cert gate_rules no_tables gate_ranges (Dead 1)
        (gate_tree (number 200) Whole Whole Whole Whole Whole) ≡ Ok 7 }
    ensures limit { checked_cert gate_rules no_tables gate_ranges (Limit 0 zero (decimal 3 5))
        (gate_tree (number 200) Whole Whole Whole Whole Whole) ≡ Ok 7 }
    ensures early_cut { checked_cert gate_rules no_tables gate_ranges (Conflict 0 2 0)
        (gate_tree (number 90) Whole Whole Whole Whole Whole) ≡ fails not_shown 6 }
    ensures first_leaf { checked_cert gate_rules no_tables gate_ranges (Conflict 0 1 0)
        (leaf_of Whole) ≡ fails not_shown 0 }
    ensures past_the_end { checked_cert gate_rules no_tables gate_ranges (Conflict 0 2 0)
        (gate_tree (number 301) Whole Whole Whole Whole Whole) ≡ fails shape 3 }
{}

/// The same by facts at the leaves: a fact must be known in its box and show it, and be on a rule
/// of the question.
pub fn facts()
    ensures by_facts { checked_cert gate_rules no_tables gate_ranges (Conflict 0 2 0)
        (gate_tree (number 100) (fact 0) (fact 0) (fact 0) (fact 0) (fact 2)) ≡ Ok 7 }
    ensures unknown { checked_cert gate_rules no_tables gate_ranges (Conflict 0 2 0)
        (gate_tree (number 100) (fact 0) (fact 0) (fact 0) (fact 0) (fact 0))
        ≡ fails not_shown 6 }
    ensures not_asked { checked_cert gate_rules no_tables gate_ranges (Conflict 0 2 0)
        (leaf_of (fact 1)) ≡ fails shape 0 }
{}

/// A tree of a search has facts at each leaf and no spare one.
pub fn lean_trees()
    ensures lean { is_lean gate_rules no_tables gate_ranges (Conflict 0 2 0)
        (gate_tree (number 100) (fact 0) (fact 0) (fact 0) (fact 0) (fact 2)) ≡ true }
    ensures without_facts { is_lean gate_rules no_tables gate_ranges (Conflict 0 2 0)
        (gate_tree (number 100) Whole (fact 0) (fact 0) (fact 0) (fact 2)) ≡ false }
    ensures spare_fact { is_lean gate_rules no_tables gate_ranges (Conflict 0 2 0)
        (gate_tree (number 100) (fact 0) (fact 0) (fact 0) (fact 0) two_facts) ≡ false }
    ensures shown_split { is_lean gate_rules no_tables gate_ranges (Conflict 0 0 0)
        (gate_tree (number 100) no_facts no_facts no_facts no_facts no_facts) ≡ false }
{}
