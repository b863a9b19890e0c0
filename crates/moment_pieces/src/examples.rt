//! Worked examples. Each function here does nothing: its contract states what the definitions
//! compute.
#![tactic(auto, unfolding(crate::proofs::ExampleWords::piece_words))]

ghost use Rattle.std.specs.Prelude.{◌≡◌, true, false, pos, [], ◌∷◌};
ghost use Rattle.exact_fraction.specs.Number.{whole, one, ratio};
ghost use Rattle.exact_fraction.specs.declared.relation.Relation.TheVariants.{Eq, Ge};
ghost use Rattle.rule_types.specs.declared.key.ClockAttr.TheVariants.{Time, ClockTime};
ghost use Rattle.moment_pieces.specs.Examples.{clock_condition, named_condition};
ghost use Rattle.moment_pieces.specs.Examples.{clock_variable, rules_over, rules_on};
ghost use Rattle.moment_pieces.specs.Pieces.{is_midnight, truth_changes, piece_firsts};

/// Where conditions change: CLOCKTIME >= 22:45:00 at that time, TIME = 1:00:00 at a step of 20
/// seconds ten seconds before and after the hour, and not between.
pub fn changes()
    ensures midnight { is_midnight (pos 992563200) ≡ true }
    ensures past_midnight { is_midnight (pos 992563201) ≡ false }
    ensures reached { truth_changes (clock_condition ClockTime Ge (ratio (pos 91) 4) false) one
        ClockTime (ratio (pos 91) 4) (pos 0) (pos 992645100) ≡ true }
    ensures not_yet { truth_changes (clock_condition ClockTime Ge (ratio (pos 91) 4) false) one
        ClockTime (ratio (pos 91) 4) (pos 0) (pos 992645099) ≡ false }
    ensures window_begins { truth_changes (clock_condition Time Eq one true) (whole (pos 20))
        Time one (pos 0) (pos 3590) ≡ true }
    ensures window_ends { truth_changes (clock_condition Time Eq one true) (whole (pos 20))
        Time one (pos 0) (pos 3610) ≡ true }
    ensures in_window { truth_changes (clock_condition Time Eq one true) (whole (pos 20))
        Time one (pos 0) (pos 3600) ≡ false }
{}

/// The pieces of two seconds on 2001-06-15 for a rule on CLOCKTIME >= 22:45:00: of 22:44:59 and
/// 22:45:00 there are two, of which the second begins where the condition changes, also where it
/// reads CLOCKTIME through a variable. Without the rule there is one, and at midnight there are two.
pub fn pieces()
    ensures two { piece_firsts (rules_on (clock_condition ClockTime Ge (ratio (pos 91) 4) false))
        (0 ∷ []) one (pos 992563200) (pos 992645099) (pos 992645100)
        ≡ pos 992645099 ∷ pos 992645100 ∷ [] }
    ensures no_rule { piece_firsts
        (rules_on (clock_condition ClockTime Ge (ratio (pos 91) 4) false))
        (1 ∷ []) one (pos 992563200) (pos 992645099) (pos 992645100) ≡ pos 992645099 ∷ [] }
    ensures variable { piece_firsts
        (rules_over (clock_variable ClockTime ∷ []) (named_condition 0 Ge (ratio (pos 91) 4)))
        (0 ∷ []) one (pos 992563200) (pos 992645099) (pos 992645100)
        ≡ pos 992645099 ∷ pos 992645100 ∷ [] }
    ensures next_day { piece_firsts
        (rules_on (clock_condition ClockTime Ge (ratio (pos 91) 4) false))
        [] one (pos 992563200) (pos 992649599) (pos 992649600)
        ≡ pos 992649599 ∷ pos 992649600 ∷ [] }
    ensures nothing { piece_firsts
        (rules_on (clock_condition ClockTime Ge (ratio (pos 91) 4) false))
        (0 ∷ []) one (pos 992563200) (pos 992645100) (pos 992645099) ≡ [] }
{}
