//! Examples of actions: which agree, and what they can be worth.
#![tactic(auto, unfolding(crate::proofs::ExampleWords::example_words))]

ghost use Rattle.std.specs.Prelude.{◌≡◌, true, false, [], ◌∷◌};
ghost use Rattle.exact_fraction.specs.Number.{zero, one};
ghost use Rattle.exact_fraction.specs.declared.relation.Relation.TheVariants.{Gt, Ge};
ghost use Rattle.rule_types.specs.declared.action.What.TheVariants.{Constant, Curve, Series, Pid};
ghost use Rattle.rule_meaning.specs.Examples.{number, decimal, depth, and_if, or_if_name, no_tables};
ghost use Rattle.rule_meaning.specs.Examples.{pid_numbers_of};
ghost use Rattle.table_hulls.specs.Hulls.{from_zero};
ghost use Rattle.verdict_meaning.specs.ActionHulls.{can_keep, capped_hull, is_part_of, keeps_target};
ghost use Rattle.verdict_meaning.specs.ActionHulls.{what_hull};
ghost use Rattle.verdict_meaning.specs.BoxExamples.{box_of, depth_name, open_timer, pump_rules};
ghost use Rattle.verdict_meaning.specs.BoxExamples.{timer_box};
ghost use Rattle.verdict_meaning.specs.Events.{agree};
ghost use Rattle.verdict_meaning.specs.Examples.{gate_rules};
ghost use Rattle.verdict_meaning.specs.Hulls.{closed};

/// Numbers agree where they are worth the same, curves where they are one with one controller,
/// which a variable can name, and series where they are one. PIDs never agree.
pub fn agreements()
    ensures worth_one { agree [] one [] [] (Constant (number 3)) (Constant (number 2)) ≡ true }
    ensures different { agree [] zero [] [] (Constant (number 3)) (Constant (number 2)) ≡ false }
    ensures one_controller { agree [] zero (and_if (depth 0) Gt one ∷ [])
        (and_if (depth 0) Ge zero ∷ []) (Curve (record { index = 0 }))
        (Curve (record { index = 0 })) ≡ true }
    ensures by_variable { agree (depth_name ∷ []) zero (and_if (depth 0) Gt one ∷ [])
        (or_if_name 0 Ge zero ∷ []) (Curve (record { index = 0 })) (Curve (record { index = 0 }))
        ≡ true }
    ensures two_controllers { agree [] zero (and_if (depth 0) Gt one ∷ [])
        (and_if (depth 1) Gt one ∷ []) (Curve (record { index = 0 }))
        (Curve (record { index = 0 })) ≡ false }
    ensures two_curves { agree [] zero (and_if (depth 0) Gt one ∷ [])
        (and_if (depth 0) Gt one ∷ []) (Curve (record { index = 0 }))
        (Curve (record { index = 1 })) ≡ false }
    ensures one_series { agree [] zero [] [] (Series (record { index = 1 }))
        (Series (record { index = 1 })) ≡ true }
    ensures curve_and_series { agree [] zero [] [] (Curve (record { index = 0 }))
        (Series (record { index = 0 })) ≡ false }
    ensures pids { agree [] zero [] [] (Pid (pid_numbers_of one zero zero) 0)
        (Pid (pid_numbers_of one zero zero) 0) ≡ false }
{}

/// A PID orders from 0 to 1, and of a pump any number from 0 on. On a link with a rate numbers
/// above 1 count as 1.
pub fn hulls()
    ensures pid { what_hull gate_rules no_tables (box_of []) [] 0
        (Pid (pid_numbers_of one zero zero) 0) ≡ closed zero one }
    ensures pump { what_hull pump_rules no_tables (box_of []) [] 0
        (Pid (pid_numbers_of one zero zero) 0) ≡ from_zero }
    ensures capped { capped_hull one (closed (decimal 1 2) (number 3)) ≡ closed (decimal 1 2) one }
    ensures capped_all { capped_hull one (closed (number 2) (number 3)) ≡ closed one one }
    ensures without_rate { capped_hull zero (closed (number 2) (number 3))
        ≡ closed (number 2) (number 3) }
    ensures part { is_part_of (closed zero one) zero one ≡ true }
    ensures no_part { is_part_of (closed zero one) (decimal 1 2) one ≡ false }
    ensures past { is_part_of (closed zero one) zero (decimal 1 2) ≡ false }
{}

/// A curve and a PID keep the old target where their controller is missing, which on a link with a
/// rate stays from lo on only where lo is at most 1. A number and a series do not.
pub fn kept_targets()
    ensures curve { keeps_target gate_rules (timer_box (closed zero zero))
        (and_if open_timer Gt one ∷ []) (Curve (record { index = 0 })) ≡ true }
    ensures pid { keeps_target gate_rules (timer_box (closed zero zero))
        (and_if open_timer Gt one ∷ []) (Pid (pid_numbers_of one zero zero) 0) ≡ true }
    ensures perhaps { keeps_target gate_rules (timer_box (closed zero one))
        (and_if open_timer Gt one ∷ []) (Curve (record { index = 0 })) ≡ false }
    ensures series { keeps_target gate_rules (timer_box (closed zero zero))
        (and_if open_timer Gt one ∷ []) (Series (record { index = 0 })) ≡ false }
    ensures up_to_one { can_keep one one ≡ true }
    ensures above_one { can_keep one (number 2) ≡ false }
    ensures without_rate { can_keep zero (number 2) ≡ true }
{}
