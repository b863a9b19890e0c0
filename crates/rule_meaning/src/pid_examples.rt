//! Examples of PID actions, with values that were worked out by hand.
#![tactic(auto, unfolding(crate::proofs::ExampleWords::rule_words))]

ghost use Rattle.std.specs.Prelude.{◌≡◌, true, false, Some, Ok, Err, [], ◌∷◌};
ghost use Rattle.exact_fraction.specs.Number.{zero, one};
ghost use Rattle.exact_fraction.specs.Operations.{negation_of};
ghost use Rattle.rule_meaning.specs.Pid.{fresh, pid_step};
ghost use Rattle.rule_meaning.specs.History.{reading, standings, memory};
ghost use Rattle.rule_meaning.specs.Examples.{number, decimal, no_tables, pid_numbers_of, errors};
ghost use Rattle.rule_meaning.specs.Examples.{order_by, stepped, stands};
ghost use Rattle.rule_meaning.specs.ExampleRules.{stuck_rules, flow_state, beaten_pid_rules};
ghost use Rattle.rule_meaning.specs.ExampleRules.{depth_flow_state, slow_rules};

/// One step of a PID, on an orifice and on a pump; with the set point 0; and one whose change does
/// not fit.
pub fn pid_steps()
    ensures orifice { pid_step (pid_numbers_of one (number 2) (decimal 1 2)) (number 2) one
        (decimal 1 5) one false fresh ≡ Ok (stepped one (decimal 1 2) zero) }
    ensures pump { pid_step (pid_numbers_of one (number 2) (decimal 1 2)) (number 2) one
        (decimal 1 5) one true fresh ≡ Ok (stepped (decimal 6 5) (decimal 1 2) zero) }
    ensures no_set_point { pid_step (pid_numbers_of one zero zero) zero (number 3)
        (decimal 1 2) one false fresh ≡ Ok (stepped zero (negation_of one) zero) }
    ensures too_large { pid_step (pid_numbers_of (number 9223372036854775807) zero zero) (number 3)
        one (decimal 1 2) one false fresh ≡ Err (record {}) }
{}

/// A step of two minutes with all three parts, and with two errors in the memory: the parts are
/// 1/4, 1/2 and 1/16. Where the last error is that of this step the controller is stuck: both
/// errors count as 0, and the parts are 1/2, 0 and 1/4.
pub fn pid_parts()
    ensures all_parts { pid_step (pid_numbers_of one (number 2) one) (number 2) one
        (decimal 1 5) (number 2) true (errors (decimal 1 4) (decimal 1 8))
        ≡ Ok (stepped (decimal 81 80) (decimal 1 2) (decimal 1 4)) }
    ensures stuck { pid_step (pid_numbers_of one zero one) (number 2) one
        (decimal 1 5) (number 2) true (errors (decimal 1 2) (decimal 1 4))
        ≡ Ok (stepped (decimal 19 20) (decimal 1 2) zero) }
{}

/// A change below 0.0001 counts as 0, and one of 0.0001 does not. Errors and values have nine
/// decimals.
pub fn pid_roundings()
    ensures below { pid_step (pid_numbers_of (decimal 1 10000) zero zero) (number 2) one
        (decimal 1 5) (number 2) false fresh ≡ Ok (stepped (decimal 1 5) (decimal 1 2) zero) }
    ensures at { pid_step (pid_numbers_of (decimal 1 5000) zero zero) (number 2) one
        (decimal 1 5) (number 2) false fresh
        ≡ Ok (stepped (decimal 2001 10000) (decimal 1 2) zero) }
    ensures error { pid_step (pid_numbers_of zero zero zero) (number 3) one
        (decimal 1 5) (number 2) false fresh
        ≡ Ok (stepped (decimal 1 5) (decimal 666666667 1000000000) zero) }
    ensures value { pid_step (pid_numbers_of (decimal 1 3) zero zero) (number 2) one
        (decimal 1 5) (number 2) false fresh
        ≡ Ok (stepped (decimal 366666667 1000000000) (decimal 1 2) zero) }
{}

/// A PID over four rows: at the third its controller is stuck, and the errors that it keeps were
/// set to 0; at the fourth it is not listed, and the link stays.
pub fn stuck_controller()
    ensures first { standings stuck_rules no_tables [] (flow_state 0 300 (number 2) one)
        ≡ stands (decimal 39 40) (decimal 39 40) }
    ensures second { standings stuck_rules no_tables (flow_state 0 300 (number 2) one ∷ [])
        (flow_state 300 300 (decimal 9 5) (decimal 39 40))
        ≡ stands (decimal 79 80) (decimal 79 80) }
    ensures third { standings stuck_rules no_tables
        (flow_state 300 300 (decimal 9 5) (decimal 39 40) ∷ flow_state 0 300 (number 2) one ∷ [])
        (flow_state 600 300 (decimal 9 5) (decimal 79 80))
        ≡ stands (decimal 39 40) (decimal 39 40) }
    ensures fourth { standings stuck_rules no_tables
        (flow_state 600 300 (decimal 9 5) (decimal 79 80)
        ∷ flow_state 300 300 (decimal 9 5) (decimal 39 40) ∷ flow_state 0 300 (number 2) one ∷ [])
        (flow_state 900 300 (decimal 8 5) (decimal 39 40))
        ≡ stands (decimal 39 40) (decimal 39 40) }
{}

/// A PID that is listed but not settled goes on: at the second row its last error is that of the
/// first.
pub fn beaten_pid()
    ensures first { reading beaten_pid_rules no_tables [] (depth_flow_state 0 one (number 6) one)
        ≡ Ok (order_by 0 (decimal 1 2) ∷ []) }
    ensures memory { memory beaten_pid_rules no_tables
        (depth_flow_state 0 one (number 6) one ∷ []) 0 ≡ errors (decimal 1 2) zero }
    ensures second { reading beaten_pid_rules no_tables
        (depth_flow_state 0 one (number 6) one ∷ [])
        (depth_flow_state 300 (decimal 3 2) zero (decimal 1 2))
        ≡ Ok (order_by 1 (decimal 1 4) ∷ []) }
{}

/// The same over two more rows: at the third no action is listed, and the PID keeps its errors
/// though the row is due. So at the fourth it is stuck where its error is the one before, and
/// otherwise goes by the difference.
pub fn unlisted_pid()
    ensures third { standings beaten_pid_rules no_tables
        (depth_flow_state 300 (decimal 3 2) zero (decimal 1 2)
        ∷ depth_flow_state 0 one (number 6) one ∷ [])
        (depth_flow_state 600 (number 2) zero (decimal 1 4)) ≡ stands (decimal 1 4) (decimal 1 4) }
    ensures memory { memory beaten_pid_rules no_tables
        (depth_flow_state 600 (number 2) zero (decimal 1 4)
        ∷ depth_flow_state 300 (decimal 3 2) zero (decimal 1 2)
        ∷ depth_flow_state 0 one (number 6) one ∷ []) 0 ≡ errors (decimal 1 4) (decimal 1 2) }
    ensures fourth { reading beaten_pid_rules no_tables
        (depth_flow_state 600 (number 2) zero (decimal 1 4)
        ∷ depth_flow_state 300 (decimal 3 2) zero (decimal 1 2)
        ∷ depth_flow_state 0 one (number 6) one ∷ [])
        (depth_flow_state 900 (decimal 3 2) zero (decimal 1 4))
        ≡ Ok (order_by 1 (decimal 1 2) ∷ []) }
    ensures other_fourth { reading beaten_pid_rules no_tables
        (depth_flow_state 600 (number 2) zero (decimal 1 4)
        ∷ depth_flow_state 300 (decimal 3 2) zero (decimal 1 2)
        ∷ depth_flow_state 0 one (number 6) one ∷ [])
        (depth_flow_state 900 one zero (decimal 1 4)) ≡ Ok (order_by 1 (decimal 1 2) ∷ []) }
{}

/// At a RULE_STEP of ten minutes the row after five is not due: nothing is settled, and the PID
/// neither moves nor counts. The row after ten minutes is due, and its step is ten minutes.
pub fn rows_not_due()
    ensures first { standings slow_rules no_tables [] (flow_state 0 60 (number 4) one)
        ≡ stands (decimal 89 100) (decimal 89 100) }
    ensures second { reading slow_rules no_tables (flow_state 0 60 (number 4) one ∷ [])
        (flow_state 300 300 (number 4) (decimal 89 100)) ≡ Ok [] }
    ensures third { standings slow_rules no_tables
        (flow_state 300 300 (number 4) (decimal 89 100) ∷ flow_state 0 60 (number 4) one ∷ [])
        (flow_state 600 600 (number 4) (decimal 89 100))
        ≡ stands (decimal 69 100) (decimal 69 100) }
{}
