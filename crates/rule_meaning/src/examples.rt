//! Examples of the definitions, with values that were worked out by hand.
#![tactic(auto, unfolding(crate::proofs::ExampleWords::row_words))]

ghost use Rattle.std.specs.Prelude.{◌≡◌, ◌==◌, ◌||◌, true, false, not, Some, None, Ok, Err};
ghost use Rattle.std.specs.Prelude.{[], ◌∷◌, pos, negsuc, ◌+ℤ◌};
ghost use Rattle.exact_fraction.specs.Number.{zero, one};
ghost use Rattle.exact_fraction.specs.Operations.{negation_of};
ghost use Rattle.exact_fraction.specs.declared.relation.Relation.TheVariants.{Eq, Ne, Le, Gt, Ge};
ghost use Rattle.rule_types.specs.declared.key.Attr.TheVariants.{TimeOpen, TimeClosed};
ghost use Rattle.rule_types.specs.declared.key.ClockAttr.TheVariants.{Time, Date, Month, Day};
ghost use Rattle.rule_types.specs.declared.key.ClockAttr.TheVariants.{ClockTime, DayOfYear};
ghost use Rattle.rule_types.specs.declared.key.Key.TheVariants.{Clock};
ghost use Rattle.rule_meaning.specs.Clock.{clock_value};
ghost use Rattle.rule_meaning.specs.Condition.{time_relates, holds};
ghost use Rattle.rule_meaning.specs.Premise.{premise_holds, premise_at, listed};
ghost use Rattle.rule_meaning.specs.Settled.{settled_on};
ghost use Rattle.rule_meaning.specs.StraightLines.{line_value};
ghost use Rattle.rule_meaning.specs.Movement.{moved};
ghost use Rattle.rule_meaning.specs.History.{reading_by, reading, standings};
ghost use Rattle.rule_meaning.specs.Replay.{replayed};
ghost use Rattle.rule_meaning.specs.Examples.{number, decimal, depth, link_key, and_if, or_if};
ghost use Rattle.rule_meaning.specs.Examples.{half_step_if, rule_of, plain_rules, midnight};
ghost use Rattle.rule_meaning.specs.Examples.{state_of, straight, first_action, order_by, stands};
ghost use Rattle.rule_meaning.specs.Examples.{no_tables, slope, example_tables, undated_tables};
ghost use Rattle.rule_meaning.specs.ExampleRules.{ranked, moving_rules, moving_state};
ghost use Rattle.rule_meaning.specs.ExampleRules.{orifice_rules, started_rules, row_at, row_state};
ghost use Rattle.rule_meaning.specs.ExampleRules.{always_first, curve_rules, series_rules};
ghost use Rattle.rule_meaning.specs.ExampleRules.{depths_state, twice_set_rules, setting_rules};
ghost use Rattle.rule_meaning.specs.ExampleRules.{three_depths, depths_at, either_and_last};
ghost use Rattle.rule_meaning.specs.ExampleRules.{first_and_either, four_conditions};
ghost use Rattle.rule_meaning.specs.ExampleStops.{steep};

/// The clock at 2001-06-15T07:30:00, a Friday, 30 minutes after the start.
pub fn clock()
    ensures time { clock_value Time (midnight +ℤ pos 25200) (midnight +ℤ pos 27000) ≡ decimal 1 2 }
    ensures date { clock_value Date midnight (midnight +ℤ pos 27000) ≡ number 11488 }
    ensures month { clock_value Month midnight (midnight +ℤ pos 27000) ≡ number 6 }
    ensures day { clock_value Day midnight (midnight +ℤ pos 27000) ≡ number 6 }
    ensures clock_time { clock_value ClockTime midnight (midnight +ℤ pos 27000) ≡ decimal 15 2 }
    ensures day_of_year { clock_value DayOfYear midnight (midnight +ℤ pos 27000) ≡ number 166 }
    ensures saturday { clock_value Day midnight (midnight +ℤ pos 86400) ≡ number 7 }
    ensures sunday { clock_value Day midnight (midnight +ℤ pos 172800) ≡ one }
{}

/// The clock at 1969-12-31T23:59:59, a Wednesday, one hour after the start.
pub fn before_1970()
    ensures time { clock_value Time (negsuc 3600) (negsuc 0) ≡ one }
    ensures date { clock_value Date (negsuc 3600) (negsuc 0) ≡ negation_of one }
    ensures month { clock_value Month (negsuc 3600) (negsuc 0) ≡ number 12 }
    ensures day { clock_value Day (negsuc 3600) (negsuc 0) ≡ number 4 }
    ensures clock_time { clock_value ClockTime (negsuc 3600) (negsuc 0) ≡ decimal 86399 3600 }
    ensures day_of_year { clock_value DayOfYear (negsuc 3600) (negsuc 0) ≡ number 365 }
{}

/// A time lies within half a step of 22:45:00 from 22:44:30 on and before 22:45:30, at a step of
/// one minute. At midnight nothing wraps.
pub fn half_steps()
    ensures early { time_relates Eq (decimal 81869 3600) (decimal 91 4) (decimal 1 60) ≡ false }
    ensures first { time_relates Eq (decimal 81870 3600) (decimal 91 4) (decimal 1 60) ≡ true }
    ensures last { time_relates Eq (decimal 81929 3600) (decimal 91 4) (decimal 1 60) ≡ true }
    ensures late { time_relates Eq (decimal 81930 3600) (decimal 91 4) (decimal 1 60) ≡ false }
    ensures contrary { time_relates Ne (decimal 81930 3600) (decimal 91 4) (decimal 1 60) ≡ true }
    ensures exact { time_relates Le (decimal 81901 3600) (decimal 91 4) (decimal 1 60) ≡ false }
    ensures after_midnight { time_relates Eq (decimal 15 3600) zero (decimal 1 60) ≡ true }
    ensures before_midnight { time_relates Eq (decimal 86385 3600) zero (decimal 1 60) ≡ false }
{}

/// The same by a condition on CLOCKTIME at states, with the step of the state.
pub fn half_step_conditions()
    ensures holds_early { holds (plain_rules [] []) (state_of 81870 60 [] zero zero)
        (half_step_if (Clock ClockTime) Eq (decimal 91 4)) ≡ true }
    ensures fails_late { holds (plain_rules [] []) (state_of 81930 60 [] zero zero)
        (half_step_if (Clock ClockTime) Eq (decimal 91 4)) ≡ false }
    ensures longer_step { holds (plain_rules [] []) (state_of 81930 120 [] zero zero)
        (half_step_if (Clock ClockTime) Eq (decimal 91 4)) ≡ true }
{}

/// A closed link has no TIMEOPEN: no relation holds of it, `<>` neither. An open link has no
/// TIMECLOSED.
pub fn missing_timers()
    ensures open_missing { holds (plain_rules [] []) (state_of 0 60 [] zero zero)
        (half_step_if (link_key TimeOpen 0) Ne one) ≡ false }
    ensures closed_there { holds (plain_rules [] []) (state_of 0 60 [] zero zero)
        (and_if (link_key TimeClosed 0) Ge zero) ≡ true }
    ensures closed_missing { holds (plain_rules [] []) (state_of 0 60 [] one one)
        (and_if (link_key TimeClosed 0) Ge zero) ≡ false }
    ensures input_missing { holds (plain_rules (depth 0 ∷ []) [])
        (state_of 0 60 (None ∷ []) one one) (and_if (depth 0) Ne one) ≡ false }
{}

/// OR binds closer than AND, whichever comes first, also where truths are given by place.
pub fn premises()
    ensures or_first { premise_holds three_depths (depths_at 2 2 0) either_and_last ≡ false }
    ensures or_first_all { premise_holds three_depths (depths_at 0 2 2) either_and_last ≡ true }
    ensures or_first_last { premise_holds three_depths (depths_at 0 0 2) either_and_last ≡ false }
    ensures and_first { premise_holds three_depths (depths_at 0 0 2) first_and_either ≡ false }
    ensures both_groups { premise_holds three_depths (depths_at 2 0 2) first_and_either ≡ true }
    ensures first_alone { premise_holds three_depths (depths_at 2 0 0) first_and_either ≡ false }
    ensures by_place { premise_at (λ place c. not (place == 1)) first_and_either.conditions ≡ true }
    ensures first_place { premise_at (λ place c. not (place == 0)) first_and_either.conditions
        ≡ false }
    ensures inner_two { premise_at (λ place c. (place == 1) || (place == 2)) four_conditions
        ≡ true }
    ensures outer_two { premise_at (λ place c. (place == 0) || (place == 3)) four_conditions
        ≡ true }
    ensures first_two { premise_at (λ place c. (place == 0) || (place == 1)) four_conditions
        ≡ false }
    ensures last_two { premise_at (λ place c. (place == 2) || (place == 3)) four_conditions
        ≡ false }
    ensures none { premise_holds (plain_rules [] []) (state_of 0 60 [] one one)
        (rule_of [] [] [] None) ≡ true }
{}

/// A priority of -3 ranks above none. Of equal ranks the earlier rule is settled, and of one rule's
/// actions on a link the earlier one.
pub fn ranks()
    ensures below_zero { settled_on (ranked None (Some (negation_of (number 3)))).rules
        (listed (ranked None (Some (negation_of (number 3))))
        (state_of 0 300 (Some one ∷ []) one one)) 0 ≡ Some (first_action 1) }
    ensures equal { settled_on (ranked (Some one) (Some one)).rules
        (listed (ranked (Some one) (Some one)) (state_of 0 300 (Some one ∷ []) one one)) 0
        ≡ Some (first_action 0) }
    ensures none { settled_on (ranked None None).rules
        (listed (ranked None None) (state_of 0 300 (Some one ∷ []) one one)) 0
        ≡ Some (first_action 0) }
    ensures nothing_listed { settled_on (ranked None None).rules
        (listed (ranked None None) (state_of 0 300 (Some zero ∷ []) one one)) 0 ≡ None }
    ensures one_rule { settled_on twice_set_rules.rules
        (listed twice_set_rules (state_of 0 300 (Some one ∷ []) one one)) 0
        ≡ Some (first_action 0) }
{}

/// Another choice than the settled pair: the reading orders the pair that is chosen.
pub fn choices()
    ensures settled { reading (ranked None None) no_tables []
        (state_of 0 300 (Some one ∷ []) one one) ≡ Ok (order_by 0 (decimal 1 5) ∷ []) }
    ensures chosen { reading_by (always_first 1) (ranked None None) no_tables []
        (state_of 0 300 (Some one ∷ []) one one) ≡ Ok (order_by 1 (decimal 7 10) ∷ []) }
{}

/// The straight line from (0, 0) to (3, 1), at it and outside.
pub fn lines()
    ensures within { line_value slope.points one ≡ Ok (decimal 1 3) }
    ensures at_last { line_value slope.points (number 3) ≡ Ok one }
    ensures past { line_value slope.points (number 12) ≡ Ok one }
    ensures before { line_value slope.points (negation_of one) ≡ Ok zero }
{}

/// Each step of a straight line must fit: the rise, the way to x, the run and the product, which
/// comes before the quotient. At a point nothing is computed.
pub fn line_steps()
    ensures rise { line_value steep.points (decimal 1 2) ≡ Err (record {}) }
    ensures at_point { line_value steep.points one ≡ Ok (number 9223372036854775807) }
    ensures way { line_value (straight (decimal 1 3) zero (decimal 4 3) (number 3))
        (decimal 4611686018427387903 4611686018427387904) ≡ Err (record {}) }
    ensures run { line_value (straight (negation_of one) zero (number 9223372036854775807)
        (number 2305843009213693952)) one ≡ Err (record {}) }
    ensures product { line_value (straight zero zero (number 1099511627776) (number 1099511627776))
        (number 549755813888) ≡ Err (record {}) }
    ensures quotient_last { line_value
        (straight zero zero (number 4294967296) (decimal 1 4294967296)) (number 2147483648)
        ≡ Ok (decimal 1 8589934592) }
{}

/// A dated series goes from 0.1 at 7:00 to 0.2 at 8:00. One without dates goes from 0.5 at the
/// start to 3 after a day.
pub fn series()
    ensures before { reading series_rules example_tables []
        (state_of 23400 300 (Some zero ∷ []) one one) ≡ Ok (order_by 0 (decimal 1 10) ∷ []) }
    ensures within { reading series_rules example_tables []
        (state_of 27000 300 (Some zero ∷ []) one one) ≡ Ok (order_by 0 (decimal 3 20) ∷ []) }
    ensures past { reading series_rules example_tables []
        (state_of 32400 300 (Some zero ∷ []) one one) ≡ Ok (order_by 0 (decimal 1 5) ∷ []) }
    ensures undated { reading series_rules undated_tables []
        (state_of 43200 300 (Some zero ∷ []) one one) ≡ Ok (order_by 0 (decimal 7 4) ∷ []) }
{}

/// The controller is the left side of the last condition, also where the one before it decides.
/// Where it is missing the value is the old target.
pub fn controllers()
    ensures last_condition { reading curve_rules example_tables []
        (depths_state 0 (Some (number 2)) (Some one)) ≡ Ok (order_by 0 (decimal 1 3) ∷ []) }
    ensures missing { reading curve_rules example_tables []
        (depths_state 0 (Some (number 2)) None) ≡ Ok (order_by 0 (decimal 2 5) ∷ []) }
{}

/// On a link with a rate a setting above 1 counts as 1, and on another it stays.
pub fn rates()
    ensures without { reading (setting_rules zero (number 3)) no_tables []
        (state_of 0 300 (Some zero ∷ []) one one) ≡ Ok (order_by 0 (number 3) ∷ []) }
    ensures with_rate { reading (setting_rules one (number 3)) no_tables []
        (state_of 0 300 (Some zero ∷ []) one one) ≡ Ok (order_by 0 one ∷ []) }
    ensures below_one { reading (setting_rules one (decimal 1 2)) no_tables []
        (state_of 0 300 (Some zero ∷ []) one one) ≡ Ok (order_by 0 (decimal 1 2) ∷ []) }
{}

/// An orifice that takes an hour moves by a twelfth in five minutes, and one that takes half an
/// hour by a sixth. The setting that it moves from is rounded.
pub fn moving_orifice()
    ensures hourly { moved one (decimal 1 12) one zero ≡ decimal 916666667 1000000000 }
    ensures from_third { moved one (decimal 166666667 1000000000) (decimal 1 3) one ≡ decimal 1 2 }
    ensures first { standings moving_rules no_tables [] (moving_state 0 2 one one)
        ≡ stands (decimal 833333333 1000000000) zero }
    ensures second { standings moving_rules no_tables (moving_state 0 2 one one ∷ [])
        (moving_state 300 2 (decimal 833333333 1000000000) zero)
        ≡ stands (decimal 666666666 1000000000) zero }
    ensures third { standings moving_rules no_tables
        (moving_state 300 2 (decimal 833333333 1000000000) zero ∷ moving_state 0 2 one one ∷ [])
        (moving_state 600 0 (decimal 666666666 1000000000) zero)
        ≡ stands (decimal 833333333 1000000000) one }
{}

/// At a RULE_STEP of ten minutes the orifice of half an hour moves at each row, by the time since
/// the row before, whether that row was due or not.
pub fn moving_between_due_rows()
    ensures not_due { standings (orifice_rules (decimal 1 2) 600) no_tables
        (moving_state 0 2 one one ∷ []) (moving_state 300 2 (decimal 833333333 1000000000) zero)
        ≡ stands (decimal 666666666 1000000000) zero }
    ensures due { standings (orifice_rules (decimal 1 2) 600) no_tables
        (moving_state 300 2 (decimal 833333333 1000000000) zero ∷ moving_state 0 2 one one ∷ [])
        (moving_state 600 2 (decimal 666666666 1000000000) zero)
        ≡ stands (decimal 499999999 1000000000) zero }
{}

/// The states of rows. An orifice is closed by the first row and opened by the third, and its timer
/// counts from there. One that takes 450 seconds is closed by a row that is not due, and the step
/// of the next row is the time since the first one. Where the rules have a start, timers count from
/// it.
pub fn replays()
    ensures first { replayed (orifice_rules zero 0) no_tables (row_at 0 2 ∷ [])
        ≡ row_state 0 2 300 one one zero ∷ [] }
    ensures switched { replayed (orifice_rules zero 0) no_tables
        (row_at 1200 0 ∷ row_at 900 0 ∷ row_at 300 2 ∷ row_at 0 2 ∷ [])
        ≡ row_state 1200 0 300 one one (decimal 1 12) ∷ row_state 900 0 600 zero zero (decimal 1 4)
        ∷ row_state 300 2 300 zero zero (decimal 1 12) ∷ row_state 0 2 300 one one zero ∷ [] }
    ensures not_due { replayed (orifice_rules zero 600) no_tables
        (row_at 600 0 ∷ row_at 300 0 ∷ row_at 0 2 ∷ [])
        ≡ row_state 600 0 600 zero zero (decimal 1 6) ∷ row_state 300 0 300 zero zero (decimal 1 12)
        ∷ row_state 0 2 300 one one zero ∷ [] }
    ensures moved_on { replayed (orifice_rules (decimal 1 8) 600) no_tables
        (row_at 600 2 ∷ row_at 300 2 ∷ row_at 0 2 ∷ [])
        ≡ row_state 600 2 600 zero zero (decimal 1 12)
        ∷ row_state 300 2 300 (decimal 333333333 1000000000) zero (decimal 1 12)
        ∷ row_state 0 2 300 one one zero ∷ [] }
    ensures started { replayed started_rules no_tables (row_at 1800 0 ∷ [])
        ≡ row_state 1800 0 300 one one (decimal 1 2) ∷ [] }
{}
