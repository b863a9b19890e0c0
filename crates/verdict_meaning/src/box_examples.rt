//! Examples of hulls, boxes and grids, with values that were worked out by hand.
#![tactic(auto, unfolding(crate::proofs::ExampleWords::example_words))]

ghost use Rattle.std.specs.Prelude.{◌≡◌, true, false, Some, None, Ok, Err, [], ◌∷◌, pos, ◌+ℤ◌};
ghost use Rattle.exact_fraction.specs.Number.{zero, one};
ghost use Rattle.exact_fraction.specs.Operations.{negation_of};
ghost use Rattle.exact_fraction.specs.declared.relation.Relation.TheVariants.{Eq, Ne};
ghost use Rattle.interval_sets.specs.declared.interval.Bound.TheVariants as end;
ghost use Rattle.interval_sets.specs.Examples.{half_open};
ghost use Rattle.interval_sets.specs.Intervals.{whole_line};
ghost use Rattle.rule_types.specs.declared.key.Attr.TheVariants.{Status};
ghost use Rattle.rule_types.specs.declared.key.ClockAttr.TheVariants.{ClockTime, Month};
ghost use Rattle.rule_types.specs.declared.key.Key.TheVariants.{Clock};
ghost use Rattle.rule_meaning.specs.Examples.{number, decimal, midnight, no_tables, example_tables};
ghost use Rattle.rule_meaning.specs.Examples.{depth, link_key};
ghost use Rattle.verdict_meaning.specs.declared.question.Question.TheVariants.{Conflict, Limit};
ghost use Rattle.verdict_meaning.specs.declared.truth.Reach.TheVariants.{Missing, Within};
ghost use Rattle.verdict_meaning.specs.declared.truth.Truth.TheVariants.{Yes, No, Open};
ghost use Rattle.verdict_meaning.specs.BoxExamples.{greatest, timer_box, open_timer, closed_timer};
ghost use Rattle.verdict_meaning.specs.BoxExamples.{timer_rules, timer_ranges, curve_rules};
ghost use Rattle.verdict_meaning.specs.BoxExamples.{depth_ranges, rated_rules, half_open_state};
ghost use Rattle.verdict_meaning.specs.BoxExamples.{level_rules, level_ranges, evening_rules};
ghost use Rattle.verdict_meaning.specs.BoxExamples.{before_evening, evening, evening_box, gate_box};
ghost use Rattle.verdict_meaning.specs.BoxExamples.{timed_rules, open_box, many_rules, many_ranges};
ghost use Rattle.verdict_meaning.specs.Boxes.{first_box};
ghost use Rattle.verdict_meaning.specs.Examples.{gate_rules, gate_ranges, gate_state};
ghost use Rattle.verdict_meaning.specs.Grids.{cell_count, gap_of, moment_pieces};
ghost use Rattle.verdict_meaning.specs.Hulls.{closed, sum_hull, difference_hull, size_hull};
ghost use Rattle.verdict_meaning.specs.Hulls.{sign_hull, step_hull, product_hull, quotient_hull};
ghost use Rattle.verdict_meaning.specs.Hulls.{power_hull};
ghost use Rattle.verdict_meaning.specs.Premises.{rule_truth};
ghost use Rattle.verdict_meaning.specs.Reaches.{key_reach};
ghost use Rattle.verdict_meaning.specs.Shown.{shown};
ghost use Rattle.verdict_meaning.specs.Verdicts.{first_event, first_open, is_plain_question};

/// An end of a sum is left out where one of the two that make it is, and where an end does not fit
/// the hull is the whole line.
pub fn sums()
    ensures one_left_out { sum_hull (closed one (number 2)) (half_open 3 4) ≡ half_open 4 6 }
    ensures crosswise { difference_hull (closed (number 5) (number 7)) (closed one (number 2))
        ≡ closed (number 3) (number 6) }
    ensures overflow { sum_hull (closed zero greatest) (closed zero one) ≡ whole_line }
{}

/// The least intervals of sizes, signs and steps.
pub fn signs()
    ensures size_across { size_hull (closed (negation_of (number 3)) (number 2))
        ≡ closed zero (number 3) }
    ensures size_below { size_hull (closed (negation_of (number 3)) (negation_of one))
        ≡ closed one (number 3) }
    ensures sign_above { sign_hull (half_open 0 5) ≡ closed one one }
    ensures sign_from_zero { sign_hull (closed zero (number 5)) ≡ closed zero one }
    ensures sign_across { sign_hull (closed (negation_of one) (number 5))
        ≡ closed (negation_of one) one }
    ensures step_from_zero { step_hull (closed zero (number 5)) ≡ closed zero one }
    ensures step_above { step_hull (half_open 0 5) ≡ closed one one }
    ensures step_at_zero { step_hull (closed zero zero) ≡ closed zero zero }
{}

/// The hull of a product goes from the least to the greatest product of ends. A square is a product
/// of two operands that may differ. Nothing is known of a quotient whose divisor can be 0.
pub fn products()
    ensures across { product_hull (closed (negation_of (number 2)) (number 3))
        (closed (negation_of (number 5)) (number 4))
        ≡ closed (negation_of (number 15)) (number 12) }
    ensures square { power_hull (closed (negation_of one) (number 2)) 2
        ≡ closed (negation_of (number 2)) (number 4) }
    ensures power_zero { power_hull (closed (negation_of one) (number 2)) 0 ≡ closed one one }
    ensures quotient { quotient_hull (closed one (number 2)) (closed (number 2) (number 4))
        ≡ closed (decimal 1 4) one }
    ensures zero_end { quotient_hull (closed one (number 2)) (half_open 0 4) ≡ whole_line }
{}

/// A closed link has no TIMEOPEN, and its TIMECLOSED is present. Where the setting can be 0 or
/// above it, each of the two can be missing.
pub fn timers()
    ensures no_open { key_reach midnight (timer_box (closed zero zero)) open_timer ≡ Missing }
    ensures closed_there { key_reach midnight (timer_box (closed zero zero)) closed_timer
        ≡ Within true (closed zero (number 10)) }
    ensures no_closed { key_reach midnight (timer_box (half_open 0 1)) closed_timer ≡ Missing }
    ensures open_or_not { key_reach midnight (timer_box (closed zero one)) open_timer
        ≡ Within false (closed zero (number 10)) }
{}

/// A missing controller says nothing of a number: the setting 5 is ordered all the same. A curve
/// stays within the limit up to depth 1.5, where it reaches 0.5, and not up to depth 2.
pub fn limits()
    ensures number_ordered { shown timer_rules no_tables (Limit 0 zero one)
        (first_box timer_rules (Limit 0 zero one) timer_ranges) ≡ false }
    ensures curve_within { shown curve_rules example_tables (Limit 0 zero (decimal 1 2))
        (first_box curve_rules (Limit 0 zero (decimal 1 2)) (depth_ranges (decimal 3 2))) ≡ true }
    ensures curve_past { shown curve_rules example_tables (Limit 0 zero (decimal 1 2))
        (first_box curve_rules (Limit 0 zero (decimal 1 2)) (depth_ranges (number 2))) ≡ false }
{}

/// On a link with a rate a setting of 3 counts as 1. On another it is past the limit, first at
/// depth 5.5 and setting 0.5.
pub fn rates()
    ensures with_rate { shown (rated_rules one) no_tables (Limit 0 (decimal 1 2) one)
        (first_box (rated_rules one) (Limit 0 (decimal 1 2) one) (depth_ranges (number 10)))
        ≡ true }
    ensures without { first_event (rated_rules zero) no_tables (depth_ranges (number 10))
        (Limit 0 (decimal 1 2) one) ≡ Some half_open_state }
{}

/// Of two depths in one range neither is known to be above the other; in ranges that lie apart one
/// is. A question on two keys is not plain.
pub fn levels()
    ensures open { shown level_rules no_tables (Conflict 0 1 0)
        (first_box level_rules (Conflict 0 1 0)
        (level_ranges (closed zero (number 10)) (closed zero (number 10)))) ≡ false }
    ensures apart { shown level_rules no_tables (Conflict 0 1 0)
        (first_box level_rules (Conflict 0 1 0)
        (level_ranges (closed zero one) (closed (number 2) (number 3)))) ≡ true }
    ensures not_plain { is_plain_question level_rules (Conflict 0 1 0) ≡ false }
    ensures plain { is_plain_question gate_rules (Conflict 0 1 0) ≡ true }
{}

/// A depth of 12 is not above 12, where the box has it and where it is the only one.
pub fn ends()
    ensures at_the_end { rule_truth gate_rules (gate_box (closed (number 12) (number 20))) 0
        ≡ Open }
    ensures past_it { rule_truth gate_rules (gate_box (half_open 12 20)) 0 ≡ Yes }
    ensures up_to_it { rule_truth gate_rules (gate_box (closed zero (number 12))) 0 ≡ No }
{}

/// A condition of the clock is decided by the seconds of the box, and a piece of moments begins
/// where it changes.
pub fn moments()
    ensures before { rule_truth evening_rules (evening_box before_evening before_evening) 0 ≡ No }
    ensures across { rule_truth evening_rules (evening_box before_evening evening) 0 ≡ Open }
    ensures after { rule_truth evening_rules (evening_box evening evening) 0 ≡ Yes }
    ensures pieces { moment_pieces evening_rules (Limit 0 zero (decimal 1 2))
        (Some (before_evening, evening))
        ≡ Some (before_evening, before_evening) ∷ Some (evening, evening) ∷ [] }
{}

/// The grid of two keys, cut at depth 12 and at flow 100 and 200, and its first sample with a
/// conflict.
pub fn grids()
    ensures count { cell_count gate_rules (Conflict 0 1 0) gate_ranges ≡ 35 }
    ensures first { first_event gate_rules no_tables gate_ranges (Conflict 0 1 0)
        ≡ Some (gate_state (number 16) (number 250)) }
    ensures none { first_event gate_rules no_tables gate_ranges (Conflict 0 2 0) ≡ None }
{}

/// STATUS is read off SETTING, and nothing is known of a key that the box does not have. Within one
/// day the clock goes from its first to its last value, and over several days a month can be any.
pub fn keys()
    ensures closed_status { key_reach midnight (timer_box (closed zero zero)) (link_key Status 0)
        ≡ Within true (closed zero zero) }
    ensures either_status { key_reach midnight (timer_box (closed zero one)) (link_key Status 0)
        ≡ Within true (closed zero one) }
    ensures not_there { key_reach midnight (timer_box (closed zero one)) (depth 0)
        ≡ Within false whole_line }
    ensures clock_time { key_reach midnight (evening_box before_evening evening) (Clock ClockTime)
        ≡ Within true (closed (decimal 81899 3600) (decimal 91 4)) }
    ensures one_month { key_reach midnight (evening_box before_evening evening) (Clock Month)
        ≡ Within true (closed (number 6) (number 6)) }
    ensures any_month { key_reach midnight (evening_box midnight (midnight +ℤ pos 86400))
        (Clock Month) ≡ Within true (closed one (number 12)) }
{}

/// Times are equal within half a step of 20 seconds: from an hour less 10 seconds on, and before an
/// hour and 10 seconds.
pub fn half_steps()
    ensures from_the_start { rule_truth (timed_rules Eq) (open_box (closed (decimal 359 360) one)) 0
        ≡ Yes }
    ensures from_before { rule_truth (timed_rules Eq) (open_box (closed (decimal 358 360) one)) 0
        ≡ Open }
    ensures to_the_end { rule_truth (timed_rules Eq) (open_box (closed one (decimal 361 360))) 0
        ≡ Open }
    ensures before_the_end { rule_truth (timed_rules Eq) (open_box (record {
      low = end.Bound one false;
      high = end.Bound (decimal 361 360) true;
    })) 0 ≡ Yes }
    ensures from_the_end { rule_truth (timed_rules Eq)
        (open_box (closed (decimal 361 360) (number 2))) 0 ≡ No }
    ensures unequal { rule_truth (timed_rules Ne) (open_box (closed (decimal 361 360) (number 2))) 0
        ≡ Yes }
{}

/// Of the nine cells of two depths the first that is not shown is that of both gaps, and thirteen
/// depths have 3^13 cells.
pub fn cells()
    ensures first_open { first_open level_rules no_tables
        (level_ranges (closed zero (number 10)) (closed zero (number 10))) (Conflict 0 1 0)
        ≡ Some (record {
          keys = (depth 0, gap_of zero (number 10)) ∷ (depth 1, gap_of zero (number 10)) ∷ [];
          moments = None;
        }) }
    ensures count { cell_count many_rules (Conflict 0 1 0) many_ranges ≡ 1594323 }
{}
