//! Examples of stops, and of the order in which a reading evaluates: where several would stop it,
//! the stop is the first one.
#![tactic(auto, unfolding(crate::proofs::ExampleWords::rule_words))]

ghost use Rattle.std.specs.Prelude.{◌≡◌, Some, None, Ok, Err, [], ◌∷◌};
ghost use Rattle.exact_fraction.specs.Number.{zero, one};
ghost use Rattle.rule_types.specs.declared.action.Branch.TheVariants.{Then};
ghost use Rattle.rule_types.specs.declared.stop.StopCause.TheVariants as cause;
ghost use Rattle.rule_types.specs.declared.stop.StopPlace.TheVariants as place;
ghost use Rattle.rule_meaning.specs.Formula.{names_stop_for};
ghost use Rattle.rule_meaning.specs.History.{reading, standings};
ghost use Rattle.rule_meaning.specs.Examples.{number, decimal, no_tables, first_action, stands};
ghost use Rattle.rule_meaning.specs.ExampleRules.{quotient_rules, depths_state};
ghost use Rattle.rule_meaning.specs.ExampleStops.{two_links_state, steep_tables, beaten_stop_rules};
ghost use Rattle.rule_meaning.specs.ExampleStops.{two_curve_rules, two_pid_rules};
ghost use Rattle.rule_meaning.specs.ExampleStops.{pid_and_name_rules, two_name_rules};

/// A used name stops the reading where no rule needs it: the condition before it holds. Where no
/// rule uses it, it does not stop. A missing operand on the left hides the zero divisor.
pub fn name_stops()
    ensures zero_divisor { reading quotient_rules no_tables []
        (depths_state 0 (Some one) (Some zero))
        ≡ Err (record { place = place.Name 2; cause = cause.ZeroDivisor }) }
    ensures overflow { reading quotient_rules no_tables []
        (depths_state 0 (Some (number 9223372036854775807)) (Some (decimal 1 2)))
        ≡ Err (record { place = place.Name 2; cause = cause.Overflow }) }
    ensures unused { names_stop_for quotient_rules [] (depths_state 0 (Some one) (Some zero))
        ≡ None }
    ensures hidden { reading quotient_rules no_tables [] (depths_state 0 None (Some zero)) ≡ Ok [] }
    ensures keeps { standings quotient_rules no_tables [] (depths_state 0 (Some one) (Some zero))
        ≡ stands one (decimal 2 5) }
{}

/// Names come before PID actions, and PID actions before the pairs that links take, also those that
/// are listed and not settled. Names come in the order of the file, PID actions in that of rules,
/// and pairs in that of links.
pub fn first_stops()
    ensures name_before_pid { reading pid_and_name_rules steep_tables []
        (two_links_state (decimal 1 2) zero)
        ≡ Err (record { place = place.Name 2; cause = cause.ZeroDivisor }) }
    ensures pid_alone { reading pid_and_name_rules steep_tables []
        (two_links_state (decimal 1 2) one)
        ≡ Err (record { place = place.Action (first_action 0); cause = cause.Overflow }) }
    ensures beaten_pid_before_curve { reading beaten_stop_rules steep_tables []
        (two_links_state (decimal 1 2) zero)
        ≡ Err (record { place = place.Action (first_action 1); cause = cause.Overflow }) }
    ensures names_in_order { reading two_name_rules steep_tables []
        (two_links_state (number 9223372036854775807) zero)
        ≡ Err (record { place = place.Name 2; cause = cause.ZeroDivisor }) }
    ensures second_name { reading two_name_rules steep_tables []
        (two_links_state (number 9223372036854775807) one)
        ≡ Err (record { place = place.Name 3; cause = cause.Overflow }) }
    ensures pids_in_order { reading two_pid_rules steep_tables [] (two_links_state one zero)
        ≡ Err (record { place = place.Action (first_action 0); cause = cause.Overflow }) }
    ensures links_in_order { reading two_curve_rules steep_tables []
        (two_links_state (decimal 1 2) zero)
        ≡ Err (record {
          place = place.Action (record { rule = 0; branch = Then; action = 1 });
          cause = cause.Overflow;
        }) }
{}
