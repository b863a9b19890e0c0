//! Examples of keys, of rules that are well formed or not, and of states, memories and tables for
//! them. Each function here does nothing: its contract states what holds of the example.
ghost use Rattle.std.specs.Prelude.{◌≡◌, ◌≤◌, ◌^◌, ℕ, pos, true, false, not, Some, None, List, []};
ghost use Rattle.std.specs.Prelude.{◌∷◌, ◌++◌, map};
ghost use Rattle.std.specs.Prelude.{replicate};
ghost use Rattle.std.specs.List.{filter, range_with_len};
ghost use Rattle.exact_fraction.specs.Number.{whole, zero, one};
ghost use Rattle.exact_fraction.specs.declared.relation.Relation.TheVariants.{Eq, Gt, Ne};
ghost use Rattle.rule_types.specs.declared.object.Space.TheVariants.{Nodes, Links, Gages};
ghost use Rattle.rule_types.specs.declared.key.Attr.TheVariants.{Head, HourDepth, Flow, Depth};
ghost use Rattle.rule_types.specs.declared.key.Attr.TheVariants.{Setting, Status};
ghost use Rattle.rule_types.specs.declared.key.Attr.TheVariants.{TimeOpen, TimeClosed};
ghost use Rattle.rule_types.specs.declared.key.ClockAttr.TheVariants.{Time, Date, ClockTime};
ghost use Rattle.rule_types.specs.declared.key.Key.{Key};
ghost use Rattle.rule_types.specs.declared.key.Key.TheVariants.{Object, Clock};
ghost use Rattle.rule_types.specs.declared.condition.Side.TheVariants as side;
ghost use Rattle.rule_types.specs.declared.condition.Right.TheVariants as right;
ghost use Rattle.rule_types.specs.Examples.{well_depth, well, above, if_deep, set_pump, by_pid};
ghost use Rattle.rule_types.specs.Examples.{station_rules};
ghost use Rattle.rule_types.specs.Examples.{fitting_state, closed_pump, closing_orifice};
ghost use Rattle.rule_types.specs.Examples.{orifice_at};
ghost use Rattle.rule_types.specs.Examples.{state_with, fresh_memory, rising_points};
ghost use Rattle.rule_types.specs.Examples.{falling_points, tables_with};
ghost use Rattle.rule_types.specs.Fitting.{FitsRules, MemoriesFit};
ghost use Rattle.rule_types.specs.KeyExamples.{all_attributes, node_attributes, link_attributes};
ghost use Rattle.rule_types.specs.KeyExamples.{gage_attributes};
ghost use Rattle.rule_types.specs.KeyExamples.{clock_attributes, keys_of, ordered_keys};
ghost use Rattle.rule_types.specs.KeyOrder.{IsInKeyOrder};
ghost use Rattle.rule_types.specs.Keys.{has_attribute, is_key, is_input, is_time};
ghost use Rattle.rule_types.specs.RuleCases.{small_rule, small_rules, with_rules, with_rule};
ghost use Rattle.rule_types.specs.RuleCases.{with_condition};
ghost use Rattle.rule_types.specs.RuleCases.{with_actions, with_names, with_inputs, with_links};
ghost use Rattle.rule_types.specs.RuleCases.{with_times, with_pids};
ghost use Rattle.rule_types.specs.RuleCases.{minus_one, two, seventh, if_left, if_right};
ghost use Rattle.rule_types.specs.RuleCases.{if_half_step, node_key};
ghost use Rattle.rule_types.specs.RuleCases.{link_key, variable_of, expression_of, name_formula};
ghost use Rattle.rule_types.specs.RuleCases.{power_formula, signs};
ghost use Rattle.rule_types.specs.RuleCases.{depths};
ghost use Rattle.rule_types.specs.Tables.{HoldsTables};
ghost use Rattle.rule_types.specs.WellFormed.{WellFormed};

/// The attributes of nodes, links and gages, and the order of keys: nodes, links and gages, each
/// with its attributes in the order of the table, and then the clock. Rain is summed over 1 to 48
/// hours.
pub fn keys()
    ensures nodes { filter (has_attribute Nodes) all_attributes ≡ node_attributes }
    ensures links { filter (has_attribute Links) all_attributes ≡ link_attributes }
    ensures gages { filter (has_attribute Gages) all_attributes ≡ gage_attributes }
    ensures clock { is_key (Clock Date) ≡ true }
    ensures order { IsInKeyOrder ordered_keys }
    ensures not_traced { filter (λ key. not (is_input key)) ordered_keys
        ≡ keys_of Links (Setting ∷ Status ∷ TimeOpen ∷ TimeClosed ∷ [])
        ++ map Clock clock_attributes }
    ensures times { filter is_time ordered_keys
        ≡ keys_of Links (TimeOpen ∷ TimeClosed ∷ []) ++ map Clock (Time ∷ ClockTime ∷ []) }
{}

/// Rules that are well formed: one with a gage, a timer, a status, a key on the right, a series,
/// PIDs, a power and a variable on a side, and others at the bounds. Input keys that no condition
/// reads are allowed, also those whose value does not come from the trace.
pub fn well_formed_rules()
    ensures station { WellFormed station_rules }
    ensures small { WellFormed small_rules }
    ensures unread_keys { WellFormed (with_inputs (well_depth ∷ link_key Setting ∷ Clock Date ∷ [])) }
    ensures deepest_formula { WellFormed (with_names (well ∷ expression_of (signs 63) ∷ [])) }
    ensures largest_exponent { WellFormed (with_names (well ∷ expression_of (power_formula 8) ∷ [])) }
    ensures slowest_link { WellFormed (with_times (whole (pos 1000000)) one (whole (pos 86400))) }
    ensures open_wide { WellFormed (with_times zero two one) }
{}

/// Rules that are not well formed, by a condition, an action or their number.
pub fn faulty_rules()
    ensures no_condition { ¬ WellFormed (with_rule (record small_rule { conditions = [] })) }
    ensures begins_with_or { ¬ WellFormed (with_condition (record if_deep { joined_by_and = false })) }
    ensures no_action { ¬ WellFormed (with_actions [] []) }
    ensures left_attribute { ¬ WellFormed (with_condition (if_left (side.Key (node_key Setting)))) }
    ensures left_name { ¬ WellFormed (with_condition (if_left (side.Expr 2))) }
    ensures right_attribute { ¬ WellFormed (with_condition (if_right (right.Key (node_key Setting)))) }
    ensures negative_then { ¬ WellFormed (with_actions (set_pump minus_one ∷ []) []) }
    ensures negative_else { ¬ WellFormed (with_actions [] (set_pump minus_one ∷ [])) }
    ensures half_step_above { ¬ WellFormed (with_condition (if_half_step (Clock Time) Gt (right.Value one))) }
    ensures half_step_date { ¬ WellFormed (with_condition (if_half_step (Clock Date) Eq (right.Value one))) }
    ensures half_step_key { ¬ WellFormed (with_condition (if_half_step (Clock Time) Eq (right.Key (Clock ClockTime)))) }
    ensures half_step_part { ¬ WellFormed (with_condition (if_half_step (Clock Time) Eq (right.Value seventh))) }
    ensures half_step_negative { ¬ WellFormed (with_condition (if_half_step (Clock Time) Ne (right.Value minus_one))) }
    ensures half_step_large { ¬ WellFormed (with_condition (if_half_step (Clock Time) Ne
        (right.Value (whole (pos 1000001))))) }
    ensures many_rules { (count : ℕ) → 2 ^ 32 ≤ count → ¬ WellFormed (with_rules (replicate count small_rule)) }
    ensures many_conditions { (count : ℕ) → 2 ^ 32 ≤ count
        → ¬ WellFormed (with_rule (record small_rule { conditions = replicate count if_deep })) }
    ensures many_then { (count : ℕ) → 2 ^ 32 ≤ count
        → ¬ WellFormed (with_actions (replicate count (set_pump one)) []) }
    ensures many_else { (count : ℕ) → 2 ^ 32 ≤ count
        → ¬ WellFormed (with_actions [] (replicate count (set_pump one))) }
{}

/// Rules that are not well formed, by a variable or an expression.
pub fn faulty_names()
    ensures attribute { ¬ WellFormed (with_names (variable_of (node_key Setting) ∷ [])) }
    ensures deep_formula { ¬ WellFormed (with_names (well ∷ expression_of (signs 64) ∷ [])) }
    ensures large_exponent { ¬ WellFormed (with_names (well ∷ expression_of (power_formula 9) ∷ [])) }
    ensures later_variable { ¬ WellFormed (with_names (expression_of (name_formula 1) ∷ well ∷ [])) }
    ensures own_name { ¬ WellFormed (with_names (well ∷ expression_of (name_formula 1) ∷ [])) }
    ensures no_variable { ¬ WellFormed (with_names (well ∷ above ∷ expression_of (name_formula 1) ∷ [])) }
    ensures no_name { ¬ WellFormed (with_names (well ∷ expression_of (name_formula 2) ∷ [])) }
    ensures many_names { (count : ℕ) → 2 ^ 32 ≤ count → ¬ WellFormed (with_names (replicate count well)) }
{}

/// Rules that are not well formed, by their lists of keys and links.
pub fn faulty_lists()
    ensures unlisted_left { ¬ WellFormed (with_inputs []) }
    ensures unlisted_right { ¬ WellFormed (with_condition (if_right (right.Key (node_key Head)))) }
    ensures unlisted_variable { ¬ WellFormed (record (with_condition (if_left (side.Expr 0))) {
      names = variable_of (node_key Head) ∷ [];
    }) }
    ensures unlisted_expression { ¬ WellFormed (record (with_condition (if_left (side.Expr 1))) {
      names = variable_of (node_key Head) ∷ expression_of (name_formula 0) ∷ [];
    }) }
    ensures untracked_setting { ¬ WellFormed (with_condition (if_left (side.Key (link_key Setting)))) }
    ensures untracked_status { ¬ WellFormed (with_condition (if_left (side.Key (link_key Status)))) }
    ensures untracked_open { ¬ WellFormed (with_condition (if_left (side.Key (link_key TimeOpen)))) }
    ensures untracked_closed { ¬ WellFormed (with_condition (if_left (side.Key (link_key TimeClosed)))) }
    ensures not_controlled { ¬ WellFormed (with_links (0 ∷ 2 ∷ []) (2 ∷ [])) }
    ensures controlled_untracked { ¬ WellFormed (with_links (0 ∷ []) (0 ∷ 2 ∷ [])) }
    ensures input_attribute { ¬ WellFormed (with_inputs (node_key Flow ∷ well_depth ∷ [])) }
    ensures inputs_fall { ¬ WellFormed (with_inputs (node_key Head ∷ well_depth ∷ [])) }
    ensures input_twice { ¬ WellFormed (with_inputs (well_depth ∷ well_depth ∷ [])) }
    ensures tracked_fall { ¬ WellFormed (with_links (2 ∷ 0 ∷ []) (0 ∷ [])) }
    ensures tracked_twice { ¬ WellFormed (with_links (0 ∷ 0 ∷ []) (0 ∷ [])) }
    ensures controlled_fall { ¬ WellFormed (with_links (0 ∷ 2 ∷ []) (2 ∷ 0 ∷ [])) }
    ensures controlled_twice { ¬ WellFormed (with_links (0 ∷ 2 ∷ []) (0 ∷ 0 ∷ [])) }
    ensures pumps { ¬ WellFormed (record small_rules { pumps = [] }) }
    ensures initial { ¬ WellFormed (record small_rules { initial = [] }) }
    ensures rates { ¬ WellFormed (record small_rules { rates = [] }) }
    ensures many_inputs { (count : ℕ) → 2 ^ 32 ≤ count → ¬ WellFormed (with_inputs (depths count)) }
    ensures many_tracked { (count : ℕ) → 2 ^ 32 ≤ count → ¬ WellFormed (with_links (range_with_len 0 count) (0 ∷ [])) }
    ensures many_controlled { (count : ℕ) → 2 ^ 32 ≤ count
        → ¬ WellFormed (with_links (range_with_len 0 count) (range_with_len 0 count)) }
{}

/// Rules that are not well formed, by the numbers of their PID actions, or by a setting or a time.
pub fn faulty_numbers()
    ensures pids_from_one { ¬ WellFormed (with_pids 1 2) }
    ensures pids_turned { ¬ WellFormed (with_pids 1 0) }
    ensures pids_alike { ¬ WellFormed (with_pids 0 0) }
    ensures negative_setting { ¬ WellFormed (with_times zero minus_one one) }
    ensures moving_past_one { ¬ WellFormed (with_times one two one) }
    ensures negative_rate { ¬ WellFormed (with_times minus_one one one) }
    ensures large_rate { ¬ WellFormed (with_times (whole (pos 1000001)) one one) }
    ensures part_rate { ¬ WellFormed (with_times seventh one one) }
    ensures no_step { ¬ WellFormed (with_times zero one zero) }
    ensures large_step { ¬ WellFormed (with_times zero one (whole (pos 86401))) }
    ensures part_step { ¬ WellFormed (with_times zero one seventh) }
{}

/// A state and memories that fit the rules of the station, and what does not: too few inputs, links
/// or memories, a negative setting, target or timer, a link that takes no time to move and is not
/// at its target, and a step that is neither a routing step nor a whole number of seconds.
pub fn states()
    ensures fits { FitsRules station_rules fitting_state }
    ensures long_step { FitsRules station_rules (record fitting_state { step = whole (pos 315537897599) }) }
    ensures longer_step { ¬ FitsRules station_rules (record fitting_state { step = whole (pos 315537897600) }) }
    ensures memories_fit { MemoriesFit station_rules.rules (fresh_memory ∷ fresh_memory ∷ []) }
    ensures too_few_links { ¬ FitsRules station_rules (record fitting_state { links = closed_pump ∷ [] }) }
    ensures negative_setting { ¬ FitsRules station_rules (orifice_at minus_one zero zero) }
    ensures negative_target { ¬ FitsRules station_rules (orifice_at zero minus_one zero) }
    ensures negative_timer { ¬ FitsRules station_rules (orifice_at zero zero minus_one) }
    ensures pump_off_target { ¬ FitsRules station_rules (record fitting_state {
      links = record closed_pump { target = one } ∷ closing_orifice ∷ [];
    }) }
    ensures part_step { ¬ FitsRules station_rules (record fitting_state { step = seventh }) }
    ensures no_step { ¬ FitsRules station_rules (record fitting_state { step = zero }) }
    ensures too_few_inputs { ¬ FitsRules station_rules (state_with (Some one ∷ None ∷ [])) }
    ensures too_few_memories { ¬ MemoriesFit station_rules.rules (fresh_memory ∷ []) }
{}

/// Tables with a curve and a series whose x rise hold what those rules name, and tables whose x
/// fall do not.
pub fn tables()
    ensures held { HoldsTables (tables_with rising_points) station_rules.rules }
    ensures falling { ¬ HoldsTables (tables_with falling_points) station_rules.rules }
{}
