//! Examples of keys, formulas and conditions, with values that were worked out by hand.
#![tactic(auto, unfolding(crate::proofs::ExampleWords::state_words))]

ghost use Rattle.std.specs.Prelude.{◌≡◌, true, false, Some, None, Ok, Err, [], ◌∷◌};
ghost use Rattle.exact_fraction.specs.Number.{zero, one};
ghost use Rattle.exact_fraction.specs.Operations.{negation_of};
ghost use Rattle.exact_fraction.specs.declared.relation.Relation.TheVariants.{Ne, Lt};
ghost use Rattle.rule_types.specs.declared.key.Attr.TheVariants.{Flow, Setting, Status};
ghost use Rattle.rule_types.specs.declared.stop.StopCause.TheVariants.{Overflow, ZeroDivisor};
ghost use Rattle.rule_meaning.specs.Condition.{holds};
ghost use Rattle.rule_meaning.specs.Formula.{formula_value};
ghost use Rattle.rule_meaning.specs.State.{value};
ghost use Rattle.rule_meaning.specs.Examples.{number, decimal, depth, link_key, plain_rules};
ghost use Rattle.rule_meaning.specs.Examples.{rules_of, state_of, net_inflow, flow_names};
ghost use Rattle.rule_meaning.specs.ExampleFormulas.{against, two_depths, formula_of, constant};
ghost use Rattle.rule_meaning.specs.ExampleFormulas.{missing, negated, size, sign, unit_step, sum};
ghost use Rattle.rule_meaning.specs.ExampleFormulas.{difference, product, quotient, to_power};

/// SETTING is the setting of the link and not its target, and STATUS is 1 where the setting is
/// above 0.
pub fn settings()
    ensures setting { value (plain_rules [] []) (state_of 0 60 [] (decimal 1 2) zero)
        (link_key Setting 0) ≡ Some (decimal 1 2) }
    ensures half_open { value (plain_rules [] []) (state_of 0 60 [] (decimal 1 2) zero)
        (link_key Status 0) ≡ Some one }
    ensures closed { value (plain_rules [] []) (state_of 0 60 [] zero one)
        (link_key Status 0) ≡ Some zero }
    ensures no_link { value (plain_rules [] []) (state_of 0 60 [] one one)
        (link_key Setting 1) ≡ None }
{}

/// A condition between two depths holds where both are there and are so related. Where one is
/// missing it does not hold.
pub fn missing_sides()
    ensures both { holds two_depths (state_of 0 60 (Some (number 2) ∷ Some one ∷ []) one one)
        (against (depth 0) Ne (depth 1)) ≡ true }
    ensures right_missing { holds two_depths (state_of 0 60 (Some (number 2) ∷ None ∷ []) one one)
        (against (depth 0) Ne (depth 1)) ≡ false }
    ensures left_missing { holds two_depths (state_of 0 60 (None ∷ Some one ∷ []) one one)
        (against (depth 0) Ne (depth 1)) ≡ false }
    ensures in_order { holds two_depths (state_of 0 60 (Some one ∷ Some (number 2) ∷ []) one one)
        (against (depth 0) Lt (depth 1)) ≡ true }
{}

/// Each function and each operation of formulas.
pub fn functions()
    ensures minus { formula_of (negated (constant (number 3)))
        ≡ Ok (Some (negation_of (number 3))) }
    ensures abs { formula_of (size (constant (negation_of (number 3)))) ≡ Ok (Some (number 3)) }
    ensures abs_above { formula_of (size (constant (number 3))) ≡ Ok (Some (number 3)) }
    ensures sgn_at { formula_of (sign (constant zero)) ≡ Ok (Some zero) }
    ensures sgn_below { formula_of (sign (constant (negation_of (number 2))))
        ≡ Ok (Some (negation_of one)) }
    ensures sgn_above { formula_of (sign (constant (decimal 1 2))) ≡ Ok (Some one) }
    ensures step_at { formula_of (unit_step (constant zero)) ≡ Ok (Some zero) }
    ensures step_below { formula_of (unit_step (constant (negation_of one))) ≡ Ok (Some zero) }
    ensures step_above { formula_of (unit_step (constant (decimal 1 2))) ≡ Ok (Some one) }
    ensures difference { formula_of (difference (constant one) (constant (number 3)))
        ≡ Ok (Some (negation_of (number 2))) }
    ensures product { formula_of (product (constant (number 2)) (constant (number 3)))
        ≡ Ok (Some (number 6)) }
    ensures quotient { formula_of (quotient (constant (number 2)) (constant (number 3)))
        ≡ Ok (Some (decimal 2 3)) }
{}

/// Powers: the one of exponent 0 is 1, of 0 too, but that of a missing number is missing. Each of
/// their products must fit.
pub fn powers()
    ensures third { formula_of (to_power (constant (number 2)) 3) ≡ Ok (Some (number 8)) }
    ensures square { formula_of (to_power (constant (number 3)) 2) ≡ Ok (Some (number 9)) }
    ensures none { formula_of (to_power (constant (number 5)) 0) ≡ Ok (Some one) }
    ensures none_of_zero { formula_of (to_power (constant zero) 0) ≡ Ok (Some one) }
    ensures of_missing { formula_of (to_power missing 0) ≡ Ok None }
    ensures too_large { formula_of (to_power (constant (number 4294967296)) 2) ≡ Err Overflow }
{}

/// The first operand from the left that is missing or stops is the result.
pub fn operands()
    ensures overflow_first { formula_of (sum
        (product (constant (number 4611686018427387904)) (constant (number 4)))
        (quotient (constant one) (constant zero))) ≡ Err Overflow }
    ensures divisor_first { formula_of (sum (quotient (constant one) (constant zero))
        (product (constant (number 4611686018427387904)) (constant (number 4))))
        ≡ Err ZeroDivisor }
    ensures missing_first { formula_of (sum missing (quotient (constant one) (constant zero)))
        ≡ Ok None }
    ensures missing_last { formula_of (sum (quotient (constant one) (constant zero)) missing)
        ≡ Err ZeroDivisor }
    ensures one_missing { formula_of (sum (constant one) missing) ≡ Ok None }
    ensures net_inflow { formula_value
        (rules_of flow_names (link_key Flow 1 ∷ link_key Flow 2 ∷ link_key Flow 3 ∷ [])
        zero 300 0 [])
        (state_of 0 300 (Some one ∷ Some (number 2) ∷ Some (decimal 7 5) ∷ []) one one) net_inflow
        ≡ Ok (Some (decimal 1 10)) }
{}
