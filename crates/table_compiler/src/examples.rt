//! Worked examples of the definitions, with rows that were worked out by hand. Each function here
//! does nothing: its contract states examples, which the check proves.
#![tactic(auto, unfolding(crate::proofs::ExampleWords::table_words))]

ghost use Rattle.std.specs.Prelude.{◌≡◌, ◌++◌, false, None, Some, [], ◌∷◌, codes, pos};
ghost use Rattle.exact_fraction.specs.Number.{zero, whole};
ghost use Rattle.interval_sets.specs.declared.interval.Bound.TheVariants as end;
ghost use Rattle.rule_types.specs.declared.action.Branch.TheVariants.{Then, Otherwise};
ghost use Rattle.rule_types.specs.declared.condition.Side.TheVariants as side;
ghost use Rattle.rule_types.specs.declared.key.ClockAttr.TheVariants.{ClockTime};
ghost use Rattle.rule_types.specs.declared.key.Key.TheVariants.{Clock};
ghost use Rattle.rule_meaning.specs.Examples.{number, decimal, depth};
ghost use Rattle.rule_meaning.specs.Examples.{first_action, plain_rules, state_of};
ghost use Rattle.object_index.specs.examples.Objects.{network};
ghost use Rattle.table_compiler.specs.declared.part.Part.TheVariants.{Column, Number};
ghost use Rattle.table_compiler.specs.Meaning.{tabled};
ghost use Rattle.table_compiler.specs.Rows.{rows_on, tables_of};
ghost use Rattle.table_compiler.specs.TableText.{line_end, set_text, part_text, table_text};
ghost use Rattle.table_compiler.specs.Examples.{above, up_to, below, between, depth_in, clause};
ghost use Rattle.table_compiler.specs.Examples.{when_row, unless_row, two_pumps, overlapping};
ghost use Rattle.table_compiler.specs.Examples.{met_twice, never_and_more, at_night, against_key};
ghost use Rattle.table_compiler.specs.Examples.{two_pieces, out_of_order, not_met, ranked_rules};
ghost use Rattle.table_compiler.specs.Examples.{twice};

/// Which rows a link has, and in which order.
pub fn rows()
    ensures two_pumps { tables_of two_pumps
        ≡ record {
          link = 0;
          rows =
              when_row 0 Then 0 (clause (depth_in 0 (above 5 ∷ []) ∷ []) ∷ [])
              ∷ when_row 2 Then 0 (clause (depth_in 0 (up_to 3 ∷ []) ∷ []) ∷ []) ∷ [];
        } ∷ record {
          link = 1;
          rows =
              when_row 1 Then 0 (clause (depth_in 0 (above 7 ∷ []) ∷ []) ∷ [])
              ∷ when_row 2 Then 1 (clause (depth_in 0 (up_to 3 ∷ []) ∷ []) ∷ []) ∷ [];
        } ∷ [] }
    ensures overlapping { rows_on overlapping 0
        ≡ when_row 0 Then 0 (clause (depth_in 0 (above 5 ∷ []) ∷ []) ∷ [])
        ∷ when_row 1 Then 0 (clause (depth_in 0 (above 3 ∷ []) ∷ []) ∷ []) ∷ [] }
    ensures by_rank { rows_on ranked_rules 0
        ≡ when_row 1 Then 0 (clause (depth_in 0 (above 2 ∷ []) ∷ []) ∷ [])
        ∷ when_row 2 Then 0 (clause (depth_in 0 (above 3 ∷ []) ∷ []) ∷ [])
        ∷ when_row 0 Then 0 (clause (depth_in 0 (above 1 ∷ []) ∷ []) ∷ []) ∷ [] }
    ensures first_of_branch { rows_on twice 0
        ≡ when_row 0 Then 1 (clause (depth_in 0 (above 1 ∷ []) ∷ []) ∷ []) ∷ [] }
    ensures another_link { rows_on overlapping 1 ≡ [] }
    ensures never { rows_on never_and_more 0 ≡ when_row 0 Otherwise 0 [] ∷ [] }
{}

/// The clauses of rows.
pub fn clauses()
    ensures met { rows_on met_twice 0
        ≡ when_row 0 Then 0 (clause (depth_in 0
        (below 1 ∷ between 2 3 ∷ above 3 ∷ []) ∷ []) ∷ [])
        ∷ unless_row 0 Otherwise 0 (clause (depth_in 0
        (below 1 ∷ between 2 3 ∷ above 3 ∷ []) ∷ []) ∷ []) ∷ [] }
    ensures two_pieces { rows_on two_pieces 0
        ≡ when_row 0 Then 0 (clause (depth_in 0 (between 1 5 ∷ between 5 9 ∷ []) ∷ []) ∷ []) ∷ [] }
    ensures half_step { rows_on at_night 0
        ≡ when_row 0 Then 0 (clause (Number 0 ∷ []) ∷ [])
        ∷ unless_row 0 Otherwise 0 (clause (Number 0 ∷ []) ∷ []) ∷ [] }
    ensures against_key { rows_on against_key 0
        ≡ when_row 0 Then 0 (clause (depth_in 0 (above 2 ∷ []) ∷ Number 1 ∷ []) ∷ []) ∷ [] }
    ensures in_order { rows_on out_of_order 0
        ≡ when_row 0 Then 0 (clause (depth_in 0 (above 1 ∷ [])
        ∷ depth_in 1
        (record { low = end.Bound (whole (pos 2)) false; high = end.NoBound } ∷ [])
        ∷ Column (side.Expr 3) (above 4 ∷ []) ∷ Number 1 ∷ []) ∷ []) ∷ [] }
    ensures not_met { rows_on not_met 0
        ≡ when_row 0 Then 0 (clause (depth_in 0 (above 1 ∷ []) ∷ depth_in 1 (above 2 ∷ []) ∷ [])
        ∷ clause (depth_in 0 (below 5 ∷ []) ∷ []) ∷ []) ∷ [] }
{}

/// What tables order: the first row that holds, and nothing where none does. A missing value is in
/// no set, also not in that of `<>`.
pub fn orders()
    ensures first { tabled (plain_rules (depth 0 ∷ []) overlapping)
        (tables_of (plain_rules (depth 0 ∷ []) overlapping))
        (state_of 0 60 (Some (number 6) ∷ []) zero zero) 0 ≡ Some (first_action 0) }
    ensures second { tabled (plain_rules (depth 0 ∷ []) overlapping)
        (tables_of (plain_rules (depth 0 ∷ []) overlapping))
        (state_of 0 60 (Some (number 4) ∷ []) zero zero) 0 ≡ Some (first_action 1) }
    ensures none { tabled (plain_rules (depth 0 ∷ []) overlapping)
        (tables_of (plain_rules (depth 0 ∷ []) overlapping))
        (state_of 0 60 (Some (number 3) ∷ []) zero zero) 0 ≡ None }
    ensures missing { tabled (plain_rules (depth 0 ∷ []) met_twice)
        (tables_of (plain_rules (depth 0 ∷ []) met_twice))
        (state_of 0 60 (None ∷ []) zero zero) 0
        ≡ Some (record { rule = 0; branch = Otherwise; action = 0 }) }
{}

/// Tables as text.
pub fn texts()
    ensures sets { set_text (below 1 ∷ between 2 3 ∷ up_to 4 ∷ above 3 ∷ [])
        ≡ codes "(-inf,1) (2,3) (-inf,4] (3,+inf)" }
    ensures numbers { set_text (record {
      low = end.Bound (decimal 1 2) false;
      high = end.Bound (decimal 1 3) false;
    } ∷ []) ≡ codes "[0.5,1/3]" }
    ensures condition { part_text two_pumps network (Number 1) ≡ codes "cond 2" }
    ensures clock { part_text two_pumps network
        (Column (side.Key (Clock ClockTime)) (above 5 ∷ []))
        ≡ codes "SIMULATION CLOCKTIME (5,+inf)" }
    ensures whole { table_text two_pumps network (tables_of two_pumps)
        ≡ codes "tables 1" ++ line_end ++ codes "link P1" ++ line_end
        ++ codes "row 1 then 1 when" ++ line_end
        ++ codes "clause NODE J1 DEPTH (5,+inf)" ++ line_end
        ++ codes "row 3 then 1 when" ++ line_end
        ++ codes "clause NODE J1 DEPTH (-inf,3]" ++ line_end
        ++ codes "link p1" ++ line_end
        ++ codes "row 2 then 1 when" ++ line_end
        ++ codes "clause NODE J1 DEPTH (7,+inf)" ++ line_end
        ++ codes "row 3 then 2 when" ++ line_end
        ++ codes "clause NODE J1 DEPTH (-inf,3]" ++ line_end
        ++ codes "end" ++ line_end }
    ensures branches { table_text (plain_rules (depth 0 ∷ []) against_key) network
        (tables_of (plain_rules (depth 0 ∷ []) against_key))
        ≡ codes "tables 1" ++ line_end ++ codes "link P1" ++ line_end
        ++ codes "row 1 then 1 when" ++ line_end
        ++ codes "clause NODE J1 DEPTH (2,+inf) | cond 2" ++ line_end
        ++ codes "end" ++ line_end }
    ensures always { table_text (plain_rules (depth 0 ∷ []) never_and_more) network
        (tables_of (plain_rules (depth 0 ∷ []) never_and_more))
        ≡ codes "tables 1" ++ line_end ++ codes "link P1" ++ line_end
        ++ codes "row 1 else 1 when" ++ line_end ++ codes "end" ++ line_end }
    ensures unless { table_text (plain_rules (depth 0 ∷ []) at_night) network
        (tables_of (plain_rules (depth 0 ∷ []) at_night))
        ≡ codes "tables 1" ++ line_end ++ codes "link P1" ++ line_end
        ++ codes "row 1 then 1 when" ++ line_end ++ codes "clause cond 1" ++ line_end
        ++ codes "row 1 else 1 unless" ++ line_end ++ codes "clause cond 1" ++ line_end
        ++ codes "end" ++ line_end }
{}
