//! Worked examples of the definitions. Each function here does nothing: its contract states
//! examples, which the check proves.
ghost use Rattle.std.specs.Prelude.{◌≡◌, ◌++◌, [], ◌∷◌, codes, pos, Some, None, Ok, Err};
ghost use Rattle.exact_fraction.specs.Number.{zero};
ghost use Rattle.num_text.specs.declared.error.NumberFault.TheVariants as number;
ghost use Rattle.trace_csv.specs.Causes.{fault_text};
ghost use Rattle.trace_csv.specs.Columns.{column_key, column_input, header_in, header_of};
ghost use Rattle.trace_csv.specs.Fields.{trimmed, field_input};
ghost use Rattle.trace_csv.specs.Records.{record_of, double_quote, carriage_return};
ghost use Rattle.trace_csv.specs.Rows.{row_in, row_of};
ghost use Rattle.trace_csv.specs.declared.fault.TraceCause.TheVariants as cause;
ghost use Rattle.trace_csv.specs.examples.Network.{small_network, depth_key, flow_key, both_keys};
ghost use Rattle.trace_csv.specs.examples.Network.{flow_and_depth, row_fields};

/// The records of some lines: blanks are kept, a quote counts only as the first byte of a field, CR
/// ends the record but in quotes, and a byte order mark is dropped.
#[tactic(auto, unfolding(crate::specs::Records::record_of, csv::specs::Machine::next_record, csv::specs::Reading::strip_bom))]
pub fn records()
    ensures fields { record_of (codes "a, b,") ≡ Some (codes "a" ∷ codes " b" ∷ [] ∷ []) }
    ensures empty { record_of [] ≡ None }
    ensures blanks { record_of (codes "  ") ≡ Some (codes "  " ∷ []) }
    ensures quoted { record_of (double_quote ∷ codes "a,b" ++ double_quote ∷ codes ",c")
        ≡ Some (codes "a,b" ∷ codes "c" ∷ []) }
    ensures doubled { record_of (double_quote ∷ double_quote ∷ double_quote ∷ codes "a"
        ++ double_quote ∷ []) ≡ Some ((double_quote ∷ codes "a") ∷ []) }
    ensures unclosed { record_of (double_quote ∷ codes "a,b") ≡ Some (codes "a,b" ∷ []) }
    ensures inner { record_of (codes "a" ++ double_quote ∷ codes ",b")
        ≡ Some ((codes "a" ++ double_quote ∷ []) ∷ codes "b" ∷ []) }
    ensures return_inside { record_of (codes "a,b" ++ carriage_return ∷ codes "c,d")
        ≡ Some (codes "a" ∷ codes "b" ∷ []) }
    ensures return_first { record_of (carriage_return ∷ codes "a") ≡ Some (codes "a" ∷ []) }
    ensures return_alone { record_of (carriage_return ∷ []) ≡ None }
    ensures return_quoted { record_of (double_quote ∷ carriage_return ∷ double_quote ∷ [])
        ≡ Some ((carriage_return ∷ []) ∷ []) }
    ensures marked { record_of (239 ∷ 187 ∷ 191 ∷ codes "a,b")
        ≡ Some (codes "a" ∷ codes "b" ∷ []) }
    ensures mark_alone { record_of (239 ∷ 187 ∷ 191 ∷ []) ≡ None }
{}

/// What some fields say: blanks round them are dropped, and an empty field is a missing input.
#[tactic(auto, unfolding(crate::specs::Fields::without_end_blanks, crate::specs::Fields::field_input, num_text::specs::Fields::leading_digits, num_text::specs::Fields::past_digits, num_text::specs::Fields::field, num_text::specs::Numbers::spelling_of, num_text::specs::Numbers::spelled, num_text::specs::Numbers::bounded, num_text::specs::Numbers::scaled, num_text::specs::Numbers::without_end_zeros, exact_fraction::specs::Number::ratio, exact_fraction::specs::Number::gcd, exact_fraction::specs::Number::last_remainder, exact_fraction::specs::Number::cancelled, exact_fraction::specs::Number::den, exact_fraction::specs::Number::whole, exact_fraction::specs::Number::fits))]
pub fn fields()
    ensures round { trimmed (codes "  4 5 ") ≡ codes "4 5" }
    ensures tab { trimmed (9 ∷ codes "4") ≡ codes "4" }
    ensures blanks { trimmed (codes "   ") ≡ [] }
    ensures missing { field_input (codes " ") ≡ Ok None }
    ensures half { field_input (codes " 2.5 ")
        ≡ Ok (Some (record { num = pos 5; below = 1 })) }
    ensures nothing { field_input (codes "0") ≡ Ok (Some zero) }
    ensures word { field_input (codes "x") ≡ Err number.BadNumber }
    ensures two { field_input (codes "1 2") ≡ Err number.BadNumber }
    ensures large { field_input (codes "9223372036854775808") ≡ Err number.TooLarge }
{}

/// The keys that some columns name, by the items of their names.
#[tactic(auto, unfolding(crate::specs::Columns::column_key, crate::specs::Columns::key_at, crate::specs::Columns::column_input, key_words::specs::Words::object_word, key_words::specs::Words::attribute_named, key_words::specs::Words::plain_attribute, key_words::specs::Words::hour_depth, num_text::specs::Counts::count_of, num_text::specs::Fields::leading_digits, num_text::specs::Fields::past_digits))]
pub fn columns()
    ensures depth { column_key small_network (codes "NODE N1 DEPTH") ≡ Some depth_key }
    ensures any_case { column_key small_network (codes "  node n1  depth ") ≡ Some depth_key }
    ensures comment { column_key small_network (codes "NODE N1 DEPTH ; m") ≡ Some depth_key }
    ensures pump { column_key small_network (codes "PUMP P1 FLOW") ≡ Some flow_key }
    ensures link { column_key small_network (codes "LINK P1 FLOW") ≡ Some flow_key }
    ensures other_kind { column_key small_network (codes "WEIR P1 FLOW") ≡ None }
    ensures no_object { column_key small_network (codes "NODE N2 DEPTH") ≡ None }
    ensures no_attribute { column_key small_network (codes "NODE N1 FLOW") ≡ None }
    ensures four_items { column_key small_network (codes "NODE N1 DEPTH m") ≡ None }
    ensures clock { column_key small_network (codes "SIMULATION TIME") ≡ None }
    ensures second { column_input both_keys small_network (codes "PUMP P1 FLOW") ≡ Some 1 }
    ensures unread { column_input both_keys small_network (codes "NODE N1 HEAD") ≡ None }
    ensures setting { column_input both_keys small_network (codes "PUMP P1 SETTING") ≡ None }
{}

/// Headers, and the first fault of some.
#[tactic(auto, unfolding(crate::specs::Columns::header_in, crate::specs::Columns::header_of, crate::specs::Records::record_of, csv::specs::Machine::next_record, csv::specs::Reading::strip_bom, crate::specs::Fields::without_end_blanks, crate::specs::Columns::column_key, crate::specs::Columns::key_at, crate::specs::Columns::column_input, key_words::specs::Words::object_word, key_words::specs::Words::attribute_named, key_words::specs::Words::plain_attribute, key_words::specs::Words::hour_depth, num_text::specs::Counts::count_of, num_text::specs::Fields::leading_digits, num_text::specs::Fields::past_digits))]
pub fn headers()
    ensures read { header_of both_keys small_network
        (codes "moment,PUMP P1 FLOW,x,NODE N1 DEPTH") ≡ Ok (Some flow_and_depth) }
    ensures no_record { header_of both_keys small_network [] ≡ Ok None }
    ensures no_keys { header_of [] small_network (codes " Moment ")
        ≡ Ok (Some (record { columns = []; inputs = 0 })) }
    ensures no_moment { header_of both_keys small_network (codes "time") ≡ Err cause.BadHeader }
    ensures moment_first { header_in (depth_key ∷ []) small_network
        (codes "time" ∷ codes "NODE N1 DEPTH" ∷ codes "NODE N1 DEPTH" ∷ [])
        ≡ Err cause.BadHeader }
    ensures missing { header_in both_keys small_network
        (codes "moment" ∷ codes "NODE N1 DEPTH" ∷ []) ≡ Err cause.MissingColumn }
    ensures twice { header_in (depth_key ∷ []) small_network
        (codes "moment" ∷ codes "NODE N1 DEPTH" ∷ codes "node n1 depth" ∷ [])
        ≡ Err cause.DuplicateColumn }
    ensures twice_first { header_in both_keys small_network
        (codes "moment" ∷ codes "LINK P1 FLOW" ∷ codes "PUMP P1 FLOW" ∷ [])
        ≡ Err cause.DuplicateColumn }
    ensures unread_twice { header_in (depth_key ∷ []) small_network
        (codes "moment" ∷ codes "LINK P1 FLOW" ∷ codes "LINK P1 FLOW" ∷ codes "NODE N1 DEPTH" ∷ [])
        ≡ Ok (record { columns = None ∷ None ∷ Some 0 ∷ []; inputs = 1 }) }
{}

/// Rows at 2001-06-15T00:00:00, which is second 992,563,200, and the first fault of some.
pub fn rows()
    ensures read { row_in flow_and_depth None None (row_fields (codes "6") (codes "x") (codes " "))
        ≡ Ok (record {
          moment = pos 992_563_200;
          inputs = None ∷ Some (record { num = pos 6; below = 0 }) ∷ [];
        }) }
    ensures at_start { row_in flow_and_depth None (Some (pos 992_563_200))
        (row_fields [] [] [])
        ≡ Ok (record { moment = pos 992_563_200; inputs = None ∷ None ∷ [] }) }
    ensures early { row_in flow_and_depth None (Some (pos 992_563_201))
        (row_fields (codes "x") [] []) ≡ Err cause.BeforeStart }
    ensures later_row { row_in flow_and_depth (Some (pos 992_563_199)) (Some (pos 992_563_201))
        (row_fields [] [] [])
        ≡ Ok (record { moment = pos 992_563_200; inputs = None ∷ None ∷ [] }) }
    ensures same_moment { row_in flow_and_depth (Some (pos 992_563_200)) None
        (row_fields (codes "x") [] []) ≡ Err cause.NotLater }
    ensures bad_number { row_in flow_and_depth None None (row_fields (codes "x") [] [])
        ≡ Err cause.BadNumber }
    ensures few_fields { row_in flow_and_depth None None (codes "x" ∷ [] ∷ [] ∷ [])
        ≡ Err cause.FieldCount }
    ensures many_fields { row_in flow_and_depth None None
        (codes "x" ∷ [] ∷ [] ∷ [] ∷ [] ∷ []) ≡ Err cause.FieldCount }
    ensures no_moment { row_in flow_and_depth None None
        (codes "2001-06-15" ∷ codes "x" ∷ [] ∷ [] ∷ []) ≡ Err cause.BadMoment }
    ensures no_record { row_of flow_and_depth None None (carriage_return ∷ []) ≡ Ok None }
{}

/// The report of a fault.
pub fn reports()
    ensures count { fault_text 3 cause.FieldCount ≡ codes "error: trace line 3: FieldCount (5)" }
    ensures none { fault_text 0 cause.NoHeader ≡ codes "error: trace line 0: NoHeader (1)" }
    ensures long { fault_text 12 cause.LineTooLong
        ≡ codes "error: trace line 12: LineTooLong (10)" }
{}
