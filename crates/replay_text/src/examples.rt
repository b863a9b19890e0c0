//! Worked examples of the definitions. Each function here does nothing: its contract states
//! examples, which the check proves.
ghost use Rattle.std.specs.Prelude.{◌≡◌, ◌++◌, [], ◌∷◌, codes, pos, negsuc, None, Some};
ghost use Rattle.byte_edge.specs.Lines.{Whole, OverLong, PastBudget};
ghost use Rattle.exact_fraction.specs.Number.{zero, one};
ghost use Rattle.rule_types.specs.declared.action.Branch.TheVariants.{Otherwise};
ghost use Rattle.rule_types.specs.declared.stop.StopCause.TheVariants as stop;
ghost use Rattle.rule_types.specs.declared.stop.StopPlace.TheVariants as place;
ghost use Rattle.rule_types.specs.Examples.{well, above};
ghost use Rattle.trace_csv.specs.Records.{double_quote, line_feed, carriage_return};
ghost use Rattle.trace_csv.specs.declared.fault.TraceCause.TheVariants as cause;
ghost use Rattle.replay_text.specs.Ends.{Finished, Faulty, Stopped, Overrun, end_text};
ghost use Rattle.replay_text.specs.Lines.{written_name, header_line, row_line};
ghost use Rattle.replay_text.specs.Replays.{ends, replay_text};
ghost use Rattle.replay_text.specs.examples.Station.{no_tables, two_pumps, acting_on};
ghost use Rattle.replay_text.specs.examples.Station.{the_header, the_row};

/// Names as fields, a header and the line of a row.
pub fn lines()
    ensures plain { written_name (codes "P1") ≡ codes "P1" }
    ensures comma { written_name (codes "P,2") ≡ double_quote ∷ codes "P,2" ++ double_quote ∷ [] }
    ensures quote { written_name (double_quote ∷ codes "a")
        ≡ double_quote ∷ double_quote ∷ double_quote ∷ codes "a" ++ double_quote ∷ [] }
    ensures header { header_line (acting_on (0 ∷ 1 ∷ [])) two_pumps
        ≡ codes "moment,P1," ++ double_quote ∷ codes "P,2" ++ double_quote ∷ line_feed ∷ [] }
    ensures row { row_line (pos 992_563_200)
        (one ∷ record { num = pos 1; below = 1 } ∷ record { num = negsuc 0; below = 2 } ∷ [])
        ≡ codes "2001-06-15T00:00:00,1,0.5,-1/3" ++ line_feed ∷ [] }
{}

/// What is said of some ends.
pub fn reports()
    ensures finished { end_text [] Finished ≡ None }
    ensures fault { end_text [] (Faulty 3 cause.NotLater)
        ≡ Some (codes "error: trace line 3: NotLater (7)") }
    ensures name { end_text (well ∷ above ∷ [])
        (Stopped 2 (record { place = place.Name 1; cause = stop.ZeroDivisor }))
        ≡ Some (codes "error: trace line 2: ZeroDivisor in name Above") }
    ensures rule { end_text [] (Stopped 12 (record {
      place = place.Action (record { rule = 0; branch = Otherwise; action = 2 });
      cause = stop.Overflow;
    })) ≡ Some (codes "error: trace line 12: Overflow in rule 1 else 3") }
    ensures past_budget { end_text [] Overrun ≡ Some (codes "error: trace too long") }
{}

/// Traces without a row: the first record is the header, lines without a record are skipped, and
/// the first faulty line ends the text.
#[tactic(auto, unfolding(crate::specs::Lines::header_line, trace_csv::specs::Columns::header_of, trace_csv::specs::Columns::header_in, trace_csv::specs::Rows::row_of, trace_csv::specs::Rows::row_in, trace_csv::specs::Records::record_of, trace_csv::specs::Fields::without_end_blanks, csv::specs::Machine::next_record, csv::specs::Reading::strip_bom))]
pub fn headers()
    ensures empty { replay_text (acting_on []) no_tables two_pumps []
        ≡ ends (Faulty 0 cause.NoHeader) }
    ensures no_record { replay_text (acting_on []) no_tables two_pumps
        (Whole [] ∷ Whole (carriage_return ∷ []) ∷ []) ≡ ends (Faulty 0 cause.NoHeader) }
    ensures bad { replay_text (acting_on []) no_tables two_pumps
        (Whole [] ∷ Whole (codes "time") ∷ the_header ∷ []) ≡ ends (Faulty 2 cause.BadHeader) }
    ensures long { replay_text (acting_on []) no_tables two_pumps (OverLong ∷ the_header ∷ [])
        ≡ ends (Faulty 1 cause.LineTooLong) }
    ensures past_budget { replay_text (acting_on []) no_tables two_pumps (PastBudget ∷ [])
        ≡ ends Overrun }
    ensures alone { replay_text (acting_on []) no_tables two_pumps (the_header ∷ [])
        ≡ record { text = codes "moment" ++ line_feed ∷ []; end = Finished } }
    ensures many_fields { replay_text (acting_on []) no_tables two_pumps
        (the_header ∷ Whole [] ∷ Whole (codes "x,y") ∷ [])
        ≡ record { text = codes "moment" ++ line_feed ∷ []; end = Faulty 3 cause.FieldCount } }
    ensures long_row { replay_text (acting_on []) no_tables two_pumps (the_header ∷ OverLong ∷ [])
        ≡ record { text = codes "moment" ++ line_feed ∷ []; end = Faulty 2 cause.LineTooLong } }
{}

/// Traces with a row, where no rule acts: the row is printed, and a second one with its moment is
/// faulty.
pub fn rows()
    ensures one { replay_text (acting_on []) no_tables two_pumps (the_header ∷ the_row ∷ [])
        ≡ record {
          text = codes "moment" ++ line_feed ∷ codes "2001-06-15T00:00:00" ++ line_feed ∷ [];
          end = Finished;
        } }
    ensures same_moment { replay_text (acting_on []) no_tables two_pumps
        (the_header ∷ the_row ∷ the_row ∷ the_header ∷ []) ≡ record {
          text = codes "moment" ++ line_feed ∷ codes "2001-06-15T00:00:00" ++ line_feed ∷ [];
          end = Faulty 3 cause.NotLater;
        } }
{}
