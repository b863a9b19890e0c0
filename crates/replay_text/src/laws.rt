//! Laws of the definitions that the contracts cite: each function is empty, and its contract is the
//! law.
ghost use Rattle.std.specs.Prelude.{◌≡◌, [], None, ℕ, List};
ghost use Rattle.byte_edge.specs.Lines.{LineEvent};
ghost use Rattle.rule_types.specs.declared.row.Row.{Row};
ghost use Rattle.rule_types.specs.declared.rules.Rules.{Rules};
ghost use Rattle.rule_types.specs.Tables.{TableSet};
ghost use Rattle.rule_types.specs.WellFormed.{WellFormed};
ghost use Rattle.rule_meaning.specs.Reading.{Choice};
ghost use Rattle.trace_csv.specs.Columns.{Columns};
ghost use Rattle.replay_meaning.specs.Kept.{Kept, first_kept};
ghost use Rattle.replay_meaning.specs.Standing.{StandsFor};
ghost use Rattle.replay_text.specs.Kept.{goes_on};
ghost use Rattle.replay_text.specs.Replays.{rows_printed};

/// What is printed after some rows is what is printed by what a replay keeps of them, from the
/// first row on.
pub fn printing()
    ensures rows { (choice : Choice) (x : Rules) (tables : TableSet) (header : Columns)
        (lines : List LineEvent) (k : Kept) (rows : List Row) (number : ℕ) → WellFormed x
        → k.stop ≡ None → StandsFor choice x tables k rows
        → rows_printed choice x tables header rows number lines
        ≡ goes_on choice x tables header k number lines }
    ensures first { (choice : Choice) (x : Rules) (tables : TableSet) (header : Columns)
        (lines : List LineEvent) (number : ℕ) → WellFormed x
        → rows_printed choice x tables header [] number lines
        ≡ goes_on choice x tables header (first_kept x) number lines }
{}
