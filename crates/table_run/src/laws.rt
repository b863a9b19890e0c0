//! Laws of readings by tables. Each function here does nothing: its contract states laws, for the
//! proofs of the crates above.
ghost use Rattle.std.specs.Prelude.{◌≡◌, List};
ghost use Rattle.rule_types.specs.declared.rules.Rules.{Rules};
ghost use Rattle.rule_types.specs.WellFormed.{WellFormed};
ghost use Rattle.rule_meaning.specs.Reading.{settling, ActsOnLinks};
ghost use Rattle.table_compiler.specs.Meaning.{tabled, TablesFit};
ghost use Rattle.table_compiler.specs.declared.table.LinkTable.{LinkTable};
ghost use Rattle.table_compiler.specs.Rows.{tables_of};
ghost use Rattle.table_run.specs.Sides.{ServesRules};

/// The tables of rules serve them, and by these tables each link takes the pair that is settled for
/// it (SWMM 5.2 manual, [CONTROLS], PRIORITY).
pub fn compiled()
    ensures serve { (x : Rules) → ServesRules x (tables_of x) }
    ensures settle { (x : Rules) → WellFormed x → tabled x (tables_of x) ≡ settling x }
{}

/// By tables whose rows fit, each link takes pairs that act on it.
pub fn fitting()
    ensures acts { (x : Rules) (tables : List LinkTable) → TablesFit x tables
        → ActsOnLinks x (tabled x tables) }
{}
