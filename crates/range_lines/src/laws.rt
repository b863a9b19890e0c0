//! Laws of ranges that were read, and of rules that are prepared for them. Each function here does
//! nothing: its contract states laws for the proofs of the crates above.
ghost use Rattle.std.specs.Prelude.{◌≡◌, List, Ok};
ghost use Rattle.inp_text.specs.Sections.{Line};
ghost use Rattle.object_index.specs.Objects.{Objects};
ghost use Rattle.rule_types.specs.Tables.{HoldsTables, TableSet};
ghost use Rattle.rule_types.specs.WellFormed.{WellFormed};
ghost use Rattle.rule_types.specs.declared.rules.Rules.{Rules};
ghost use Rattle.verdict_meaning.specs.FitRanges.{RangesFit, prepared_rules};
ghost use Rattle.verdict_meaning.specs.declared.ranges.Ranges.{Ranges};
ghost use Rattle.range_lines.specs.Lines.{ranges_in};

/// The ranges that a file gives for well formed rules fit them.
pub fn ranges_files()
    ensures fit { (x : Rules) (objects : Objects) (lines : List Line) (ranges : Ranges)
        → WellFormed x → ranges_in x objects lines ≡ Ok ranges → RangesFit x ranges }
{}

/// Well formed rules stay so when they are prepared for ranges that fit them, and tables that hold
/// what they name still do.
pub fn prepared()
    ensures well_formed { (x : Rules) (ranges : Ranges) → WellFormed x → RangesFit x ranges
        → WellFormed (prepared_rules x ranges) }
    ensures tables { (x : Rules) (tables : TableSet) (ranges : Ranges) → HoldsTables tables x.rules
        → HoldsTables tables (prepared_rules x ranges).rules }
{}
