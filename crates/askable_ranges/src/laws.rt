//! The law of ranges that were read from a file. The function here does nothing: its contract
//! states laws for the proofs of the crates above.
ghost use Rattle.std.specs.Prelude.{◌≡◌, List, Ok, All};
ghost use Rattle.inp_text.specs.Sections.{Line};
ghost use Rattle.object_index.specs.Objects.{Objects};
ghost use Rattle.rule_types.specs.WellFormed.{WellFormed};
ghost use Rattle.rule_types.specs.declared.rules.Rules.{Rules};
ghost use Rattle.verdict_meaning.specs.declared.question.Question.{Question};
ghost use Rattle.verdict_meaning.specs.declared.ranges.Ranges.{Ranges};
ghost use Rattle.verdict_meaning.specs.FitRanges.{RangesFit, prepared_rules};
ghost use Rattle.range_lines.specs.Lines.{ranges_in};
ghost use Rattle.grid_samples.specs.Cells.{HasClosedRanges, TracksLimit};
ghost use Rattle.cell_truths.specs.DecidedTruths.{GivesMoments};

/// The ranges that a file gives for well formed rules are closed, with settings and timers that are
/// at least 0. They fit the rules, the link of each limit that is asked of them is tracked, and they
/// have moments where a question's rules read the clock or a series; and all of this holds for the
/// prepared rules too.
pub fn read_ranges()
    ensures closed { (x : Rules) (objects : Objects) (file : List Line) (ranges : Ranges)
        → WellFormed x → ranges_in x objects file ≡ Ok ranges → HasClosedRanges ranges }
    ensures tracked { (x : Rules) (objects : Objects) (file : List Line) (ranges : Ranges)
        → WellFormed x → ranges_in x objects file ≡ Ok ranges
        → All (TracksLimit x) ranges.questions }
    ensures prepared_tracked { (x : Rules) (objects : Objects) (file : List Line)
        (ranges : Ranges) → WellFormed x → ranges_in x objects file ≡ Ok ranges
        → All (TracksLimit (prepared_rules x ranges)) ranges.questions }
    ensures fit { (x : Rules) (objects : Objects) (file : List Line) (ranges : Ranges)
        → WellFormed x → ranges_in x objects file ≡ Ok ranges → RangesFit x ranges }
    ensures prepared_fit { (x : Rules) (objects : Objects) (file : List Line) (ranges : Ranges)
        → WellFormed x → ranges_in x objects file ≡ Ok ranges
        → RangesFit (prepared_rules x ranges) ranges }
    ensures moments { (x : Rules) (objects : Objects) (file : List Line) (ranges : Ranges)
        (question : Question) → ranges_in x objects file ≡ Ok ranges
        → GivesMoments x question ranges }
    ensures prepared_moments { (x : Rules) (objects : Objects) (file : List Line)
        (ranges : Ranges) (question : Question) → ranges_in x objects file ≡ Ok ranges
        → GivesMoments (prepared_rules x ranges) question ranges }
{}
