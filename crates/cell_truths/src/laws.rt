//! Laws of plain questions and of the cells of their grids. Each function here does nothing: its
//! contract states laws for the proofs of the crates above.
ghost use Rattle.std.specs.Prelude.{◌≡◌, ℕ, true, Some, None, slice_get};
ghost use Rattle.exact_fraction.specs.Number.{Rational};
ghost use Rattle.interval_sets.specs.Cuts.{IsRising};
ghost use Rattle.interval_sets.specs.declared.interval.Interval.{Interval};
ghost use Rattle.rule_types.specs.WellFormed.{WellFormed};
ghost use Rattle.rule_types.specs.declared.key.Key.{Key};
ghost use Rattle.rule_types.specs.declared.rule.Rule.{Rule};
ghost use Rattle.rule_types.specs.declared.rules.Rules.{Rules};
ghost use Rattle.rule_types.specs.declared.state.State.{State};
ghost use Rattle.rule_meaning.specs.Formula.{names_stop_for};
ghost use Rattle.rule_meaning.specs.Premise.{premise_holds};
ghost use Rattle.verdict_meaning.specs.declared.cell.Cell.{Cell};
ghost use Rattle.verdict_meaning.specs.declared.question.Question.{Question};
ghost use Rattle.verdict_meaning.specs.declared.question.Question.TheVariants.{Limit};
ghost use Rattle.verdict_meaning.specs.declared.ranges.Ranges.{Ranges};
ghost use Rattle.verdict_meaning.specs.Boxes.{IsStateIn};
ghost use Rattle.verdict_meaning.specs.Grids.{cuts_of, grid_cells, sample_of};
ghost use Rattle.verdict_meaning.specs.Premises.{rule_truth};
ghost use Rattle.verdict_meaning.specs.Questions.{asked_rules, is_asked};
ghost use Rattle.verdict_meaning.specs.Verdicts.{is_plain_question};
ghost use Rattle.grid_samples.specs.Cells.{HasClosedRanges, TracksLimit};
ghost use Rattle.cell_truths.specs.DecidedTruths.{GivesMoments, truth_of};
ghost use Rattle.cell_truths.specs.UncutPieces.{HasUncutSetting};

/// At a plain question no name stops, whatever the state.
pub fn questions()
    ensures no_stop { (x : Rules) (question : Question) (s : State)
        → is_plain_question x question ≡ true
        → names_stop_for x (asked_rules x question) s ≡ None }
{}

/// At a cell of a plain question what is known of the premise of each of its rules is decided: it
/// is Yes where the premise holds at the cell's sample, and else No. The sample lies in its cell.
pub fn cells()
    ensures decided { (x : Rules) (question : Question) (ranges : Ranges) (cell : Cell)
        (k : ℕ) (s : State) (number : ℕ) (rule : Rule) → WellFormed x → HasClosedRanges ranges
        → GivesMoments x question ranges → is_plain_question x question ≡ true
        → slice_get (grid_cells x question ranges) k ≡ Some cell → sample_of x cell ≡ Some s
        → slice_get x.rules number ≡ Some rule → is_asked x question number ≡ true
        → rule_truth x cell number ≡ truth_of (premise_holds x s rule) }
    ensures inside { (x : Rules) (question : Question) (ranges : Ranges) (cell : Cell)
        (k : ℕ) (s : State) → WellFormed x → HasClosedRanges ranges → TracksLimit x question
        → slice_get (grid_cells x question ranges) k ≡ Some cell → sample_of x cell ≡ Some s
        → IsStateIn x cell s }
{}

/// The cuts of a key in its range rise. A cell of the grid of a limit has a piece of the setting of
/// the limit's link, and neither number of the limit cuts it.
pub fn pieces()
    ensures rising { (x : Rules) (question : Question) (key : Key) (range : Interval)
        → IsRising (cuts_of x question key range) }
    ensures limit { (x : Rules) (link : ℕ) (lo hi : Rational) (ranges : Ranges) (cell : Cell)
        (k : ℕ) → HasClosedRanges ranges
        → slice_get (grid_cells x (Limit link lo hi) ranges) k ≡ Some cell
        → HasUncutSetting cell link lo hi }
{}
