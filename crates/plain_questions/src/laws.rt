//! Laws of plain questions, whose conditions compare keys with numbers alone. Each function here
//! does nothing: its contract states laws for the proofs of the crates above.
//!
//! What the laws ask for is what other clauses give. Of ranges that were read from a file, law
//! `read_ranges` of askable_ranges gives `HasClosedRanges` (clauses `closed`), `GivesMoments`
//! (`moments` and `prepared_moments`) and `TracksLimit` of each question of the file (`tracked` and
//! `prepared_tracked`). That the cells are few is clause `few` of `grid_cuts::grid_of`, and else
//! its clause `end` gives their count. That an answer is a verdict is clause `verdict` of
//! `verdict_search::decide`.
ghost use Rattle.std.specs.Prelude.{◌≡◌, ◌≤◌, ℕ, true, false, not, None, Some, slice_get};
ghost use Rattle.exact_fraction.specs.Number.{Rational};
ghost use Rattle.rule_types.specs.declared.action.PidMemory.{PidMemory};
ghost use Rattle.rule_types.specs.declared.rules.Rules.{Rules};
ghost use Rattle.rule_types.specs.declared.state.State.{State};
ghost use Rattle.rule_types.specs.Tables.{HoldsTables, TableSet};
ghost use Rattle.rule_types.specs.WellFormed.{WellFormed};
ghost use Rattle.verdict_meaning.specs.declared.cell.Cell.{Cell};
ghost use Rattle.verdict_meaning.specs.declared.question.Question.{Question};
ghost use Rattle.verdict_meaning.specs.declared.question.Question.TheVariants.{Limit};
ghost use Rattle.verdict_meaning.specs.declared.ranges.Ranges.{Ranges};
ghost use Rattle.verdict_meaning.specs.declared.verdict.Stuck.{Stuck};
ghost use Rattle.verdict_meaning.specs.declared.verdict.Stuck.TheVariants as stuck;
ghost use Rattle.verdict_meaning.specs.declared.verdict.Verdict.TheVariants as verdict;
ghost use Rattle.verdict_meaning.specs.Events.{has_event};
ghost use Rattle.verdict_meaning.specs.Grids.{cell_count, grid_cells, sample_of};
ghost use Rattle.verdict_meaning.specs.Shown.{shown};
ghost use Rattle.verdict_meaning.specs.Verdicts.{IsVerdict, is_plain_question, most_cells};
ghost use Rattle.decided_events.specs.DecidedLimits.{IsLimitDecided};
ghost use Rattle.grid_samples.specs.Cells.{HasClosedRanges, TracksLimit};
ghost use Rattle.cell_truths.specs.DecidedTruths.{GivesMoments};
ghost use Rattle.plain_questions.specs.SampledGrids.{HasSamples};

/// A cell of a limit's grid decides at its sample whether the setting of the limit's link lies
/// within the limit: the grid cuts the setting at both numbers of the limit.
pub fn limits()
    ensures decided { (x : Rules) (ranges : Ranges) (cell : Cell) (k : ℕ) (s : State) (link : ℕ)
        (lo hi : Rational) → WellFormed x → HasClosedRanges ranges
        → TracksLimit x (Limit link lo hi)
        → slice_get (grid_cells x (Limit link lo hi) ranges) k ≡ Some cell
        → sample_of x cell ≡ Some s → IsLimitDecided x cell s link lo hi }
{}

/// At a cell of a plain question that is not shown, the sample has the question's event, whatever
/// PID actions keep. So a cell that has a sample is shown exactly where the sample does not have
/// the event.
pub fn events()
    ensures open { (x : Rules) (tables : TableSet) (memory : ℕ → PidMemory) (question : Question)
        (ranges : Ranges) (cell : Cell) (k : ℕ) (s : State) → WellFormed x
        → HasClosedRanges ranges → GivesMoments x question ranges
        → is_plain_question x question ≡ true
        → slice_get (grid_cells x question ranges) k ≡ Some cell → sample_of x cell ≡ Some s
        → shown x tables question cell ≡ false → has_event x tables memory s question ≡ true }
    ensures exact { (x : Rules) (tables : TableSet) (memory : ℕ → PidMemory) (question : Question)
        (ranges : Ranges) (cell : Cell) (k : ℕ) (s : State) → WellFormed x
        → HoldsTables tables x.rules → HasClosedRanges ranges → GivesMoments x question ranges
        → TracksLimit x question → is_plain_question x question ≡ true
        → slice_get (grid_cells x question ranges) k ≡ Some cell → sample_of x cell ≡ Some s
        → shown x tables question cell ≡ not (has_event x tables memory s question) }
{}

/// Where a plain question is Undecided with a cell, the cell has no sample. So it is not Undecided
/// where the cells are not too many and each has a sample.
pub fn verdicts()
    ensures open_cell { (x : Rules) (tables : TableSet) (ranges : Ranges) (question : Question)
        (cell : Cell) → WellFormed x → HasClosedRanges ranges → GivesMoments x question ranges
        → is_plain_question x question ≡ true
        → IsVerdict x tables ranges question (verdict.Undecided (stuck.Cell cell))
        → sample_of x cell ≡ None }
    ensures decided { (x : Rules) (tables : TableSet) (ranges : Ranges) (question : Question)
        (why : Stuck) → WellFormed x → HasClosedRanges ranges → GivesMoments x question ranges
        → is_plain_question x question ≡ true → cell_count x question ranges ≤ most_cells
        → HasSamples x question ranges
        → IsVerdict x tables ranges question (verdict.Undecided why) → ⊥ }
{}
