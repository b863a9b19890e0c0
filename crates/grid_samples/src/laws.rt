//! The laws of samples. The functions here do nothing: their contracts state laws for the proofs of
//! the crates above.
ghost use Rattle.std.specs.Prelude.{◌≡◌, ℕ, Some, IfSome, All, Contains};
ghost use Rattle.exact_fraction.specs.Number.{Rational};
ghost use Rattle.rule_types.specs.Fitting.{FitsRules};
ghost use Rattle.rule_types.specs.Reading.{links_acted};
ghost use Rattle.rule_types.specs.WellFormed.{WellFormed};
ghost use Rattle.rule_types.specs.declared.rules.Rules.{Rules};
ghost use Rattle.rule_types.specs.declared.state.State.{State};
ghost use Rattle.verdict_meaning.specs.declared.cell.Cell.{Cell};
ghost use Rattle.verdict_meaning.specs.declared.question.Question.{Question};
ghost use Rattle.verdict_meaning.specs.declared.question.Question.TheVariants.{Limit};
ghost use Rattle.verdict_meaning.specs.declared.ranges.Ranges.{Ranges};
ghost use Rattle.verdict_meaning.specs.Boxes.{IsInRanges, IsStateIn, first_box};
ghost use Rattle.verdict_meaning.specs.Grids.{grid_cells, sample_memory, sample_of};
ghost use Rattle.verdict_meaning.specs.Verdicts.{samples};
ghost use Rattle.grid_samples.specs.Cells.{HasClosedRanges, HasGridKeys, HasPieces, IsGridCell};
ghost use Rattle.grid_samples.specs.Cells.{TracksLimit};
ghost use Rattle.grid_samples.specs.Covers.{Covers};

/// The sample of a cell with pieces of a grid fits the rules. Where the cell has the keys of a
/// question's grid, the sample lies in every box that covers the cell, and where the first box of
/// the question covers it, the sample is one of the states of the ranges.
pub fn samples()
    ensures fits { (x : Rules) (cell : Cell) → WellFormed x → HasPieces cell
        → IfSome (sample_of x cell) (FitsRules x) }
    ensures in_boxes { (x : Rules) (question : Question) (box cell : Cell) (s : State)
        → WellFormed x → TracksLimit x question → HasGridKeys x question cell → HasPieces cell
        → Covers box cell → sample_of x cell ≡ Some s → IsStateIn x box s }
    ensures in_ranges { (x : Rules) (question : Question) (ranges : Ranges) (cell : Cell)
        (s : State) → WellFormed x → TracksLimit x question → HasPieces cell
        → Covers (first_box x question ranges) cell → sample_of x cell ≡ Some s
        → IsInRanges x question ranges sample_memory s }
{}

/// The cells of a question's grid over closed ranges have the grid's keys and pieces, and the first
/// box covers them. So each sample of the grid is one of the states of the ranges.
pub fn grids()
    ensures cells { (x : Rules) (question : Question) (ranges : Ranges) → HasClosedRanges ranges
        → All (IsGridCell x question (first_box x question ranges))
        (grid_cells x question ranges) }
    ensures states { (x : Rules) (question : Question) (ranges : Ranges) → WellFormed x
        → TracksLimit x question → HasClosedRanges ranges
        → All (IsInRanges x question ranges sample_memory) (samples x question ranges) }
{}

/// The link of a limit is tracked where some action acts on it.
pub fn limits()
    ensures tracked { (x : Rules) (link : ℕ) (lo hi : Rational) → WellFormed x
        → Contains (links_acted x.rules) link → TracksLimit x (Limit link lo hi) }
{}
