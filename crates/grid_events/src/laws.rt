//! Laws of the cells of blocks and of their samples. Each function here does nothing: its contract
//! states laws for the proofs of the crates above.
ghost use Rattle.std.specs.Prelude.{◌≡◌, ℕ, Bool, true, Some, None, List, All};
ghost use Rattle.std.specs.List.{find};
ghost use Rattle.rule_types.specs.declared.rules.Rules.{Rules};
ghost use Rattle.rule_types.specs.declared.state.State.{State};
ghost use Rattle.rule_types.specs.Tables.{HoldsTables, TableSet};
ghost use Rattle.rule_types.specs.WellFormed.{WellFormed};
ghost use Rattle.block_search.specs.declared.span.Span.{Span};
ghost use Rattle.block_search.specs.Blocks.{IsWithin, block_of, cells, whole_block};
ghost use Rattle.verdict_meaning.specs.declared.question.Question.{Question};
ghost use Rattle.verdict_meaning.specs.declared.ranges.Ranges.{Ranges};
ghost use Rattle.verdict_meaning.specs.Boxes.{IsInRanges, IsStateIn, first_box};
ghost use Rattle.verdict_meaning.specs.Events.{has_event};
ghost use Rattle.verdict_meaning.specs.Grids.{sample_memory, sample_of};
ghost use Rattle.grid_blocks.specs.declared.grid.Grid.{Grid};
ghost use Rattle.grid_blocks.specs.GridBoxes.{box_of, cell_of, lengths};
ghost use Rattle.grid_blocks.specs.GridOrder.{IsInOrder};
ghost use Rattle.grid_blocks.specs.GridsOf.{IsGridOf};
ghost use Rattle.grid_trees.specs.GridJudgements.{judgement_of};
ghost use Rattle.grid_samples.specs.Cells.{HasClosedRanges, IsGridCell, TracksLimit};
ghost use Rattle.grid_samples.specs.Covers.{Covers};
ghost use Rattle.grid_events.specs.BlockCells.{IsCellOf};

/// Each cell of a block has a piece of each of its runs, and the box of a block of a grid in order
/// covers the boxes of the block's cells. The block of all pieces is within its axes, and so is
/// each cell that is found in a block within them.
pub fn blocks()
    ensures cells { (block : List Span) → All (IsCellOf block) (cells block) }
    ensures covers { (grid : Grid) (block : List Span) (cell : List ℕ) → IsInOrder grid
        → IsWithin (lengths grid) block → IsCellOf block cell
        → Covers (box_of grid block) (cell_of grid cell) }
    ensures whole { (axes : List ℕ) → IsWithin axes (whole_block axes) }
    ensures found { (axes : List ℕ) (test : List ℕ → Bool) (block : List Span) (cell : List ℕ)
        → IsWithin axes block → find test (cells block) ≡ Some cell
        → IsWithin axes (block_of cell) }
{}

/// The cells of the grid of a question over closed ranges are cells of the question. A limit that
/// some state is past is one of a tracked link. Where the sample of a cell has the event, it is a
/// state in the box of each block of the grid that has the cell.
pub fn grids()
    ensures cell { (x : Rules) (question : Question) (ranges : Ranges) (grid : Grid)
        (cell : List ℕ) → HasClosedRanges ranges
        → IsGridOf x question (first_box x question ranges) grid
        → IsWithin (lengths grid) (block_of cell)
        → IsGridCell x question (first_box x question ranges) (cell_of grid cell) }
    ensures tracked { (x : Rules) (tables : TableSet) (question : Question) (s : State)
        → has_event x tables sample_memory s question ≡ true → TracksLimit x question }
    ensures state { (x : Rules) (tables : TableSet) (question : Question) (ranges : Ranges)
        (grid : Grid) (block : List Span) (cell : List ℕ) (s : State) → WellFormed x
        → HasClosedRanges ranges → IsGridOf x question (first_box x question ranges) grid
        → IsWithin (lengths grid) block → IsCellOf block cell
        → sample_of x (cell_of grid cell) ≡ Some s
        → has_event x tables sample_memory s question ≡ true
        → IsStateIn x (box_of grid block) s }
{}

/// A block that is shown, of the grid of a question over closed ranges, has no cell with the event.
pub fn shown_blocks()
    ensures no_event { (x : Rules) (tables : TableSet) (question : Question) (ranges : Ranges)
        (grid : Grid) (block : List Span) → WellFormed x → HoldsTables tables x.rules
        → HasClosedRanges ranges → IsGridOf x question (first_box x question ranges) grid
        → IsWithin (judgement_of x tables question grid).axes block
        → (judgement_of x tables question grid).shown block ≡ true
        → find (judgement_of x tables question grid).event (cells block) ≡ None }
{}
