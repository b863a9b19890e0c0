//! Laws of trees and decisions over the grid of a question. Each function here does nothing: its
//! contract states laws for the proofs of the crates above.
ghost use Rattle.std.specs.Prelude.{◌≡◌, ℕ, ◌≤◌, true, false, Some, None, List};
ghost use Rattle.std.specs.List.{list_any};
ghost use Rattle.rule_types.specs.declared.rules.Rules.{Rules};
ghost use Rattle.rule_types.specs.declared.state.State.{State};
ghost use Rattle.rule_types.specs.Tables.{TableSet};
ghost use Rattle.block_search.specs.declared.decision.Decision.TheVariants as decision;
ghost use Rattle.block_search.specs.declared.tree.Tree.{Tree};
ghost use Rattle.block_search.specs.Blocks.{IsWithin, is_none, whole_block};
ghost use Rattle.block_search.specs.Outcomes.{IsDecision};
ghost use Rattle.block_search.specs.Trees.{depth, proves};
ghost use Rattle.verdict_meaning.specs.declared.question.Question.{Question};
ghost use Rattle.verdict_meaning.specs.declared.ranges.Ranges.{Ranges};
ghost use Rattle.verdict_meaning.specs.Boxes.{first_box};
ghost use Rattle.verdict_meaning.specs.Certificates.{is_accepted};
ghost use Rattle.verdict_meaning.specs.Grids.{cell_count, sample_of};
ghost use Rattle.verdict_meaning.specs.Verdicts.{IsOpenCell, IsProof, IsRefutation, is_lean};
ghost use Rattle.verdict_meaning.specs.Verdicts.{most_cells};
ghost use Rattle.grid_blocks.specs.declared.grid.Grid.{Grid};
ghost use Rattle.grid_blocks.specs.GridBoxes.{cell_of, lengths};
ghost use Rattle.grid_blocks.specs.GridsOf.{IsGridOf};
ghost use Rattle.grid_trees.specs.GridJudgements.{judgement_of};
ghost use Rattle.grid_trees.specs.TreeCertificates.{cert_of};

/// The block of all pieces is one of the grid, and that of a question over ranges has a cell.
pub fn blocks()
    ensures within { (axes : List ℕ) → IsWithin axes (whole_block axes) }
    ensures some { (x : Rules) (ranges : Ranges) (question : Question) (grid : Grid)
        → IsGridOf x question (first_box x question ranges) grid
        → list_any is_none (whole_block (lengths grid)) ≡ false }
{}

/// Over the grid of a question over ranges, a tree that shows that no cell has the event gives a
/// certificate of which no fact and no split can be left out. It is accepted where the tree has at
/// most 1,024 nodes one below another.
pub fn trees()
    ensures accepted { (x : Rules) (tables : TableSet) (ranges : Ranges) (question : Question)
        (grid : Grid) (tree : Tree) → IsGridOf x question (first_box x question ranges) grid
        → proves (judgement_of x tables question grid) tree (whole_block (lengths grid)) ≡ true
        → depth tree ≤ 1024
        → is_accepted x tables ranges question (cert_of grid tree) ≡ true }
    ensures lean { (x : Rules) (tables : TableSet) (ranges : Ranges) (question : Question)
        (grid : Grid) (tree : Tree) → IsGridOf x question (first_box x question ranges) grid
        → proves (judgement_of x tables question grid) tree (whole_block (lengths grid)) ≡ true
        → is_lean x tables ranges question (cert_of grid tree) ≡ true }
{}

/// A decision over the grid of a question over ranges, which has not too many cells, is a right
/// verdict: the certificate of its tree, which has at most 36 nodes one below another, the sample
/// of its cell with the event, which there is, or its cell that is not shown.
pub fn decisions()
    ensures holds { (x : Rules) (tables : TableSet) (ranges : Ranges) (question : Question)
        (grid : Grid) (tree : Tree) → IsGridOf x question (first_box x question ranges) grid
        → cell_count x question ranges ≤ most_cells
        → IsDecision (judgement_of x tables question grid) (whole_block (lengths grid))
        (decision.Holds tree)
        → IsProof x tables ranges question (cert_of grid tree) }
    ensures flat { (x : Rules) (tables : TableSet) (ranges : Ranges) (question : Question)
        (grid : Grid) (tree : Tree) → IsGridOf x question (first_box x question ranges) grid
        → cell_count x question ranges ≤ most_cells
        → IsDecision (judgement_of x tables question grid) (whole_block (lengths grid))
        (decision.Holds tree)
        → depth tree ≤ 36 }
    ensures refuted { (x : Rules) (tables : TableSet) (ranges : Ranges) (question : Question)
        (grid : Grid) (cell : List ℕ) (s : State)
        → IsGridOf x question (first_box x question ranges) grid
        → cell_count x question ranges ≤ most_cells
        → IsDecision (judgement_of x tables question grid) (whole_block (lengths grid))
        (decision.Refuted cell)
        → sample_of x (cell_of grid cell) ≡ Some s
        → IsRefutation x tables ranges question s }
    ensures has_sample { (x : Rules) (tables : TableSet) (question : Question)
        (grid : Grid) (cell : List ℕ)
        → IsDecision (judgement_of x tables question grid) (whole_block (lengths grid))
        (decision.Refuted cell)
        → sample_of x (cell_of grid cell) ≡ None → ⊥ }
    ensures open_cell { (x : Rules) (tables : TableSet) (ranges : Ranges) (question : Question)
        (grid : Grid) (cell : List ℕ) → IsGridOf x question (first_box x question ranges) grid
        → cell_count x question ranges ≤ most_cells
        → IsDecision (judgement_of x tables question grid) (whole_block (lengths grid))
        (decision.Cell cell)
        → IsOpenCell x tables ranges question (cell_of grid cell) }
{}
