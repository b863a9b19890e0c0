//! Laws of grids and of their blocks. Each function here does nothing: its contract states laws for
//! the proofs of the crates above.
ghost use Rattle.std.specs.Prelude.{◌≡◌, ℕ, ◌+◌, ◌*◌, ◌%◌, ◌≤◌, ◌<◌, true, not, ◌&&◌, Some, List};
ghost use Rattle.std.specs.Prelude.{length, map, slice_get, slice_set, int_le, ℤ, pos, ◌-ℤ◌};
ghost use Rattle.exact_fraction.specs.Number.{Rational};
ghost use Rattle.interval_sets.specs.declared.interval.Interval.{Interval};
ghost use Rattle.interval_sets.specs.Cuts.{IsRising};
ghost use Rattle.interval_sets.specs.Intervals.{has_member, lies_in, point_of};
ghost use Rattle.moment_pieces.specs.Pieces.{piece_firsts};
ghost use Rattle.rule_types.specs.declared.key.Key.{Key};
ghost use Rattle.rule_types.specs.declared.rules.Rules.{Rules};
ghost use Rattle.block_search.specs.declared.span.Span.{Span};
ghost use Rattle.block_search.specs.Blocks.{IsWithin};
ghost use Rattle.block_search.specs.Blocks.{cells, is_none, one_piece, size, span_from};
ghost use Rattle.block_search.specs.Blocks.{whole_block};
ghost use Rattle.block_search.specs.Trees.{is_point_of};
ghost use Rattle.verdict_meaning.specs.declared.cell.Cell.{Cell};
ghost use Rattle.verdict_meaning.specs.declared.question.Question.{Question};
ghost use Rattle.verdict_meaning.specs.declared.ranges.Ranges.{Ranges};
ghost use Rattle.verdict_meaning.specs.Boxes.{first_box};
ghost use Rattle.verdict_meaning.specs.Certificates.{above_of, below_of, can_split, part_at};
ghost use Rattle.verdict_meaning.specs.Certificates.{part_through, part_with, with_piece};
ghost use Rattle.verdict_meaning.specs.Grids.{axes_of, cells_of, cuts_of, moment_pieces};
ghost use Rattle.verdict_meaning.specs.Grids.{product_of_lengths};
ghost use Rattle.verdict_meaning.specs.Questions.{grid_keys};
ghost use Rattle.verdict_meaning.specs.Reaches.{piece_in};
ghost use Rattle.grid_blocks.specs.declared.grid.Grid.{Grid};
ghost use Rattle.grid_blocks.specs.declared.grid.KeyCuts.{KeyCuts};
ghost use Rattle.grid_blocks.specs.declared.grid.MomentPieces.{MomentPieces};
ghost use Rattle.grid_blocks.specs.BlockCuts.{IsKeyCut, IsMomentCut};
ghost use Rattle.grid_blocks.specs.GridBoxes.{box_of, cell_of, cut_at, first_moment, interval_of};
ghost use Rattle.grid_blocks.specs.GridBoxes.{keys_of, lengths, moments_in, part_of, piece_count};
ghost use Rattle.grid_blocks.specs.GridOrder.{AreDistinct, AreFirstsTo, IsInOrder, key_of};
ghost use Rattle.grid_blocks.specs.GridsOf.{IsGridOf};

/// The parts of the interval of a run at the cut of one of its pieces are the intervals of the
/// run's parts. An interval has a member where its run has a piece, and a run of more than one
/// piece can be split at each of its cuts.
pub fn runs()
    ensures below { (cuts : List Rational) (span : Span) (piece : ℕ) → piece % 2 ≡ 0
        → below_of (interval_of cuts span) (cut_at cuts piece)
        ≡ interval_of cuts (span_from span.low piece) }
    ensures point { (cuts : List Rational) (piece : ℕ) → piece % 2 ≡ 0
        → point_of (cut_at cuts piece) ≡ interval_of cuts (one_piece piece) }
    ensures above { (cuts : List Rational) (span : Span) (piece : ℕ) → piece % 2 ≡ 0
        → above_of (interval_of cuts span) (cut_at cuts piece)
        ≡ interval_of cuts (span_from (piece + 1) span.high) }
    ensures members { (cuts : List Rational) (span : Span) → IsRising cuts
        → span.low ≤ piece_count cuts → span.high ≤ piece_count cuts
        → has_member (interval_of cuts span).low (interval_of cuts span).high
        ≡ not (is_none span) }
    ensures split { (cuts : List Rational) (span : Span) (piece : ℕ) → IsRising cuts
        → span.high ≤ piece_count cuts → is_point_of span piece ≡ true
        → can_split (interval_of cuts span) (cut_at cuts piece) ≡ true }
    ensures inside { (cuts : List Rational) (span : Span) (piece : ℕ) → IsRising cuts
        → span.high ≤ piece_count cuts → is_point_of span piece ≡ true
        → lies_in (interval_of cuts span) (cut_at cuts piece) ≡ true }
{}

/// In a box each key has the interval of its run, and another interval is that of another run.
pub fn keys()
    ensures piece { (axes : List KeyCuts) (block : List Span) (number : ℕ) (axis : KeyCuts)
        (span : Span) → AreDistinct (map key_of axes) → slice_get axes number ≡ Some axis
        → slice_get block number ≡ Some span
        → piece_in axis.key (keys_of axes block) ≡ Some (interval_of axis.cuts span) }
    ensures with_run { (axes : List KeyCuts) (block : List Span) (number : ℕ) (axis : KeyCuts)
        (new : Span) → AreDistinct (map key_of axes) → slice_get axes number ≡ Some axis
        → number < length block
        → with_piece axis.key (interval_of axis.cuts new) (keys_of axes block)
        ≡ keys_of axes (slice_set block number new) }
{}

/// Where a block of a grid in order is cut at a piece of a key, its box can be split at the cut of
/// that piece, and the parts of the box are the boxes of the block's parts.
pub fn key_parts()
    ensures piece { (grid : Grid) (block : List Span) (number : ℕ) (axis : KeyCuts) (span : Span)
        (piece : ℕ) → IsInOrder grid → IsKeyCut grid block number axis span piece
        → piece_in axis.key (box_of grid block).keys ≡ Some (interval_of axis.cuts span) }
    ensures split { (grid : Grid) (block : List Span) (number : ℕ) (axis : KeyCuts) (span : Span)
        (piece : ℕ) → IsInOrder grid → IsKeyCut grid block number axis span piece
        → can_split (interval_of axis.cuts span) (cut_at axis.cuts piece) ≡ true }
    ensures below { (grid : Grid) (block : List Span) (number : ℕ) (axis : KeyCuts) (span : Span)
        (piece : ℕ) → IsInOrder grid → IsKeyCut grid block number axis span piece
        → part_with axis.key
        (below_of (interval_of axis.cuts span) (cut_at axis.cuts piece)) (box_of grid block)
        ≡ part_of grid block number (span_from span.low piece) }
    ensures point { (grid : Grid) (block : List Span) (number : ℕ) (axis : KeyCuts) (span : Span)
        (piece : ℕ) → IsInOrder grid → IsKeyCut grid block number axis span piece
        → part_at axis.key (interval_of axis.cuts span) (cut_at axis.cuts piece)
        (box_of grid block)
        ≡ part_of grid block number (one_piece piece) }
    ensures above { (grid : Grid) (block : List Span) (number : ℕ) (axis : KeyCuts) (span : Span)
        (piece : ℕ) → IsInOrder grid → IsKeyCut grid block number axis span piece
        → part_with axis.key
        (above_of (interval_of axis.cuts span) (cut_at axis.cuts piece)) (box_of grid block)
        ≡ part_of grid block number (span_from (piece + 1) span.high) }
{}

/// Where a block of a grid in order is cut before a piece of moments, the first moment of that
/// piece lies in the moments of its box, and the parts of the box before it and from it on are the
/// boxes of the block's parts.
pub fn moment_parts()
    ensures moments { (grid : Grid) (block : List Span) (pieces : MomentPieces) (span : Span)
        (piece : ℕ) → IsMomentCut grid block pieces span piece
        → (box_of grid block).moments ≡ Some (moments_in pieces span) }
    ensures inside { (grid : Grid) (block : List Span) (pieces : MomentPieces) (span : Span)
        (piece : ℕ) → IsInOrder grid → IsMomentCut grid block pieces span piece
        → (int_le (moments_in pieces span).0 (first_moment pieces piece)
        && int_le (first_moment pieces piece) (moments_in pieces span).1) ≡ true }
    ensures before { (grid : Grid) (block : List Span) (pieces : MomentPieces) (span : Span)
        (piece : ℕ) → IsInOrder grid → IsMomentCut grid block pieces span piece
        → part_through (moments_in pieces span).0 (first_moment pieces piece -ℤ pos 1)
        (box_of grid block)
        ≡ part_of grid block (length grid.keys) (span_from span.low piece) }
    ensures from { (grid : Grid) (block : List Span) (pieces : MomentPieces) (span : Span)
        (piece : ℕ) → IsInOrder grid → IsMomentCut grid block pieces span piece
        → part_through (first_moment pieces piece) (moments_in pieces span).1 (box_of grid block)
        ≡ part_of grid block (length grid.keys) (span_from piece span.high) }
    ensures holds { (pieces : MomentPieces) (span : Span) → AreFirstsTo pieces.last pieces.firsts
        → span.low < span.high → span.high ≤ length pieces.firsts
        → int_le (moments_in pieces span).0 (moments_in pieces span).1 ≡ true }
{}

/// In a block of a grid each run ends within the pieces of its axis.
pub fn bounds()
    ensures key { (grid : Grid) (block : List Span) (number : ℕ) (axis : KeyCuts) (span : Span)
        → IsWithin (lengths grid) block → slice_get grid.keys number ≡ Some axis
        → slice_get block number ≡ Some span → span.high ≤ piece_count axis.cuts }
    ensures moments { (grid : Grid) (block : List Span) (pieces : MomentPieces) (span : Span)
        → IsWithin (lengths grid) block → grid.moments ≡ Some pieces
        → slice_get block (length grid.keys) ≡ Some span
        → span.high ≤ length pieces.firsts }
{}

/// The cells of the block of all pieces of a question's grid are the cells of the box in their
/// order, and their number is the product of the numbers of pieces.
pub fn cells()
    ensures all { (x : Rules) (question : Question) (cell : Cell) (grid : Grid)
        → IsGridOf x question cell grid
        → map (cell_of grid) (cells (whole_block (lengths grid))) ≡ cells_of x question cell }
    ensures number { (x : Rules) (question : Question) (cell : Cell) (grid : Grid)
        → IsGridOf x question cell grid
        → size (whole_block (lengths grid))
        ≡ product_of_lengths (axes_of x question cell.keys)
        * length (moment_pieces x question cell.moments) }
{}

/// The cuts of a key in a range rise, the first moments of pieces rise to the last moment, and the
/// keys of a question's grid are distinct. So the grid of a question over ranges is in order.
pub fn orders()
    ensures cuts { (x : Rules) (question : Question) (key : Key) (range : Interval)
        → IsRising (cuts_of x question key range) }
    ensures firsts { (x : Rules) (used : List ℕ) (step : Rational) (start from to : ℤ)
        → AreFirstsTo to (piece_firsts x used step start from to) }
    ensures keys { (x : Rules) (question : Question) → AreDistinct (grid_keys x question) }
    ensures grid { (x : Rules) (question : Question) (ranges : Ranges) (grid : Grid)
        → IsGridOf x question (first_box x question ranges) grid → IsInOrder grid }
{}
