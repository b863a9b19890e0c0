//! Laws of what is written: each function is empty, and its contract is the law. What is written of
//! a question, of a verdict and of a whole report is read back as what it was.
ghost use Rattle.std.specs.Prelude.{◌≡◌, ℕ, ◌+◌, ◌^◌, ◌<◌, true, false, List, map, length, All};
ghost use Rattle.std.specs.Prelude.{IsTrue, Some, Ok};
ghost use Rattle.byte_edge.specs.Lines.{capped, lines};
ghost use Rattle.inp_text.specs.Sections.{Line};
ghost use Rattle.object_index.specs.Objects.{Objects};
ghost use Rattle.rule_types.specs.declared.rules.Rules.{Rules};
ghost use Rattle.rule_types.specs.declared.state.State.{State};
ghost use Rattle.rule_types.specs.Tables.{TableSet};
ghost use Rattle.verdict_meaning.specs.Certificates.{is_accepted};
ghost use Rattle.verdict_meaning.specs.declared.cell.Cell.{Cell};
ghost use Rattle.verdict_meaning.specs.declared.cert.Cert.{Cert};
ghost use Rattle.verdict_meaning.specs.declared.question.Question.{Question};
ghost use Rattle.verdict_meaning.specs.declared.ranges.Ranges.{Ranges};
ghost use Rattle.verdict_meaning.specs.declared.verdict.Verdict.{Verdict};
ghost use Rattle.report_lines.specs.QuestionLines.{Known};
ghost use Rattle.report_lines.specs.Reports.{question_line, grid_of};
ghost use Rattle.report_lines.specs.StateLines.{state_from, cell_from};
ghost use Rattle.report_lines.specs.TreeLines.{is_fact_line, most_levels};
ghost use Rattle.report_lines.specs.Words.{read_to, line_at};
ghost use Rattle.report_lines.specs.declared.grid.Grid.{Grid};
ghost use Rattle.report_text.specs.ReadBack.{IsTreeRead, IsVerdictRead, IsEntryRead, IsReportRead};
ghost use Rattle.report_text.specs.ReadBack.{IsLineText, AreLineNames, written_lines};
ghost use Rattle.report_text.specs.Readable.{StandAt, IsQuestionOf, IsFoundKey, tree_fits};
ghost use Rattle.report_text.specs.Readable.{tree_holds};
ghost use Rattle.report_text.specs.Readable.{IsGridState, IsGridCell, IsGridVerdict, IsEntryOf};
ghost use Rattle.report_text.specs.WrittenLines.{written_question};
ghost use Rattle.report_text.specs.WrittenReports.{state_lines, cell_lines, tree_lines};
ghost use Rattle.report_text.specs.WrittenReports.{verdict_lines, asked_lines, Asked};
ghost use Rattle.report_text.specs.WrittenReports.{Texts, text_of, report_text};

/// The line of a question on the rules is read as this question.
pub fn questions()
    ensures back { (known : Known) (question : Question) → known.rules < 2 ^ 64
        → IsQuestionOf known question
        → question_line known (Some (written_question known.objects question)) ≡ Some question }
{}

/// The lines of a state of a grid are read as this state, up to the line behind them.
pub fn states()
    ensures back { (lines : List Line) (x : Rules) (objects : Objects) (grid : Grid) (s : State)
        (at : ℕ) → IsGridState x grid s → StandAt lines at (state_lines x objects grid s)
        → state_from lines x objects grid at
        ≡ Ok (read_to s (at + length (state_lines x objects grid s))) }
{}

/// The lines of a cell of a grid are read as this cell, up to the line behind them.
pub fn cells()
    ensures back { (lines : List Line) (objects : Objects) (grid : Grid) (cell : Cell) (at : ℕ)
        → IsGridCell grid cell → StandAt lines at (cell_lines objects cell)
        → cell_from lines objects grid at
        ≡ Ok (read_to cell (at + length (cell_lines objects cell))) }
{}

/// The lines of a tree that fits a grid, whose keys are found by their words, are read as this
/// tree, up to the line behind them, where that line is no fact's.
pub fn trees()
    ensures back { (lines : List Line) (objects : Objects) (grid : Grid) (tree : Cert)
        (levels at : ℕ) (places : List ℕ) → All (IsFoundKey objects) grid.keys
        → length grid.asked < 2 ^ 64 → IsTrue (tree_fits grid tree levels)
        → StandAt lines at (tree_lines objects tree)
        → is_fact_line (line_at lines (at + length (tree_lines objects tree))) ≡ false
        → IsTreeRead lines objects grid levels at (at + length (tree_lines objects tree)) places
        tree }
{}

/// The lines of a verdict whose parts are of a grid are read as this verdict, up to the line behind
/// them, where that line is no fact's.
pub fn verdicts()
    ensures back { (lines : List Line) (x : Rules) (objects : Objects) (grid : Grid) (at : ℕ)
        (answer : Verdict) → length grid.asked < 2 ^ 64 → IsGridVerdict x objects grid answer
        → StandAt lines at (verdict_lines x objects grid answer)
        → is_fact_line (line_at lines (at + length (verdict_lines x objects grid answer)))
        ≡ false
        → IsVerdictRead lines x objects grid at
        (at + length (verdict_lines x objects grid answer)) answer }
{}

/// The lines of an entry are read as this entry, up to the line behind them, where that line is no
/// fact's.
pub fn entries()
    ensures back { (lines : List Line) (x : Rules) (objects : Objects) (at : ℕ) (asked : Asked)
        → length x.rules < 2 ^ 64 → IsEntryOf x objects asked
        → StandAt lines at (asked_lines x objects asked)
        → is_fact_line (line_at lines (at + length (asked_lines x objects asked))) ≡ false
        → IsEntryRead lines x objects at (at + length (asked_lines x objects asked)) asked }
{}

/// The lines of a whole report are read as its entries.
pub fn reports()
    ensures back { (x : Rules) (objects : Objects) (entries : List Asked)
        → length x.rules < 2 ^ 64 → All (IsEntryOf x objects) entries
        → IsReportRead x objects entries }
{}

/// A tree that is accepted for a question over ranges, whose numbers and moments are in range and
/// whose leaves give facts, fits the grid of the question.
pub fn accepted_trees()
    ensures fit { (x : Rules) (tables : TableSet) (question : Question) (ranges : Ranges)
        (tree : Cert) → is_accepted x tables ranges question tree ≡ true
        → tree_holds tree ≡ true → tree_fits (grid_of x question) tree most_levels ≡ true }
{}

/// A text of lines, none of which has a line feed or ends with a carriage return, is cut into these
/// lines. The text of a report is cut into its lines, and none of them has more than 8,192 bytes,
/// where no name of an object has a line feed, a carriage return or more than 4,096 bytes.
pub fn texts()
    ensures cut { (texts : Texts) → All IsLineText texts → lines (text_of texts) ≡ texts }
    ensures report { (x : Rules) (objects : Objects) (entries : List Asked) → AreLineNames objects
        → map (capped 8192) (lines (report_text x objects entries))
        ≡ written_lines x objects entries }
{}
