//! Laws of verdicts. The function here does nothing: its contract states laws for the proofs of the
//! crates above.
ghost use Rattle.std.specs.Prelude.{◌≡◌, ℕ, true};
ghost use Rattle.rule_types.specs.declared.action.PidMemory.{PidMemory};
ghost use Rattle.rule_types.specs.declared.rules.Rules.{Rules};
ghost use Rattle.rule_types.specs.declared.state.State.{State};
ghost use Rattle.rule_types.specs.Tables.{HoldsTables, TableSet};
ghost use Rattle.rule_types.specs.WellFormed.{WellFormed};
ghost use Rattle.verdict_meaning.specs.declared.cert.Cert.{Cert};
ghost use Rattle.verdict_meaning.specs.declared.question.Question.{Question};
ghost use Rattle.verdict_meaning.specs.declared.ranges.Ranges.{Ranges};
ghost use Rattle.verdict_meaning.specs.declared.verdict.Verdict.TheVariants as verdict;
ghost use Rattle.verdict_meaning.specs.Boxes.{IsInRanges};
ghost use Rattle.verdict_meaning.specs.Events.{has_event};
ghost use Rattle.verdict_meaning.specs.Grids.{sample_memory};
ghost use Rattle.verdict_meaning.specs.Verdicts.{IsVerdict};
ghost use Rattle.grid_samples.specs.Cells.{HasClosedRanges};

/// Where a verdict says that a question holds, no state of the ranges has the event, whatever PID
/// actions keep. Where it says that a question is refuted, its state has the event and, over closed
/// ranges, is one of the states of the ranges.
pub fn verdicts()
    ensures holds { (x : Rules) (tables : TableSet) (ranges : Ranges) (question : Question)
        (cert : Cert) (memory : ℕ → PidMemory) (s : State) → HoldsTables tables x.rules
        → IsVerdict x tables ranges question (verdict.Holds cert)
        → IsInRanges x question ranges memory s
        → has_event x tables memory s question ≡ true → ⊥ }
    ensures event { (x : Rules) (tables : TableSet) (ranges : Ranges) (question : Question)
        (s : State) → IsVerdict x tables ranges question (verdict.Refuted s)
        → has_event x tables sample_memory s question ≡ true }
    ensures in_ranges { (x : Rules) (tables : TableSet) (ranges : Ranges) (question : Question)
        (s : State) → WellFormed x → HasClosedRanges ranges
        → IsVerdict x tables ranges question (verdict.Refuted s)
        → IsInRanges x question ranges sample_memory s }
{}
