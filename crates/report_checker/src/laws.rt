//! Laws of accepted entries and reports. Each function here does nothing: its contract states laws
//! for the proofs of the crates above.
ghost use Rattle.std.specs.Prelude.{◌≡◌, ℕ, true, None, Ok, List};
ghost use Rattle.std.specs.List.{list_all};
ghost use Rattle.inp_text.specs.Sections.{Line};
ghost use Rattle.object_index.specs.Objects.{Objects};
ghost use Rattle.report_lines.specs.Reports.{Entry, report_of};
ghost use Rattle.rule_types.specs.Tables.{HoldsTables, TableSet};
ghost use Rattle.rule_types.specs.WellFormed.{WellFormed};
ghost use Rattle.rule_types.specs.declared.action.PidMemory.{PidMemory};
ghost use Rattle.rule_types.specs.declared.rules.Rules.{Rules};
ghost use Rattle.rule_types.specs.declared.state.State.{State};
ghost use Rattle.state_checker.specs.Witnesses.{IsWitness};
ghost use Rattle.verdict_meaning.specs.Boxes.{IsInRanges};
ghost use Rattle.verdict_meaning.specs.Events.{has_event};
ghost use Rattle.verdict_meaning.specs.declared.cert.Cert.{Cert};
ghost use Rattle.verdict_meaning.specs.declared.question.Question.{Question};
ghost use Rattle.verdict_meaning.specs.declared.ranges.Ranges.{Ranges};
ghost use Rattle.verdict_meaning.specs.declared.verdict.Verdict.TheVariants as verdict;
ghost use Rattle.report_checker.specs.Accepted.{counted_from, is_accepted_entry, no_counts};
ghost use Rattle.report_checker.specs.Accepted.{report_judged, verdict_fault};
ghost use Rattle.report_checker.specs.declared.counts.Counts.{Counts};

/// Where an entry is accepted that holds, no state of the ranges has the question's event, with
/// whatever memories of PID actions. Where one is accepted that is refuted, its state is one of the
/// ranges and has the event.
pub fn accepted_entries()
    ensures holds { (x : Rules) (tables : TableSet) (ranges : Ranges) (question : Question)
        (places : List ℕ) (at : ℕ) (cert : Cert) → HoldsTables tables x.rules
        → verdict_fault x tables ranges question places at (verdict.Holds cert) ≡ None
        → (memory : ℕ → PidMemory) (s : State) → IsInRanges x question ranges memory s
        → has_event x tables memory s question ≡ true → ⊥ }
    ensures refuted { (x : Rules) (tables : TableSet) (ranges : Ranges) (question : Question)
        (places : List ℕ) (at : ℕ) (s : State) → WellFormed x
        → verdict_fault x tables ranges question places at (verdict.Refuted s) ≡ None
        → IsWitness x tables question ranges s }
{}

/// A report that is accepted has entries, the verdict of each is accepted, and the counts are theirs.
pub fn accepted_reports()
    ensures entries { (x : Rules) (tables : TableSet) (objects : Objects) (ranges : Ranges)
        (lines : List Line) (counts : Counts)
        → report_judged x tables objects ranges lines ≡ Ok counts
        → (entries : List Entry) × (report_of lines x objects ≡ Ok entries)
        × (list_all (is_accepted_entry x tables ranges) entries ≡ true)
        × (counts ≡ counted_from no_counts entries) }
{}
