//! Laws that callers can cite. The functions here do nothing: their contracts are the laws.
ghost use Rattle.std.specs.Prelude.{◌≡◌, ℕ, List, Option, Some, option_map};
ghost use Rattle.command_outputs.specs.Messages.{line_of};
ghost use Rattle.object_index.specs.Objects.{Objects};
ghost use Rattle.range_lines.specs.Causes.{FileFault, fault_text};
ghost use Rattle.verdict_meaning.specs.declared.verdict.Verdict.{Verdict};
ghost use Rattle.verdict_commands.specs.Faults.{HasPlace, range_said};
ghost use Rattle.verdict_commands.specs.Proves.{asked_project, prove_outcome, proved};
ghost use Rattle.verdict_commands.specs.declared.prepared.Prepared.{Prepared};

/// The line that says a fault of the ranges is the text that reports it, with its end, where the
/// fault has a line exactly where nothing is missing.
pub fn fault_texts()
    ensures same { (objects : Objects) (fault : FileFault) → HasPlace fault
        → range_said objects fault ≡ line_of (fault_text objects fault) }
{}

/// How many files `prove` opens does not depend on the verdicts; and where it is known what is
/// asked, it writes the report of the verdicts.
pub fn prove_outcomes()
    ensures opened { (held : List ℕ → Option (List ℕ)) (input ranges : List ℕ)
        (verdicts others : List Verdict)
        → option_map (λ o. o.opened) (prove_outcome held input ranges verdicts)
        ≡ option_map (λ o. o.opened) (prove_outcome held input ranges others) }
    ensures asked { (held : List ℕ → Option (List ℕ)) (input ranges : List ℕ)
        (verdicts : List Verdict) (p : Prepared) → asked_project held input ranges ≡ Some p
        → prove_outcome held input ranges verdicts ≡ Some (proved verdicts p) }
{}
