//! Laws that callers can cite. The function here does nothing: its contract is the laws.
ghost use Rattle.std.specs.Prelude.{◌≡◌, ◌≤◌, ℕ, List, Option, Some, Ok, length};
ghost use Rattle.command_outputs.specs.Outcomes.{file_lines, report_file};
ghost use Rattle.verdict_meaning.specs.declared.verdict.Verdict.{Verdict};
ghost use Rattle.verdict_commands.specs.Preparing.{IsReady};
ghost use Rattle.verdict_commands.specs.Proves.{AreVerdicts, asked_project, prove_text};
ghost use Rattle.verdict_commands.specs.Proves.{verdicts_completion};
ghost use Rattle.verdict_commands.specs.Verifies.{completion_of, counts_judged, verified};
ghost use Rattle.verdict_commands.specs.Verifies.{verify_outcome};
ghost use Rattle.verdict_commands.specs.declared.prepared.Prepared.{Prepared};
ghost use Rattle.report_round_trips.specs.ReadableVerdicts.{ReportFits};
ghost use Rattle.report_round_trips.specs.VerdictCounts.{counts_of};

/// The report that `prove` writes of right verdicts is accepted by `verify`, which counts the
/// verdicts and ends as `prove` ends: where the questions and the verdicts fit, that is, where they
/// can be read back from the lines that are written of them, and where the report has at most
/// 268,435,456 bytes, which is the limit of a report that is read.
pub fn written_reports()
    ensures accepted { (p : Prepared) (verdicts : List Verdict) → IsReady p
        → AreVerdicts p verdicts → ReportFits p verdicts
        → counts_judged p (file_lines report_file (prove_text p verdicts))
        ≡ Ok (counts_of verdicts) }
    ensures verified { (held : List ℕ → Option (List ℕ)) (input ranges report : List ℕ)
        (verdicts : List Verdict) (p : Prepared) → asked_project held input ranges ≡ Some p
        → IsReady p → AreVerdicts p verdicts → ReportFits p verdicts
        → held report ≡ Some (prove_text p verdicts)
        → length (prove_text p verdicts) ≤ 268435456
        → verify_outcome held input ranges report ≡ Some (verified (counts_of verdicts)) }
    ensures completion { (verdicts : List Verdict)
        → completion_of (counts_of verdicts) ≡ verdicts_completion verdicts }
{}
