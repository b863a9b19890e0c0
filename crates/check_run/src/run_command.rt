//! The command over files and sinks.
ghost use Rattle.std.specs.Prelude.{◌≡◌, ◌≢◌, ℕ, List, None, Some, IfSome, MatchOption, map};
ghost use Rattle.std.specs.Prelude.{string_bytes};
ghost use Rattle.command_outputs.specs.Runs.{UnchangedFrom, WritesWhenOpen, Leaves, Says, Counts};
ghost use Rattle.check_run.specs.CheckLines.{input_of as checked_input, with_input as with_file};
ghost use Rattle.check_run.specs.CheckLines.{roles_of_words, outcome_of_words};

use byte_edge::{Files, Sink};
use command_outputs::{Status, conclude};
use input_check::check;
use std::alloc::Global;

/// Runs `check IN` over the files of these names. None where the words are not `check` and a name.
///
/// What is said below holds for all bytes that the files object holds, in whatever pieces reads
/// give them and writes take them.
pub fn run_check<F: Files, O: Sink, E: Sink>(
    alloc: Global,
    words: &[String],
    files: &mut F,
    out: &mut O,
    err: &mut E,
) -> Option<Status>
    // None comes exactly where the words are not this command, and a status of it is never Usage.
    ensures known { MatchOption result (checked_input (map string_bytes words.now) ≡ None)
        (λ status. checked_input (map string_bytes words.now) ≢ None) }
    ensures command { IfSome result (λ status. status ≢ Status.Usage) }

    // Where the words are not this command, nothing was read, written or opened.
    ensures untouched { result ≡ None
        → (files.new ≡ files.old) × ((out.new ≡ out.old) × (err.new ≡ err.old)) }

    // The run ends as its outcome says, which is known where the bytes under the name are.
    ensures leaves { IfSome result (λ status. IfSome
        (outcome_of_words (F.held files.old) (checked_input (map string_bytes words.now)))
        (λ o. Leaves o (F.left files.old 1) (F.left files.new)
        (O.written out.old) (O.written out.new) (E.written err.old) (E.written err.new)
        (O.faults out.old) (O.faults out.new) (E.faults err.old) (E.faults err.new) status)) }

    // The files that the outcome does not open are as they were.
    ensures unchanged { IfSome
        (outcome_of_words (F.held files.old) (checked_input (map string_bytes words.now)))
        (λ o. UnchangedFrom o.opened
        (F.left files.old) (F.left files.new) (F.faults files.old) (F.faults files.new)) }

    // Nothing is written before the file is open, whatever it holds.
    ensures opened { WritesWhenOpen
        (roles_of_words (checked_input (map string_bytes words.now)))
        (F.is_open files.new) (O.written out.old) (O.written out.new) }

    // What is said belongs to the status, and Device comes only where a count of faults increased.
    ensures says { (usage : List ℕ) → IfSome result
        (Says usage (roles_of_words (checked_input (map string_bytes words.now)))
        (F.faults files.old) (F.faults files.new) (O.faults out.old) (O.faults out.new)
        (E.faults err.old) (E.faults err.new) (E.written err.old) (E.written err.new)) }
    ensures counts { IfSome result
        (Counts (roles_of_words (checked_input (map string_bytes words.now)))
        (F.faults files.old) (F.faults files.new) (O.faults out.old) (O.faults out.new)
        (E.faults err.old) (E.faults err.new)) }
{
    match input_of(words) {
        None => None,
        Some(input) => {
            let answer = check(alloc, input, files, out);
            Some(conclude::<F, O, E>(answer, err))
        }
    }
}

/// The name of the file that is to be checked; None where the words are not `check` and a name.
fn input_of(words: &[String]) -> Option<&str>
    ensures value { MatchOption result (checked_input (map string_bytes words.now) ≡ None)
        (λ input. checked_input (map string_bytes words.now) ≡ Some input.now) }
{
    match words {
        [word, input] => with_input(word.as_str(), input.as_str()),
        _ => None,
    }
}

/// The name behind the word `check`.
fn with_input<'a>(word: &str, input: &'a str) -> Option<&'a str>
    ensures value { MatchOption result (with_file word.now input.now ≡ None)
        (λ name. with_file word.now input.now ≡ Some name.now) }
{
    if word == "check" {
        return Some(input);
    }
    None
}
