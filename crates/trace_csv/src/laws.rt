//! Laws of the definitions that the contracts cite: each function is empty, and its contract is the
//! law.
ghost use Rattle.std.specs.Prelude.{◌≡◌, ℕ, List, IsTrue, Some};
ghost use Rattle.trace_csv.specs.Records.{record_of, is_plain_line, cut_at_commas};

/// A line that has a byte, no double quote, no CR and no LF, and does not begin as a byte order
/// mark does, is one record: its fields are what stands between its commas.
pub fn plain_lines()
    ensures cut { (line : List ℕ) → IsTrue (is_plain_line line)
        → record_of line ≡ Some (cut_at_commas line) }
{}
