//! Laws that the crates above may cite: each function is empty, and its contract is the law.
ghost use Rattle.rule_types.specs.declared.row.Row.{Row};
ghost use Rattle.rule_types.specs.declared.rules.Rules.{Rules};
ghost use Rattle.rule_types.specs.Tables.{TableSet};
ghost use Rattle.rule_meaning.specs.Reading.{Choice};
ghost use Rattle.replay_meaning.specs.Kept.{Kept, first_kept, kept_after};
ghost use Rattle.replay_meaning.specs.Standing.{CanReplay, CanFollow};
ghost use Rattle.trace_replay.specs.Following.{StandsForRows, IsNextRow};

/// What is kept before the first row, and after each row that can follow, stands for rows that a
/// replay can take; and each next row can follow what stands so.
pub fn following()
    ensures first { (choice : Choice) (x : Rules) (tables : TableSet) → CanReplay choice x tables
        → StandsForRows choice x tables (first_kept x) }
    ensures after { (choice : Choice) (x : Rules) (tables : TableSet) (k : Kept) (row : Row)
        → CanFollow choice x tables k row
        → StandsForRows choice x tables (kept_after choice x tables k row) }
    ensures next { (choice : Choice) (x : Rules) (tables : TableSet) (k : Kept) (row : Row)
        → StandsForRows choice x tables k → IsNextRow x k.last row
        → CanFollow choice x tables k row }
{}
