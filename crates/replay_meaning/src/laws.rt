//! Laws of the definitions that the contracts cite: each function is empty, and its contract is the
//! law.
ghost use Rattle.std.specs.Prelude.{◌≡◌, ◌∷◌, [], None, List};
ghost use Rattle.rule_types.specs.declared.row.Row.{Row};
ghost use Rattle.rule_types.specs.declared.rules.Rules.{Rules};
ghost use Rattle.rule_types.specs.Tables.{TableSet};
ghost use Rattle.rule_types.specs.WellFormed.{WellFormed};
ghost use Rattle.rule_meaning.specs.History.{reading_by, standings_by};
ghost use Rattle.rule_meaning.specs.Reading.{Choice};
ghost use Rattle.rule_meaning.specs.Replay.{replayed_by, state_after_by};
ghost use Rattle.replay_meaning.specs.Kept.{Kept, first_kept, state_of, reading_of};
ghost use Rattle.replay_meaning.specs.Kept.{standings_at, after_row};
ghost use Rattle.replay_meaning.specs.Standing.{StandsFor};

/// What is kept before the first row stands for no rows, and what is kept after one more row, where
/// no row stopped before, for the rows with this one. The state, the reading and the standings of a
/// row are those after the rows before.
pub fn standing()
    ensures first { (choice : Choice) (x : Rules) (tables : TableSet)
        → StandsFor choice x tables (first_kept x) [] }
    ensures with { (choice : Choice) (x : Rules) (tables : TableSet) (k : Kept) (rows : List Row)
        (row : Row) → WellFormed x → k.stop ≡ None → StandsFor choice x tables k rows
        → StandsFor choice x tables (after_row choice x tables k row) (row ∷ rows) }
    ensures state { (choice : Choice) (x : Rules) (tables : TableSet) (k : Kept) (rows : List Row)
        (row : Row) → StandsFor choice x tables k rows
        → state_of x k row ≡ state_after_by choice x tables (replayed_by choice x tables rows) row }
    ensures reading { (choice : Choice) (x : Rules) (tables : TableSet) (k : Kept) (rows : List Row)
        (row : Row) → StandsFor choice x tables k rows
        → reading_of choice x tables k row
        ≡ reading_by choice x tables (replayed_by choice x tables rows)
        (state_after_by choice x tables (replayed_by choice x tables rows) row) }
    ensures standings { (choice : Choice) (x : Rules) (tables : TableSet) (k : Kept)
        (rows : List Row) (row : Row) → StandsFor choice x tables k rows
        → standings_at choice x tables k row
        ≡ standings_by choice x tables (replayed_by choice x tables rows)
        (state_after_by choice x tables (replayed_by choice x tables rows) row) }
{}
