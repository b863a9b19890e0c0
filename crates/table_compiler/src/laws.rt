//! Laws of tables. Each function here does nothing: its contract states laws, for the proofs of the
//! crates above.
ghost use Rattle.std.specs.Prelude.{◌≡◌, ℕ, false, List, length, All, IsTrue};
ghost use Rattle.std.specs.List.{Contains, AllPairs, list_all, range_with_len};
ghost use Rattle.std.specs.List.Sorted.{IsPermutation};
ghost use Rattle.rule_types.specs.declared.action.PidMemory.{PidMemory};
ghost use Rattle.rule_types.specs.declared.rule.Rule.{Rule};
ghost use Rattle.rule_types.specs.declared.rules.Rules.{Rules};
ghost use Rattle.rule_types.specs.declared.state.State.{State};
ghost use Rattle.rule_types.specs.Tables.{TableSet};
ghost use Rattle.rule_meaning.specs.History.{reading_by, memory_by, reading, memory};
ghost use Rattle.rule_meaning.specs.Reading.{settling, read_by, read, AgreeAt};
ghost use Rattle.table_compiler.specs.Rows.{rule_precedes, ranked, rows_on, tables_of};
ghost use Rattle.table_compiler.specs.Meaning.{ordered_by, tabled, TablesFit};
ghost use Rattle.table_compiler.specs.Meaning.{is_normal_clause};

/// At every state the first row of a link's table that holds orders the pair that is settled for
/// the link, and where none holds no pair is settled (SWMM 5.2 manual, [CONTROLS], PRIORITY).
pub fn settled()
    ensures rows { (x : Rules) (s : State) (link : ℕ)
        → ordered_by x s (rows_on x.rules link) ≡ settling x s link }
    ensures tables { (x : Rules) (s : State) (link : ℕ) → Contains x.controlled link
        → tabled x (tables_of x) s link ≡ settling x s link }
{}

/// A reading by the tables of rules is the reading of the rules, with the same orders, stop and PID
/// memories, at one state and after any list of states.
pub fn readings()
    ensures agree { (x : Rules) (s : State)
        → AgreeAt x (tabled x (tables_of x)) (settling x) s }
    ensures read { (x : Rules) (tables : TableSet) (s : State) (memory : ℕ → PidMemory)
        → read_by (tabled x (tables_of x)) x tables s memory ≡ read x tables s memory }
    ensures reading { (x : Rules) (tables : TableSet) (older : List State) (s : State)
        → reading_by (tabled x (tables_of x)) x tables older s ≡ reading x tables older s }
    ensures memory { (x : Rules) (tables : TableSet) (states : List State) (number : ℕ)
        → memory_by (tabled x (tables_of x)) x tables states number
        ≡ memory x tables states number }
{}

/// Each row of the tables of rules names an action on its link, and holds only where its branch is
/// listed.
pub fn fit_rows()
    ensures fit { (x : Rules) → TablesFit x (tables_of x) }
{}

/// Each clause of the tables of rules has a part, and each of its sets is in normal form and not
/// empty.
pub fn normal_clauses()
    ensures normal { (x : Rules) → All (λ table. All
        (λ row. IsTrue (list_all is_normal_clause row.clauses)) table.rows) (tables_of x) }
{}

/// The rules stand by rank: each place once, and none before one that precedes it.
pub fn ranks()
    ensures places { (rules : List Rule)
        → IsPermutation (range_with_len 0 (length rules)) (ranked rules) }
    ensures order { (rules : List Rule)
        → AllPairs (λ place later. rule_precedes rules later place ≡ false) (ranked rules) }
{}
